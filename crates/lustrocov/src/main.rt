//! The station as a program, over the files of the system and standard output. It ends with the
//! number of the station's status.
#![tactic(auto)]

mod call;
mod count;
mod dir_store;
mod std_sink;
#[cfg(test)]
mod tests;
mod words;

use crate::call::call_station;
use crate::dir_store::DirStore;
use crate::std_sink::StdSink;
use std::env;
use std::process::ExitCode;

fn main(rt: HostRuntime) -> ExitCode {
    let alloc = rt.alloc();
    let args = env::args(&rt);
    let mut out = StdSink::new(rt.stdout());
    let mut files = DirStore::new(rt, alloc);
    call_station(alloc, args, &mut files, &mut out)
}
