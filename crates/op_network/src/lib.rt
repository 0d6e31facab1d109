//! Networks of operators: edges, values, frames and tests.
#![tactic(auto)]

mod edge;
mod fits;
mod form;
mod frame;
mod laws;
mod limits;
mod network;
mod operands;
mod ports;
mod readers;
mod run;
mod test;
#[cfg(test)]
mod tests;
mod types;
mod valid;
mod value;
mod values;
mod word;

pub use edge::{Choice, Edge, EdgeId, Op, Parts};
pub use form::{Binary, Form, Unary};
pub use frame::Frame;
pub use laws::one_word;
pub use limits::{LEAST_WIDTH, MOST_EDGES, MOST_NAMES, MOST_WIDTH};
pub use network::Network;
pub use ports::{is_unmasked, step_condition};
pub use run::operator_value;
pub use test::Test;
pub use types::{arrow_type, binary_type, if_type, unary_type};
pub use value::{Ty, Value, default, is_true};
pub use values::{binary_value, if_value, unary_value};
pub use word::{wrap, wrapped};
