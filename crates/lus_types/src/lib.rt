//! Types of Lustre programs: the first fault of a program, or a program that has none.
#![tactic(auto)]

mod calls;
mod constants;
mod declarations;
mod expressions;
mod fault;
mod laws;
mod limits;
mod names;
mod nodes;
mod typed;
mod types;

pub use fault::{TypeFault, TypeKind};
pub use laws::{one_fault, typed_program};
pub use limits::MOST_DECLS;
pub use typed::{Typed, type_check};
pub use types::Constant;
