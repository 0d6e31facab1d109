//! Names, and what they mean.

pub(crate) mod globals;
pub(crate) mod set;
pub(crate) mod table;
