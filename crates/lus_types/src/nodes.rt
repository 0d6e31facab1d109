//! Nodes: their variables, their signatures and their items.

pub(crate) mod header;
pub(crate) mod items;
pub(crate) mod signatures;
pub(crate) mod variables;
