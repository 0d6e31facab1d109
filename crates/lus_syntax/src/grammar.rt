//! The tree that tokens derive, or the place of their fault.

pub(crate) mod builders;
pub(crate) mod declarations;
pub(crate) mod expressions;
pub(crate) mod fault;
pub(crate) mod front;
pub(crate) mod groups;
pub(crate) mod items;
pub(crate) mod parser;
