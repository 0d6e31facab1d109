mod edge;
pub(crate) mod table;

pub(crate) use edge::{assertion_name, edge_name, instance_prefix, joined};
