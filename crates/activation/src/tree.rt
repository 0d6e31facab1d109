/// A way into an edge on a path: the edge, by its place in the network, the port by which the path
/// enters it (none where the path starts), and the truth that is asked of its value, if one is.
#[derive(Clone, Copy, Debug, PartialEq, Eq, Hash)]
pub struct Gate {
    pub edge: u32,
    pub port: Option<u8>,
    pub pin: Option<bool>,
}

/// A node of the tree of prefixes: the gate of a prefix's last edge and the node of the prefix
/// without it, both by place from 0. A prefix of one edge has no node before it.
#[derive(Clone, Copy, Debug, PartialEq, Eq, Hash)]
pub struct Node {
    pub gate: u32,
    pub parent: Option<u32>,
}
