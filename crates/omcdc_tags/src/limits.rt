/// The most operands that an operator has.
pub(crate) const MOST_OPERANDS: usize = 3;

/// The most ports that a network has: three of each edge.
pub(crate) const MOST_PORTS: usize = 24_576;
