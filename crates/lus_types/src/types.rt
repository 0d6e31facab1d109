use op_network::{Ty, Value};

/// What a global name means: a type, by its number, a constant or a node, by its place among the
/// declarations, or an enumerator, by the number of its type and its place there.
#[derive(Clone, Copy, Debug, PartialEq, Eq)]
pub(crate) enum Meaning {
    Enumeration(u32),
    Constant(u32),
    Node(u32),
    Enumerator(u32, usize),
}

/// Where an expression stands, as far as its faults depend on it.
#[derive(Clone, Copy, Debug, PartialEq, Eq)]
pub(crate) enum Position {
    /// The whole right side of an equation.
    Whole,
    /// The operand of unary `-`.
    Negated,
    /// Anywhere else.
    Inside,
}

/// A constant or an enumerator: its type and its value.
#[derive(Clone, Copy, Debug, PartialEq, Eq)]
pub struct Constant {
    pub ty: Ty,
    pub value: Value,
}
