use cov_base::List;
use op_network::EdgeId;

/// A step of a path: the edge that it enters, and the port by which, from 0 to 2. The operand at
/// that port is the edge before.
#[derive(Clone, Copy, Debug, PartialEq, Eq)]
pub struct Step {
    pub edge: EdgeId,
    pub port: u8,
}

/// A path of a network: the edge at which it starts, and its steps. It has one edge more than
/// steps.
#[derive(Debug, Drop)]
pub struct Path {
    pub start: EdgeId,
    pub steps: List<Step>,
}

/// A condition: a port of an edge, from 0 to 2, at which the edge reads a truth.
#[derive(Clone, Copy, Debug, PartialEq, Eq)]
pub struct Condition {
    pub edge: EdgeId,
    pub port: u8,
}

/// The truth that is asked for at a place of a path: 0 is its start, i the edge of its i-th step,
/// counted from 1. A path of a plan has places up to 63.
#[derive(Clone, Copy, Debug, PartialEq, Eq)]
pub struct Pin {
    pub place: u8,
    pub value: bool,
}

/// A criterion. The first three are after Lakehal and Parissis, the last one after Whalen, Gay,
/// You, Heimdahl and Staats.
#[derive(Clone, Copy, Debug, PartialEq, Eq)]
pub enum Criterion {
    /// Basic coverage: each path is activated.
    Bc,
    /// Elementary conditions: with each truth of its first edge.
    Ecc,
    /// Multiple conditions: with each truth of each edge on it.
    Mcc,
    /// Observable MC/DC: each condition is observed with each truth.
    Omcdc,
}

/// An obligation of a plan. Paths and conditions are named by their places in the plan, from 0.
#[derive(Clone, Copy, Debug, PartialEq, Eq)]
pub enum Obligation {
    /// The path is activated.
    Bc { path: u32 },
    /// The path is activated, where a value is given with that value of its input.
    Ecc { path: u32, value: Option<bool> },
    /// The path is activated, where a pin is given with that value at that place.
    Mcc { path: u32, pin: Option<Pin> },
    /// The condition has the value and is observed.
    Omc { condition: u32, value: bool },
}

impl Obligation {
    ghost use Rattle.std.specs.Prelude.{◌≡◌};
    ghost use Rattle.dep_paths.specs.Criteria.{criterion_of};

    /// The criterion that asks for it. In constant time.
    pub fn criterion(self) -> Criterion
        ensures { result ≡ criterion_of self }
    {
        match self {
            Obligation::Bc { .. } => Criterion::Bc,
            Obligation::Ecc { .. } => Criterion::Ecc,
            Obligation::Mcc { .. } => Criterion::Mcc,
            Obligation::Omc { .. } => Criterion::Omcdc,
        }
    }
}

/// How many of a criterion's obligations are covered, and how many there are: at most 200,000.
#[derive(Clone, Copy, Debug, PartialEq, Eq)]
pub struct Score {
    pub covered: u32,
    pub total: u32,
}

/// Why there is no plan.
#[derive(Clone, Copy, Debug, PartialEq, Eq)]
pub enum PlanFault {
    /// There are more than `MOST_PATHS` paths.
    Paths,
    /// There are no more paths, but more than `MOST_OBLIGATIONS` obligations.
    Obligations,
    /// Memory is wanting.
    Memory,
}
