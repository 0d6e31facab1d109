ghost use Rattle.std.specs.Prelude.{◌<◌, ◌≡◌, ℕ, List as Seq, length};
ghost use Rattle.op_network.specs.declared.edge.Parts.{Parts};
ghost use Rattle.dep_paths.specs.declared.path.Criterion.TheVariants as criterion;
ghost use Rattle.dep_paths.specs.declared.path.Path.{Path};
ghost use Rattle.dep_paths.specs.Criteria.{FullImplies, LaterFramesChangeNothing};
ghost use Rattle.dep_paths.specs.Observed.{ReachIsPassedOn};
ghost use Rattle.dep_paths.specs.Paths.{IsListOf, MoreThan};

/// A network has at most one list of its complete paths of at most n edges. Does nothing: its
/// clause is the law, as in the functions below.
pub fn one_list()
    ensures { (net : Parts) (n : ℕ) (ps qs : Seq Path) → IsListOf net n ps → IsListOf net n qs →
        ps ≡ qs }
{}

/// Each network has a list of its complete paths of at most n edges, for each n.
pub fn some_list()
    ensures { (net : Parts) (n : ℕ) → (ps : Seq Path) × IsListOf net n ps }
{}

/// Where there are more than `count` different complete paths of at most n edges, the list has more
/// than `count`.
pub fn list_is_longer()
    ensures { (count : ℕ) (net : Parts) (n : ℕ) (ps : Seq Path) → IsListOf net n ps →
        MoreThan count net n → count < length ps }
{}

/// Where runs cover all multiple conditions they cover all elementary ones, and where they cover
/// these, all paths.
pub fn criteria_imply()
    ensures elementary { FullImplies criterion.Mcc criterion.Ecc }
    ensures basic { FullImplies criterion.Ecc criterion.Bc }
{}

/// Whether an obligation is met at an instant depends on the frames up to it alone.
pub fn later_frames_change_nothing()
    ensures { LaterFramesChangeNothing }
{}

/// A condition with a value reaches an edge exactly through a port of it that is unmasked: the port
/// is the condition and its operand has the value, or the operand is reached; at the same instant,
/// or through `Pre` at the instant before.
pub fn reach_is_passed_on()
    ensures { ReachIsPassedOn }
{}
