ghost use Rattle.std.specs.Prelude.{◌≡◌};
ghost use Rattle.cnf_form.specs.Lits.{turned};

/// A variable, by its number from 0, or its negation. It takes 8 bytes.
#[derive(Clone, Copy, Debug, PartialEq, Eq)]
pub struct Lit {
    pub var: u32,
    /// Whether the literal is true where its variable is.
    pub positive: bool,
}

impl Lit {
    /// The literal of the same variable that is true where this one is false. Constant time.
    #[tactic(auto, unfolding(crate::specs::Lits::turned))]
    pub fn negated(self) -> Lit
        ensures { result ≡ turned self }
    {
        Lit {
            var: self.var,
            positive: !self.positive,
        }
    }
}
