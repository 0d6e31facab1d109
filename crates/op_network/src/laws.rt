ghost use Rattle.std.specs.Prelude.{◌≡◌, ◌≤◌, ◌^◌, ℕ, ℤ};
ghost use Rattle.op_network.specs.Values.{IsWord, AreCongruent, wrap};

/// Of the words of a width exactly one is a given number modulo 2 to the width. Does nothing: its
/// clauses are the law.
pub fn one_word()
    ensures word { (width : ℕ) (x : ℤ) → 1 ≤ width → IsWord width (wrap width x) }
    ensures congruent { (width : ℕ) (x : ℤ) → 1 ≤ width →
        AreCongruent (2 ^ width) x (wrap width x) }
    ensures only { (width : ℕ) (x w : ℤ) → 1 ≤ width
        → IsWord width w → AreCongruent (2 ^ width) x w → w ≡ wrap width x }
{}
