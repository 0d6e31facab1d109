//! What holds of texts in DIMACS CNF.
ghost use Rattle.cnf_form.specs.Written.{IsReadAgain};

/// A formula's text is read again as the formula.
#[tactic(auto, using(crate::proofs::FormulaBack::read_again))]
pub fn read_again()
    ensures { IsReadAgain }
{}
