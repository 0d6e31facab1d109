//! What holds of proofs and of their texts.
ghost use Rattle.proof_check.specs.Spent.{SpentLogAddsNew};
ghost use Rattle.proof_check.specs.Written.{IsReadAgain};

/// The text of a proof is read again as the proof, where its words lie within the grammar.
#[tactic(auto, using(crate::proofs::ProofBack::read_again))]
pub fn read_again()
    ensures { IsReadAgain }
{}

/// A log of a solver that spent its budget adds no empty clause, and none that has all literals of
/// a clause before it.
#[tactic(auto, using(crate::proofs::NewClauses::spent_log_adds_new))]
pub fn spent_log_adds_new()
    ensures { SpentLogAddsNew }
{}
