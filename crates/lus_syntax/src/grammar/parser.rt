ghost use Rattle.std.specs.Prelude.{◌≤◌, List as Seq, ℕ, length, IfOk, IfErr};
ghost use Rattle.lus_syntax.specs.Crowding.{IsCrowd};
ghost use Rattle.lus_syntax.specs.Cuts.{Cuts};
ghost use Rattle.lus_syntax.specs.Faults.{IsSyntaxFault, IsOneTree, IsOnePlace, IsTreeOrPlace};
ghost use Rattle.lus_syntax.specs.Grammar.{Derives};

use crate::ast::Ast;
use crate::grammar::declarations::decls;
use crate::grammar::fault::{PartFault, SyntaxFault};
use crate::limits::MOST_BYTES;
use crate::token::Token;
use std::alloc::Global;

/// The tree that the tokens of a text derive, where the text has at most `MOST_BYTES` bytes and the
/// tokens aren't crowded. `Token` has the place among the tokens, from 0, of the first one with
/// which no program goes on, or the number of tokens where a program goes on behind all of them;
/// it comes exactly where they derive no tree. `Memory` comes for want of memory. The cost is
/// linear in the tokens and their bytes; the stack grows with the nesting, which `crowded` bounds.
pub fn parse(alloc: Global, text: &[u8], tokens: &[Token]) -> Result<Ast, SyntaxFault>
    requires short { length text.now ≤ MOST_BYTES }
    requires tokens { Cuts text.now 0 tokens.now (length text.now) }
    requires loose { (place : ℕ) → IsCrowd tokens.now place → ⊥ }
    // Only the tree that the grammar derives.
    ensures ok { IfOk result (λ ast. Derives text.now tokens.now ast) }
    // Refused only at the least place behind which no program goes on.
    ensures refused { IfErr result (λ fault. IsSyntaxFault text.now tokens.now fault) }
{
    match decls(alloc, text, tokens) {
        Ok((decls, _)) => Ok(Ast {
            decls,
            length: text.len() as u32,
        }),
        Err(PartFault::Stuck(left)) => Err(SyntaxFault::Token((tokens.len() - left) as u32)),
        Err(PartFault::Memory) => Err(SyntaxFault::Memory),
    }
}

/// Tokens derive one tree at most; they have one place of a fault at most, and none where they
/// derive a tree. Does nothing: its clauses are the law.
pub fn one_tree()
    ensures tree { (text : Seq ℕ) → IsOneTree text }
    ensures place { (text : Seq ℕ) → IsOnePlace text }
    ensures apart { (text : Seq ℕ) → IsTreeOrPlace text }
{}

#[cfg(test)]
mod tests;
