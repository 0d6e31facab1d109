//! A text of a tree, from which the tree is read again.

ghost use Rattle.std.specs.Prelude.{◌≡◌, ◌++◌, OnOk, OnErr};
ghost use Rattle.lus_syntax.specs.Grammar.{IsTreeOfGrammar};
ghost use Rattle.lus_syntax.specs.Printing.{Prints};
ghost use Rattle.lus_syntax.specs.Phrases as spec;
ghost use Rattle.lus_syntax.specs.Phrases.{Extends, line, program, written};

use crate::ast::{Ast, Decl};
use crate::printing::declarations::put_decl;
use cov_base::{List, Memory};

mod declarations;
mod expressions;
mod tokens;

/// Appends a text of a tree of the grammar: its tokens derive the tree again, but for places. Each
/// declaration, equation and assertion has a line of its own, and an operand stands in parentheses
/// only where it needs them. A line feed stands before the first token, unless `out` was empty or
/// ended in `(`, and one behind the last. Answers `Memory` for want of it, and `out` is then as
/// before. The cost is linear in the text, over many calls; the stack grows with the nesting.
pub fn print(ast: &Ast, out: &mut List<u8>) -> Result<(), Memory>
    requires tree { IsTreeOfGrammar ast.now }
    ensures printed { OnOk result (Prints ast.now out.old out.new) }
    ensures err { OnErr result (out.new ≡ out.old) }
{
    let before = out.len();
    let printed = put_program(ast, out);
    if printed.is_err() {
        out.cut(before);
    }
    printed
}

/// Appends the declarations and a line feed, or a part of them for want of memory.
fn put_program(ast: &Ast, out: &mut List<u8>) -> Result<(), Memory>
    ensures ok { OnOk result (out.new ≡ written out.old (program ast.now) ++ line) }
    ensures err { OnErr result (Extends out.old out.new) }
{
    put_decls(ast.decls.as_slice(), out)?;
    out.extend_from_slice(b"\n")
}

fn put_decls(decls: &[Decl], out: &mut List<u8>) -> Result<(), Memory>
    ensures ok { OnOk result (out.new ≡ written out.old (spec.decls decls.now)) }
    ensures err { OnErr result (Extends out.old out.new) }
{
    for decl in decls {
        put_decl(decl, out)?;
    }
    Ok(())
}

#[cfg(test)]
mod tests;
