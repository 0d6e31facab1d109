ghost use Rattle.lus_syntax.specs.Grammar.{IsTreeOfGrammar};
ghost use Rattle.lus_types.specs.Facts.{EachLiteralIsInRange, HasChoices, HasConstants, HasIdentifiers};
ghost use Rattle.lus_types.specs.Facts.{HasOutputs, HasTypesOfGroups, HasTypesOfVariables, HasWidth};
ghost use Rattle.lus_types.specs.Programs.{program_of};
ghost use Rattle.lus_types.specs.ProgramTypes.{HasNodes, HasValues, IsTypedProgram};
ghost use Rattle.lus_types.specs.Typing.{HasOneFault, IsFineProgram, IsNeverBoth};
ghost use Rattle.lus_types.specs.Views.{name_given};

use crate::typed::Typed;
use lus_syntax::Ast;
use op_network::one_word;

/// A program has at most one first fault, and none where it is well typed. Does nothing: its
/// clauses are the law.
pub fn one_fault(ast: &Ast, width: u32, main: Option<&str>)
    ensures one { HasOneFault ast.now width (name_given main.entry) }
    ensures not_both { IsNeverBoth ast.now width (name_given main.entry) }
{}

/// What is known of a typed program. Its tree is one of the grammar, no occurrence of it fails, and
/// the width is 2 to 32.
///
/// Each name has a type, each operator and each called node has operands of the types that it asks
/// for, each output and each local has exactly one equation, and no node reaches itself by calls.
/// Each node is the one that its name means, the main node among them, and has an output. Each
/// literal is in the range of the width. Each constant and each enumerator has a type and a value
/// of it. The word of each group of variables names a type, one of the program's; each of those has
/// 1 to 256 enumerators, which differ. The names of types, enumerators, nodes and variables are
/// identifiers.
///
/// Does nothing: its clauses are the law.
pub fn typed_program(typed: &Typed)
    ensures tree { ∥ IsTreeOfGrammar typed.now.ast ∥₁ }
    ensures fine { IsFineProgram typed.now.ast typed.now.width }
    ensures width { HasWidth (program_of typed.now.ast.decls typed.now.width) }
    ensures program { IsTypedProgram (program_of typed.now.ast.decls typed.now.width) }
    ensures nodes { HasNodes typed.now.ast.decls typed.now.width typed.now.main }
    ensures outputs { HasOutputs (program_of typed.now.ast.decls typed.now.width) }
    ensures literals { EachLiteralIsInRange typed.now.ast typed.now.width }
    ensures constants { HasConstants typed.now.ast.decls typed.now.width }
    ensures values { HasValues (program_of typed.now.ast.decls typed.now.width) }
    ensures groups { HasTypesOfGroups typed.now.ast.decls }
    ensures types { HasTypesOfVariables (program_of typed.now.ast.decls typed.now.width) }
    ensures choices { HasChoices (program_of typed.now.ast.decls typed.now.width) }
    ensures identifiers { HasIdentifiers (program_of typed.now.ast.decls typed.now.width) }
{
    one_word();
}
