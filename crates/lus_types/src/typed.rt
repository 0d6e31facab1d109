ghost use Rattle.std.specs.Prelude.{◌≡◌, ◌≤◌, true, not, length, IfSome, IfOk, IfErr};
ghost use Rattle.lus_syntax.specs.Grammar.{IsTreeOfGrammar};
ghost use Rattle.op_network.specs.declared.limits.TheConstants.{LEAST_WIDTH, MOST_WIDTH};
ghost use Rattle.lus_types.specs.Checking.{Answers, Recursions, kind_of, fault_at};
ghost use Rattle.lus_types.specs.Constants.{constant_types};
ghost use Rattle.lus_types.specs.Names as names;
ghost use Rattle.lus_types.specs.Names.{Name, entry_of, globals};
ghost use Rattle.lus_types.specs.NameTables.{AreGlobals};
ghost use Rattle.lus_types.specs.Programs.{constant_meant, constant_named, place_meant, program_of};
ghost use Rattle.lus_types.specs.Types as types;
ghost use Rattle.lus_types.specs.Values.{constant_values};
ghost use Rattle.lus_types.specs.Occurrences as thing;
ghost use Rattle.lus_types.specs.Typing.{IsAccepted, IsFineProgram, IsLastNode, IsMain, IsRefusal};
ghost use Rattle.lus_types.specs.Typing.{is_node_place};
ghost use Rattle.lus_types.specs.Kinds.{any_node, lacks_main};
ghost use Rattle.lus_types.specs.Views.{globals_seen, name_given};

use crate::calls::cycles::cycles_of;
use crate::constants::constants_of;
use crate::constants::values::{value_meant, values_of};
use crate::declarations::{Tables, check_decls};
use crate::fault::{TypeFault, TypeKind};
use crate::limits::MOST_DECLS;
use crate::names::globals::globals_of;
use crate::names::table::NameTable;
use crate::nodes::header::{meaning_in, type_named};
use crate::nodes::signatures::signatures_of;
use crate::types::{Constant, Meaning};
use cov_base::List;
use lus_syntax::{Ast, Decl};
use op_network::{LEAST_WIDTH, MOST_WIDTH, Ty, Value};
use std::alloc::Global;

/// A program of the grammar in which no occurrence fails, with its main node and what its names
/// mean.
#[derive(Drop)]
pub struct Typed {
    ast: Ast,
    width: u32,
    main: u32,
    globals: NameTable<Meaning>,
    constants: List<Option<Ty>>,
    values: List<Value>,
    ghost narrowest: { LEAST_WIDTH ≤ width },
    ghost widest: { width ≤ MOST_WIDTH },
    ghost tree: { ∥ IsTreeOfGrammar ast ∥₁ },
    ghost fine: { IsFineProgram ast width },
    ghost is_main: { is_node_place ast.decls main ≡ true },
    ghost names: { (x : Name) → entry_of globals x ≡ names.globals ast.decls x },
    ghost types: { constants ≡ constant_types width ast.decls },
    ghost their_values: { values ≡ constant_values width ast.decls },
}

impl Typed {
    /// The tree of the program. Constant time.
    pub fn ast(&self) -> &Ast
        ensures { result.now ≡ self.now.ast }
    {
        &self.ast
    }

    /// The width of words, in bits, of 2 to 32. Constant time.
    pub fn width(&self) -> u32
        ensures { result ≡ self.now.width }
    {
        self.width
    }

    /// The place of the main node among the declarations, from 0. Constant time.
    pub fn main(&self) -> u32
        ensures { result ≡ self.now.main }
    {
        self.main
    }

    /// The type that a word names, if it names one: `bool`, `int` or a declared type. The cost is
    /// linear in the word.
    pub fn type_named(&self, word: &[u8]) -> Option<Ty>
        ensures { result ≡ types.type_named (names.globals self.now.ast.decls) word.now }
    {
        type_named(&self.globals, word)
    }

    /// The place of the node that a name means, if it means one. The cost is linear in the name.
    pub fn node_named(&self, name: &[u8]) -> Option<u32>
        ensures { result ≡ place_meant (names.globals self.now.ast.decls name.now) }
    {
        node_named(&self.globals, name)
    }

    /// The constant or enumerator that a name means, if it means one. A variable of a node hides
    /// it. The cost is linear in the name.
    pub fn constant_named(&self, name: &[u8]) -> Option<Constant>
        ensures { result ≡ constant_named (program_of self.now.ast.decls self.now.width) name.now }
    {
        let meaning = meaning_in(&self.globals, name);
        let ty = constant_type(self.constants.as_slice(), meaning)?;
        let value = value_meant(self.values.as_slice(), meaning);
        Some(Constant { ty, value })
    }
}

/// The type of the constant or enumerator that a name means.
fn constant_type(constants: &[Option<Ty>], meaning: Option<Meaning>) -> Option<Ty>
    ensures { result ≡ constant_meant constants.now meaning }
{
    match meaning {
        Some(Meaning::Enumerator(ty, _)) => Some(Ty::Choice(ty)),
        Some(Meaning::Constant(place)) => match constants.get(place as usize) {
            Some(ty) => *ty,
            None => None,
        },
        Some(Meaning::Enumeration(_)) => None,
        Some(Meaning::Node(_)) => None,
        None => None,
    }
}

/// The place of the last node, if there is one.
#[tactic(auto, using(crate::proofs::Main::still_last, crate::proofs::Main::now_last, crate::proofs::Main::last_found, crate::proofs::Main::last_lacks))]
fn last_node(decls: &[Decl]) -> Option<u32>
    requires { length decls.now ≤ MOST_DECLS }
    ensures found { IfSome result (IsLastNode decls.now) }
    ensures lacks { not (any_node decls.now) ≡ thing.is_missing result }
{
    let mut last = None;
    for (place, decl) in decls.iter().enumerate() {
        if is_node(decl) {
            last = Some(place as u32);
        }
    }
    last
}

/// Whether a declaration is that of a node.
fn is_node(decl: &Decl) -> bool
    ensures { result ≡ thing.is_node_decl decl.now }
{
    match decl {
        Decl::NodeDecl { .. } => true,
        Decl::TypeDecl { .. } => false,
        Decl::ConstDecl { .. } => false,
    }
}

/// The main node: the one of this name, or the last.
#[tactic(auto, using(crate::proofs::Main::named_lacks, crate::proofs::Main::named_node))]
fn main_node(names: &NameTable<Meaning>, decls: &[Decl], main: Option<&str>) -> Option<u32>
    requires few { length decls.now ≤ MOST_DECLS }
    requires same { globals_seen names.now ≡ globals decls.now }
    ensures found { IfSome result (λ place. IsMain decls.now (name_given main.entry) place) }
    ensures lacks { lacks_main decls.now (name_given main.entry) ≡ thing.is_missing result }
{
    match main {
        None => last_node(decls),
        Some(name) => node_named(names, name.as_bytes()),
    }
}

/// The main node of a program, which is to be there.
fn check_main(names: &NameTable<Meaning>, ast: &Ast, main: Option<&str>) -> Result<u32, TypeFault>
    requires few { length ast.now.decls ≤ MOST_DECLS }
    requires same { globals_seen names.now ≡ globals ast.now.decls }
    ensures { (r : Recursions) → Answers
        (fault_at ast.now.length
        (kind_of r (thing.TextEnd ast.now.decls (name_given main.entry)))) result
        (λ place. IsMain ast.now.decls (name_given main.entry) place) }
{
    match main_node(names, ast.decls.as_slice(), main) {
        Some(place) => Ok(place),
        None => Err(TypeFault::Bad {
            kind: TypeKind::NoMain,
            at: ast.length,
        }),
    }
}

/// The node that a name means, if it means one.
fn node_named(names: &NameTable<Meaning>, name: &[u8]) -> Option<u32>
    ensures { result ≡ thing.node_meant (globals_seen names.now name.now) }
{
    match meaning_in(names, name) {
        Some(Meaning::Node(place)) => Some(place),
        Some(Meaning::Enumeration(_)) => None,
        Some(Meaning::Constant(_)) => None,
        Some(Meaning::Enumerator(_, _)) => None,
        None => None,
    }
}

/// What the walk over a program found: what its names mean, the types of its constants, and the
/// place of its main node.
#[derive(Drop)]
struct Checked {
    globals: NameTable<Meaning>,
    constants: List<Option<Ty>>,
    main: u32,
}

/// The walk over a program.
fn check_program(
    alloc: Global,
    ast: &Ast,
    width: u32,
    main: Option<&str>,
) -> Result<Checked, TypeFault>
    requires narrowest { LEAST_WIDTH ≤ width }
    requires widest { width ≤ MOST_WIDTH }
    requires few { length ast.now.decls ≤ MOST_DECLS }
    ensures accepted { IfOk result (λ it.
        IsAccepted ast.now width (name_given main.entry) it.main) }
    ensures names { IfOk result (λ it. AreGlobals it.globals ast.now.decls) }
    ensures types { IfOk result (λ it. it.constants ≡ constant_types width ast.now.decls) }
    ensures refused { IfErr result (IsRefusal ast.now width (name_given main.entry)) }
{
    let decls = ast.decls.as_slice();
    let globals = globals_of(alloc, decls)?;
    let signatures = signatures_of(alloc, &globals, decls)?;
    let constants = constants_of(alloc, width, &globals, signatures.as_slice(), decls)?;
    let cycles = cycles_of(alloc, &globals, decls)?;
    let tables = Tables {
        width,
        globals: &globals,
        signatures: signatures.as_slice(),
        constants: constants.as_slice(),
        cycles: cycles.as_slice(),
    };
    check_decls(alloc, &tables, decls)?;
    let place = check_main(&globals, ast, main)?;
    Ok(Checked {
        globals,
        constants,
        main: place,
    })
}

/// Checks the types of a program over words of a width, of 2 to 32 bits. The main node is the one
/// of the name `main`, or the last of the text where no name is given.
///
/// `Bad` comes exactly where some occurrence fails: it is the first failing occurrence in the order
/// of the walk, with its first kind. `Memory` comes at any time for want of memory. On a refusal
/// the tree is dropped. The cost is linear in the tree where no node reaches itself by calls; else
/// each node on a cycle of calls or between two takes a linear search more.
pub fn type_check(
    alloc: Global,
    ast: Ast,
    width: u32,
    main: Option<&str>,
) -> Result<Typed, TypeFault>
    requires narrowest { LEAST_WIDTH ≤ width }
    requires widest { width ≤ MOST_WIDTH }
    requires tree { IsTreeOfGrammar ast }
    requires few { length ast.decls ≤ MOST_DECLS }
    ensures tree { IfOk result (λ typed. typed.ast ≡ ast) }
    ensures at_width { IfOk result (λ typed. typed.width ≡ width) }
    ensures accepted { IfOk result (λ it. IsAccepted ast width (name_given main.entry) it.main) }
    ensures refused { IfErr result (IsRefusal ast width (name_given main.entry)) }
{
    let checked = check_program(alloc, &ast, width, main)?;
    let values = values_of(alloc, width, &checked.globals, ast.decls.as_slice())?;
    let Checked {
        globals,
        constants,
        main: place,
    } = checked;
    Ok(Typed {
        ast,
        width,
        main: place,
        globals,
        constants,
        values,
    })
}

#[cfg(test)]
mod tests;
