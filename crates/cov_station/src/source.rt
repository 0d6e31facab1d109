ghost use Rattle.std.specs.Prelude.{◌≡◌, ◌≤◌, ℕ, length, IfOk};
ghost use Rattle.cov_base.specs.Files.{NeverFall};
ghost use Rattle.lus_syntax.specs.Crowding.{IsCrowd};
ghost use Rattle.lus_syntax.specs.Cuts.{Cuts};
ghost use Rattle.lus_syntax.specs.Grammar.{IsTreeOfGrammar};
ghost use Rattle.lus_types.specs.Views.{name_given};
ghost use Rattle.cov_station.specs.Files.{Counted};
ghost use Rattle.cov_station.specs.Sources.{Compiles, Expands, HasTypes, IsCausal, IsUncrowded, Lexes, Parses, ReadsSource, Source, byte_of, name_of, net};
ghost use Rattle.cov_station.specs.Steps.{Does, Same};
ghost use Rattle.cov_station.specs.Views.{IsExpansionOf, IsNetworkOf, IsTyped, cycle_refusal, source_in};

use crate::files::read_file;
use crate::refusal::{Quantity, Refusal};
use cov_base::{List, Memory, Store, Text};
use lus_causality::{OrderCause, OrderFault, Ordered, order};
use lus_syntax::{
    Ast, LexFault, MOST_BYTES, MOST_COUNTED, SyntaxFault, Token, crowded, lex, parse,
};
use lus_types::{MOST_DECLS, TypeFault, Typed, type_check};
use node_expand::{
    ExpandFault, MOST_DEPTH, expand, expansion_keeps_streams, main_has_its_streams,
    network_has_main_ports,
};
use op_network::{Edge, EdgeId, LEAST_WIDTH, MOST_EDGES, MOST_WIDTH, Network};
use std::alloc::Global;

/// Cuts a text into tokens.
fn tokens_of(alloc: Global, text: &[u8]) -> Result<List<Token>, Refusal>
    requires { length text.now ≤ MOST_BYTES }
    ensures tokens { Does (Lexes text.now) Same result }
    ensures count { IfOk result (λ tokens. length tokens ≤ length text.now) }
{
    match lex(alloc, text) {
        Ok(tokens) => Ok(tokens),
        Err(LexFault::BadByte(at)) => Err(Refusal::BadByte(at)),
        Err(LexFault::OpenComment(at)) => Err(Refusal::OpenComment(at)),
        Err(LexFault::WideLiteral(at)) => Err(Refusal::WideLiteral(at)),
        Err(LexFault::Memory) => Err(Refusal::Memory),
    }
}

/// Refuses tokens that are crowded.
fn check_crowd(tokens: &[Token]) -> Result<(), Refusal>
    requires { length tokens.now ≤ MOST_BYTES }
    ensures { Does (IsUncrowded tokens.now) Same result }
{
    match crowded(tokens) {
        Some(_) => Err(Refusal::OverLimit(Quantity::Operators, MOST_COUNTED)),
        None => Ok(()),
    }
}

/// The byte where a token starts, or the text's length where there is no such token.
fn byte_of(text: &[u8], tokens: &[Token], place: u32) -> u32
    requires { length text.now ≤ MOST_BYTES }
    ensures { result ≡ byte_of text.now tokens.now place }
{
    match tokens.get(place as usize) {
        Some(token) => token.start,
        None => text.len() as u32,
    }
}

/// The tree that tokens derive.
fn tree_of(alloc: Global, text: &[u8], tokens: &[Token]) -> Result<Ast, Refusal>
    requires short { length text.now ≤ MOST_BYTES }
    requires tokens { Cuts text.now 0 tokens.now (length text.now) }
    requires loose { (place : ℕ) → IsCrowd tokens.now place → ⊥ }
    ensures { Does (Parses text.now tokens.now) Same result }
{
    match parse(alloc, text, tokens) {
        Ok(tree) => Ok(tree),
        Err(SyntaxFault::Token(place)) => Err(Refusal::Syntax(byte_of(text, tokens, place))),
        Err(SyntaxFault::Memory) => Err(Refusal::Memory),
    }
}

/// The typed program of a tree over words of a width, with its main node.
fn typed_of(alloc: Global, tree: Ast, width: u32, main: Option<&str>) -> Result<Typed, Refusal>
    requires narrowest { LEAST_WIDTH ≤ width }
    requires widest { width ≤ MOST_WIDTH }
    requires tree { IsTreeOfGrammar tree }
    requires few { length tree.decls ≤ MOST_DECLS }
    ensures { Does (HasTypes tree width (name_given main.entry)) IsTyped result }
{
    match type_check(alloc, tree, width, main) {
        Ok(typed) => Ok(typed),
        Err(TypeFault::Bad { kind, at }) => Err(Refusal::Typing(kind, at)),
        Err(TypeFault::Memory) => Err(Refusal::Memory),
    }
}

/// The network of a typed program, with the laws of its streams.
fn network_of(alloc: Global, typed: &Typed) -> Result<Network, Refusal>
    ensures { Does (Expands (source_in typed.now))
        (λ done parts. IsExpansionOf (source_in typed.now) parts) result }
{
    expansion_keeps_streams(typed);
    main_has_its_streams(typed);
    network_has_main_ports(typed);
    match expand(alloc, typed) {
        Ok(network) => {
            // what the network says of itself is known once it is read
            let _ = network.parts();
            Ok(network)
        }
        Err(ExpandFault::Depth) => Err(Refusal::OverLimit(Quantity::Calls, MOST_DEPTH)),
        Err(ExpandFault::Edges) => Err(Refusal::OverLimit(Quantity::Edges, MOST_EDGES as u32)),
        Err(ExpandFault::Memory) => Err(Refusal::Memory),
    }
}

/// The name of an edge.
fn name_of(edges: &[Edge], e: EdgeId) -> &[u8]
    ensures { result.now ≡ name_of edges.now e }
{
    match edges.get(e.0 as usize) {
        Some(edge) => edge.name.bytes(),
        None => &[],
    }
}

/// The refusal of a network that has no order.
fn refusal_of(alloc: Global, fault: &OrderFault) -> Result<Refusal, Memory>
    ensures { IfOk result (λ why. why ≡ cycle_refusal fault.now.network.edges fault.now.cause) }
{
    match fault.cause {
        OrderCause::Cycle(e) => {
            let edges = fault.network.parts().edges.as_slice();
            let name = Text::from_bytes(alloc, name_of(edges, e))?;
            Ok(Refusal::Cycle(name))
        }
        OrderCause::Memory => Err(Memory),
    }
}

/// The order of the edges of a source's network.
fn ordered_of(alloc: Global, network: Network) -> Result<Ordered, Refusal>
    ensures { (source : Source) → IsExpansionOf source network →
        Does (IsCausal source) IsNetworkOf result }
{
    match order(alloc, network) {
        Ok(ordered) => Ok(ordered),
        Err(fault) => Err(refusal_of(alloc, &fault)?),
    }
}

/// The network of the program that a text is, with an order of its edges.
fn compile(alloc: Global, text: &[u8], width: u32, main: Option<&str>) -> Result<Ordered, Refusal>
    requires short { length text.now ≤ MOST_BYTES }
    requires narrowest { LEAST_WIDTH ≤ width }
    requires widest { width ≤ MOST_WIDTH }
    ensures { Does (Compiles text.now width (name_given main.entry)) IsNetworkOf result }
{
    let tokens = tokens_of(alloc, text)?;
    check_crowd(tokens.as_slice())?;
    let tree = tree_of(alloc, text, tokens.as_slice())?;
    let typed = typed_of(alloc, tree, width, main)?;
    let network = network_of(alloc, &typed)?;
    ordered_of(alloc, network)
}

/// Reads a source: the network of its program, with an order of its edges.
pub(crate) fn read_source<S: Store>(
    alloc: Global,
    store: &mut S,
    name: &str,
    width: u32,
    main: Option<&str>,
) -> Result<Ordered, Refusal>
    requires narrowest { LEAST_WIDTH ≤ width }
    requires widest { width ≤ MOST_WIDTH }
    ensures answer { Does
        (ReadsSource (S.files store.old) name.now width (name_given main.entry))
        IsNetworkOf result }
    ensures counts { Counted result (S.counts store.old) (S.counts store.new) }
    ensures never_fall { NeverFall (S.counts store.old) (S.counts store.new) }
    ensures files { S.files store.new ≡ S.files store.old }
{
    let text = read_file(alloc, store, name, MOST_BYTES as u32)?;
    compile(alloc, text.as_slice(), width, main)
}
