ghost use Rattle.std.specs.Prelude.{◌≡◌, ◌≤◌, ◌<◌, ◌+◌, ◌^◌, ◌++◌, ◌∷◌, [], Err, None, Some, length, map, min, OnOk, IfOk};
ghost use Rattle.lus_types.specs.Names.{globals, spot_names};
ghost use Rattle.node_expand.specs.declared.fault.ExpandFault.TheVariants.{Depth, Edges};
ghost use Rattle.node_expand.specs.Expanding as spec;
ghost use Rattle.node_expand.specs.Headers as heads;
ghost use Rattle.node_expand.specs.Instances.{places_from};
ghost use Rattle.node_expand.specs.Known as known;
ghost use Rattle.node_expand.specs.Law.{IsShallow, main_name, program_in};
ghost use Rattle.node_expand.specs.Network.{input_edges, network};
ghost use Rattle.node_expand.specs.Outlines as look;
ghost use Rattle.node_expand.specs.Small.{AreSmall};
ghost use Rattle.node_expand.specs.Variables.{variable_seen};

use crate::draft::Draft;
use crate::fault::ExpandFault;
use crate::header::{Header, Variable};
use crate::instances::make_instance;
use crate::limits::{MANY, MOST_DEPTH};
use crate::making::results_at;
use crate::measures::{Measure, measure_at, measures_of};
use crate::nodes::{headers_of, items_of};
use crate::outlines::{Outline, outlines_of};
use crate::roots::results_of;
use crate::tables::Tables;
use cov_base::{List, Memory, Text};
use lus_syntax::{Decl, Spot};
use lus_types::{Typed, typed_program};
use op_network::{Choice, Edge, EdgeId, MOST_EDGES, Network, Op, Parts, one_word};
use sqlite_items::at;
use std::alloc::Global;

/// The edges of the results of all nodes, by the places of the declarations.
fn all_results(
    alloc: Global,
    typed: &Typed,
    headers: &[Header],
    outlines: &[List<Outline>],
    sizes: &[Measure],
) -> Result<List<List<u32>>, Memory>
    requires heads { heads.heads_seen headers.now ≡ heads.heads (globals typed.now.ast.decls)
        typed.now.ast.decls }
    requires outlines { outlines.now ≡ look.all_outlines (program_in typed.now)
        (globals typed.now.ast.decls) typed.now.ast.decls }
    ensures results { IfOk result (λ all. all ≡ known.all_results (program_in typed.now)
        (globals typed.now.ast.decls) sizes.now typed.now.ast.decls) }
    ensures small { IfOk result AreSmall }
{
    let decls = typed.ast().decls.as_slice();
    let mut all = List::new(alloc);
    for place in 0..decls.len() {
        let outputs = headers[place].outputs.as_slice();
        let items = items_of(&decls[place]);
        let results = results_of(alloc, sizes, outputs, items, outlines[place].as_slice())?;
        all.add(results)?;
    }
    Ok(all)
}

/// The name of a node. A declaration of another kind has none here.
fn node_name(decl: &Decl) -> &[u8]
    ensures { result.now ≡ spec.node_name decl.now }
{
    match decl {
        Decl::NodeDecl { name, .. } => name.text.bytes(),
        Decl::TypeDecl { .. } => &[],
        Decl::ConstDecl { .. } => &[],
    }
}

/// The name of the main node.
fn name_of_main(typed: &Typed) -> &[u8]
    ensures { result.now ≡ main_name typed.now }
{
    match at(typed.ast().decls.as_slice(), typed.main() as usize) {
        None => &[],
        Some(decl) => node_name(decl),
    }
}

/// The inputs of the node at a place.
fn inputs_at<'a>(headers: &'a [Header], callee: Option<u32>) -> &'a [Variable]
    ensures { result.now ≡ spec.inputs_at headers.now callee }
{
    match callee {
        None => &[],
        Some(place) => match at(headers, place as usize) {
            None => &[],
            Some(header) => header.inputs.as_slice(),
        },
    }
}

/// The names of enumerators.
fn enumerators(alloc: Global, spots: &[Spot]) -> Result<List<Text>, Memory>
    ensures { IfOk result (λ names. names ≡ spot_names spots.now) }
{
    let mut names = List::new(alloc);
    for spot in spots {
        let name = spot.text.copy(alloc)?;
        names.add(name)?;
    }
    Ok(names)
}

/// Adds the enumerated type of a declaration, if it declares one.
fn add_choice(alloc: Global, decl: &Decl, choices: &mut List<Choice>) -> Result<(), Memory>
    ensures { OnOk result (choices.new ≡ choices.old ++ spec.choices_of_decl decl.now) }
{
    match decl {
        Decl::TypeDecl {
            name,
            choices: names,
            ..
        } => {
            let name = name.text.copy(alloc)?;
            let names = enumerators(alloc, names.as_slice())?;
            choices.add(Choice { name, names })
        }
        Decl::ConstDecl { .. } => Ok(()),
        Decl::NodeDecl { .. } => Ok(()),
    }
}

/// The enumerated types of a program, in the order of the text.
fn choices_of(alloc: Global, decls: &[Decl]) -> Result<List<Choice>, Memory>
    ensures { IfOk result (λ choices. choices ≡ spec.choices_of decls.now) }
{
    let mut choices = List::new(alloc);
    for decl in decls {
        add_choice(alloc, decl, &mut choices)?;
    }
    Ok(choices)
}

/// Adds the edges of main's inputs.
fn add_inputs(alloc: Global, inputs: &[Variable], edges: &mut List<Edge>) -> Result<(), Memory>
    requires { length inputs.now ≤ MOST_EDGES }
    ensures { OnOk result (edges.new ≡ edges.old ++ input_edges 0 (map variable_seen inputs.now)) }
{
    for i in 0..inputs.len() {
        add_input(alloc, i as u32, &inputs[i], edges)?;
    }
    Ok(())
}

/// Adds the edge of an input.
fn add_input(alloc: Global, i: u32, input: &Variable, edges: &mut List<Edge>) -> Result<(), Memory>
    ensures { OnOk result (edges.new ≡ edges.old ++ spec.input_edge i input.now ∷ []) }
{
    let name = input.name.copy(alloc)?;
    edges.add(Edge {
        op: Op::Input(i),
        ty: input.ty,
        name,
        named: true,
        asserted: false,
    })
}

/// The edges of main's inputs, which are the first.
fn first_places(alloc: Global, inputs: &[Variable]) -> Result<List<u32>, Memory>
    requires { length inputs.now ≤ MOST_EDGES }
    ensures { IfOk result (λ places. places ≡ places_from 0 inputs.now) }
{
    let mut places = List::new(alloc);
    for i in 0..inputs.len() {
        places.add(i as u32)?;
    }
    Ok(places)
}

/// Edges, each behind so many others.
fn ids_of(alloc: Global, places: &[u32], start: u32) -> Result<List<EdgeId>, Memory>
    requires start { start ≤ MOST_EDGES }
    requires small { spec.AllSmall places.now }
    ensures { IfOk result (λ ids. ids ≡ map (spec.edge_behind start) places.now) }
{
    let mut ids = List::new(alloc);
    for place in places {
        ids.add(EdgeId(start + *place))?;
    }
    Ok(ids)
}

/// Whether the network of a node as main, of this measure and so many inputs, has few enough edges,
/// and calls that aren't nested too deep.
fn check_size(size: Measure, inputs: usize) -> Result<(), ExpandFault>
    ensures deep { result ≡ Err Depth → size ≡ None }
    ensures many { result ≡ Err Edges → spec.IsLarge size inputs }
    ensures ok { OnOk result (spec.IsSmall size inputs) }
{
    match size {
        None => Err(ExpandFault::Depth),
        Some(size) => {
            if size as usize + inputs.min(MANY as usize) > MOST_EDGES {
                return Err(ExpandFault::Edges);
            }
            Ok(())
        }
    }
}

/// What is known of a program before edges are made, where calls may be nested so deep.
fn tables_of(alloc: Global, typed: &Typed, depth: u32) -> Result<Tables, ExpandFault>
    ensures ready { IfOk result (spec.IsReady typed.now) }
    ensures depth { IfOk result (λ tables. tables.depth ≡ depth) }
    ensures deep { result ≡ Err Depth → spec.IsTooDeep typed.now depth }
    ensures large { result ≡ Err Edges → spec.IsTooLarge typed.now depth }
{
    typed_program(typed);
    let headers = headers_of(alloc, typed)?;
    let outlines = outlines_of(alloc, typed, headers.as_slice())?;
    let sizes = measures_of(alloc, outlines.as_slice(), depth)?;
    let main = typed.node_named(name_of_main(typed));
    let inputs = inputs_at(headers.as_slice(), main);
    check_size(measure_at(sizes.as_slice(), main), inputs.len())?;
    let results = all_results(
        alloc,
        typed,
        headers.as_slice(),
        outlines.as_slice(),
        sizes.as_slice(),
    )?;
    Ok(Tables {
        depth,
        headers,
        outlines,
        sizes,
        results,
    })
}

/// The parts of the network of a program.
fn parts_of(alloc: Global, typed: &Typed, tables: &Tables) -> Result<Parts, Memory>
    requires ready { spec.IsReady typed.now tables.now }
    ensures { IfOk result (spec.IsNetwork typed.now tables.now.depth) }
{
    typed_program(typed);
    let name = name_of_main(typed);
    let main = typed.node_named(name);
    let inputs = inputs_at(tables.headers.as_slice(), main);
    let args = first_places(alloc, inputs)?;
    let mut draft = Draft {
        edges: List::new(alloc),
        asserts: List::new(alloc),
    };
    add_inputs(alloc, inputs, &mut draft.edges)?;
    make_instance(
        alloc,
        typed,
        tables,
        tables.depth,
        name,
        args.as_slice(),
        &[],
        false,
        &mut draft,
    )?;
    let Draft { edges, asserts } = draft;
    let results = results_at(tables, main);
    Ok(Parts {
        width: typed.width(),
        choices: choices_of(alloc, typed.ast().decls.as_slice())?,
        edges,
        inputs: ids_of(alloc, args.as_slice(), 0)?,
        outputs: ids_of(alloc, results, inputs.len() as u32)?,
        asserts,
    })
}

/// The network of a program, its calls expanded.
///
/// `Depth` comes exactly where calls are nested more than `MOST_DEPTH` deep, the main node counted
/// as 1; `Edges` exactly where they aren't, and the network has more than `op_network::MOST_EDGES`
/// edges. `Memory` comes at any time for want of memory. The cost is linear in the text, in the
/// items and calls of the text times `MOST_DEPTH`, and in the edges, their names, and the right
/// sides of the instances: no edge is made of a network that is refused.
pub fn expand(alloc: Global, typed: &Typed) -> Result<Network, ExpandFault>
    ensures network { IfOk result (λ net.
        net ≡ network (program_in typed.now) (main_name typed.now)) }
    ensures nested { IfOk result (λ net. IsShallow typed.now) }
    ensures deep { result ≡ Err Depth → IsShallow typed.now → ⊥ }
    ensures shallow { result ≡ Err Edges → IsShallow typed.now }
    ensures many { result ≡ Err Edges
        → MOST_EDGES < length (network (program_in typed.now) (main_name typed.now)).edges }
{
    typed_program(typed);
    one_word();
    let tables = tables_of(alloc, typed, MOST_DEPTH)?;
    let parts = parts_of(alloc, typed, &tables)?;
    Ok(Network::build(parts))
}

#[cfg(test)]
mod tests;
