ghost use Rattle.std.specs.Prelude.{◌≡◌, ◌<◌, ◌≤◌, ◌*◌, [], Some, None, is_some, length, slice_get, slice_set, IfOk, OnOk};
ghost use Rattle.dep_paths.specs.Conditions.{operand_at};
ghost use Rattle.omcdc_tags.specs.Ports.{ArePlacesBelow, Grows, IsTable, index_of as index};
ghost use Rattle.omcdc_tags.specs.Tags.{IsPlace};

use crate::limits::{MOST_OPERANDS, MOST_PORTS};
use cov_base::{List, Memory};
use dep_paths::Condition;
use op_network::Network;
use std::alloc::Global;

/// The place of a port in a table that has `MOST_OPERANDS` places for each edge.
fn index_of(port: Condition) -> usize
    ensures { result ≡ index port }
{
    MOST_OPERANDS * port.edge.0 as usize + port.port as usize
}

/// What a table has for a port. In constant time.
pub(crate) fn place_of(table: &[Option<u32>], port: Condition) -> Option<u32>
    requires { index port < length table.now }
    ensures { slice_get table.now (index port) ≡ Some result }
{
    table[index_of(port)]
}

/// A table without places, for the edges of a network.
#[tactic(auto, using(crate::proofs::Tables::no_table))]
pub(crate) fn no_places(alloc: Global, net: &Network) -> Result<List<Option<u32>>, Memory>
    ensures { IfOk result (IsTable (length net.now.edges) []) }
{
    let mut table = List::new(alloc);
    for _place in 0..MOST_OPERANDS * net.parts().edges.len() {
        table.add(None)?;
    }
    Ok(table)
}

/// Notes the place of a port.
fn put_place(table: &mut List<Option<u32>>, index: usize, place: u32)
    requires { index < length table.old }
    ensures { table.new ≡ slice_set table.old index (Some place) }
{
    table.items_mut()[index] = Some(place);
}

/// How many ports there are.
#[tactic(auto, using(crate::proofs::Tables::few_ports))]
pub(crate) fn count(net: &Network, ports: &[Condition], table: &[Option<u32>]) -> u32
    requires { IsTable (length net.now.edges) ports.now table.now }
    ensures count { result ≡ length ports.now }
    ensures few { result ≤ MOST_PORTS }
{
    // what the network says of itself is known once it is read
    let _parts = net.parts();
    ports.len() as u32
}

/// Adds a port that has no place yet.
#[tactic(auto, using(crate::proofs::Tables::index_within, crate::proofs::Tables::table_more, crate::proofs::Tables::grows_by_one, crate::proofs::Tables::newest))]
fn add_new(
    net: &Network,
    port: Condition,
    ports: &mut List<Condition>,
    table: &mut List<Option<u32>>,
) -> Result<u32, Memory>
    requires edge { port.edge.0 < length net.now.edges }
    requires port { port.port < MOST_OPERANDS }
    requires table { IsTable (length net.now.edges) ports.old table.old }
    requires new { slice_get table.old (index port) ≡ Some None }
    ensures table { OnOk result (IsTable (length net.now.edges) ports.new table.new) }
    ensures grows { OnOk result (Grows ports.old ports.new) }
    ensures place { IfOk result (λ k. slice_get ports.new k ≡ Some port) }
{
    let place = count(net, ports.as_slice(), table.as_slice());
    ports.add(port)?;
    put_place(table, index_of(port), place);
    Ok(place)
}

/// The place of a port, which is added if it has none yet.
#[tactic(auto, using(crate::proofs::Tables::grows_not, crate::proofs::Tables::index_within, crate::proofs::Tables::placed_there))]
fn add_port(
    net: &Network,
    port: Condition,
    ports: &mut List<Condition>,
    table: &mut List<Option<u32>>,
) -> Result<u32, Memory>
    requires edge { port.edge.0 < length net.now.edges }
    requires port { port.port < MOST_OPERANDS }
    requires table { IsTable (length net.now.edges) ports.old table.old }
    ensures table { OnOk result (IsTable (length net.now.edges) ports.new table.new) }
    ensures grows { OnOk result (Grows ports.old ports.new) }
    ensures place { IfOk result (λ k. slice_get ports.new k ≡ Some port) }
{
    match place_of(table.as_slice(), port) {
        Some(place) => Ok(place),
        None => add_new(net, port, ports, table),
    }
}

/// Whether an edge has a port. In constant time.
#[tactic(auto, using(crate::proofs::Placing::has_operand, crate::proofs::Placing::lacks_operand, crate::proofs::Placing::lacks_edge))]
fn has_port(net: &Network, port: Condition) -> bool
    ensures { result ≡ is_some (operand_at net.now.edges port) }
{
    if port.edge.0 as usize >= net.parts().edges.len() {
        return false;
    }
    port.port < net.ports(port.edge)
}

/// The place of a condition, if an edge has that port.
#[tactic(auto, using(crate::proofs::Placing::port_within, crate::proofs::Placing::has_place, crate::proofs::Placing::has_no_place, crate::proofs::Tables::grows_not))]
fn add_condition(
    net: &Network,
    condition: Condition,
    ports: &mut List<Condition>,
    table: &mut List<Option<u32>>,
) -> Result<Option<u32>, Memory>
    requires table { IsTable (length net.now.edges) ports.old table.old }
    ensures table { OnOk result (IsTable (length net.now.edges) ports.new table.new) }
    ensures grows { OnOk result (Grows ports.old ports.new) }
    ensures place { IfOk result
        (IsPlace (operand_at net.now.edges condition) ports.new condition) }
{
    if !has_port(net, condition) {
        return Ok(None);
    }
    let place = add_port(net, condition, ports, table)?;
    Ok(Some(place))
}

/// The places of the conditions of a plan. A port that is met for the first time is added. Linear
/// in the number of conditions.
#[tactic(auto, using(crate::proofs::Placing::no_place_yet, crate::proofs::Placing::place_more))]
pub(crate) fn add_conditions(
    alloc: Global,
    net: &Network,
    conditions: &[Condition],
    ports: &mut List<Condition>,
    table: &mut List<Option<u32>>,
) -> Result<List<Option<u32>>, Memory>
    requires table { IsTable (length net.now.edges) ports.old table.old }
    ensures table { OnOk result (IsTable (length net.now.edges) ports.new table.new) }
    ensures places { let count = length conditions.now in
        IfOk result (ArePlacesBelow net.now.edges conditions.now count ports.new) }
{
    let mut places = List::new(alloc);
    for condition in conditions {
        places.add(add_condition(net, *condition, ports, table)?)?;
    }
    Ok(places)
}
