ghost use Rattle.std.specs.Prelude.{◌≡◌, ◌<◌, ◌*◌, ◌+◌, ◌^◌, ◌↔◌, ℕ, Some, length, slice_get, IsTrue};
ghost use Rattle.op_network.specs.Operators.{operands_of};
ghost use Rattle.dep_paths.specs.Observed.{is_pre_edge};
ghost use Rattle.omcdc_tags.specs.Order.{IsInOrder};
ghost use Rattle.omcdc_tags.specs.Ports.{index_of as index};
ghost use Rattle.omcdc_tags.specs.Rows.{Adds, BitComes, ComesIn, FillsRows, HaveSize, IsOpen, PutsRow, RowComes, StartsBit, kind_of as kind};

use crate::ports::place_of;
use crate::rows::{add_bit, add_row, put_row};
use cov_base::{BitRow, List};
use dep_paths::Condition;
use lus_causality::Ordered;
use op_network::{EdgeId, Form, Network, Value, is_unmasked};

/// Whether a port is unmasked at instant `t`, which has this frame. In constant time.
fn is_open(net: &Network, frame: &[Value], t: u32, port: Condition) -> bool
    requires { port.edge.0 < length net.now.edges }
    ensures { IsTrue result ↔ IsOpen net.now.edges frame.now t port }
{
    let edges = net.parts().edges.as_slice();
    is_unmasked(edges[port.edge.0 as usize].op, port.port, frame, t)
}

/// Adds what starts at a port: where it has a place, the value that its operand has.
#[tactic(auto, using(crate::proofs::Adding::no_place, crate::proofs::Adding::two_bits))]
fn add_starts(table: &[Option<u32>], starts: &BitRow, port: Condition, work: &mut BitRow)
    requires table { index port < length table.now }
    requires places { (j k : ℕ) → slice_get table.now j ≡ Some (Some k) →
        2 * k + 1 < length starts.now }
    requires few { length starts.now < 2 ^ 32 }
    requires work { length work.old ≡ length starts.now }
    ensures { Adds work.old work.new (StartsBit table.now starts.now port) }
{
    if let Some(place) = place_of(table, port) {
        add_bit(work, starts, 2 * place);
        add_bit(work, starts, 2 * place + 1);
    }
}

/// Adds what comes through a port of an edge at an instant with this frame.
#[tactic(auto, using(crate::proofs::Adding::masked, crate::proofs::Adding::unmasked_port))]
fn add_port(
    net: &Network,
    table: &[Option<u32>],
    frame: &[Value],
    t: u32,
    rows: &[BitRow],
    starts: &BitRow,
    port: Condition,
    work: &mut BitRow,
)
    requires edge { port.edge.0 < length net.now.edges }
    requires port { port.port < length (operands_of net.now.edges port.edge) }
    requires size { HaveSize (length net.now.edges) table.now rows.now starts.now work.old }
    ensures { Adds work.old work.new
        (BitComes net.now.edges table.now frame.now t rows.now starts.now port) }
{
    if !is_open(net, frame, t, port) {
        return;
    }
    let operand = net.operand(port.edge, port.port);
    add_row(work, &rows[operand.0 as usize]);
    add_starts(table, starts, port, work);
}

/// Adds what comes to an edge through its ports at an instant with this frame.
#[tactic(auto, using(crate::proofs::Adding::no_ports, crate::proofs::Adding::next_port, crate::proofs::Adding::ports_end))]
fn add_edge(
    net: &Network,
    table: &[Option<u32>],
    frame: &[Value],
    t: u32,
    rows: &[BitRow],
    starts: &BitRow,
    edge: EdgeId,
    work: &mut BitRow,
)
    requires edge { edge.0 < length net.now.edges }
    requires size { HaveSize (length net.now.edges) table.now rows.now starts.now work.old }
    ensures { Adds work.old work.new
        (ComesIn net.now.edges table.now frame.now t rows.now starts.now edge) }
{
    for port in 0..net.ports(edge) {
        let port = Condition { edge, port };
        add_port(net, table, frame, t, rows, starts, port, work);
    }
}

/// Whether an instant is the first, as 0, or a later one, as 1.
fn kind_of(begun: bool) -> u32
    ensures { result ≡ kind begun }
{
    u32::from(begun)
}

/// Whether an edge is a `Pre`. In constant time.
fn is_delay(net: &Network, e: EdgeId) -> bool
    requires { e.0 < length net.now.edges }
    ensures { result ≡ is_pre_edge net.now.edges e }
{
    let edges = net.parts().edges.as_slice();
    matches!(edges[e.0 as usize].op.form(), Form::Pre(_))
}

/// Adds what comes to an edge at the next instant: to a `Pre` by the rows of the instant before, to
/// any other edge by those of this one.
#[tactic(auto, using(crate::proofs::Makings::coming_now, crate::proofs::Makings::coming_later, crate::proofs::Makings::coming_first))]
fn add_coming(
    net: &Network,
    table: &[Option<u32>],
    frame: &[Value],
    begun: bool,
    before: &[BitRow],
    earlier: &BitRow,
    rows: &[BitRow],
    starts: &BitRow,
    e: EdgeId,
    work: &mut BitRow,
)
    requires edge { e.0 < length net.now.edges }
    requires size { HaveSize (length net.now.edges) table.now rows.now starts.now work.old }
    requires earlier { HaveSize (length net.now.edges) table.now before.now earlier.now work.old }
    ensures { Adds work.old work.new (RowComes net.now.edges table.now frame.now begun before.now
        earlier.now rows.now starts.now e) }
{
    let t = kind_of(begun);
    if !is_delay(net, e) {
        add_edge(net, table, frame, t, rows, starts, e, work);
        return;
    }
    if begun {
        add_edge(net, table, frame, t, before, earlier, e, work);
    }
}

/// Puts the row of an edge at the next instant.
#[tactic(auto, using(crate::proofs::Makings::puts_row, crate::proofs::Makings::size_kept, crate::proofs::Makings::work_kept))]
fn put_edge(
    net: &Network,
    table: &[Option<u32>],
    frame: &[Value],
    begun: bool,
    before: &[BitRow],
    earlier: &BitRow,
    rows: &mut List<BitRow>,
    starts: &BitRow,
    e: EdgeId,
    work: &mut BitRow,
)
    requires edge { e.0 < length net.now.edges }
    requires size { HaveSize (length net.now.edges) table.now rows.old starts.now work.old }
    requires earlier { HaveSize (length net.now.edges) table.now before.now earlier.now work.old }
    ensures put { PutsRow net.now.edges table.now frame.now begun before.now earlier.now rows.old
        starts.now e rows.new }
    ensures size { HaveSize (length net.now.edges) table.now rows.new starts.now work.new }
    ensures earlier { HaveSize (length net.now.edges) table.now before.now earlier.now work.new }
{
    work.clear();
    let made = rows.as_slice();
    add_coming(
        net, table, frame, begun, before, earlier, made, starts, e, work,
    );
    put_row(rows, e.0 as usize, work);
}

/// The edges in the order in which those of an instant are done.
#[tactic(auto, using(crate::proofs::Ordering::in_order))]
fn sequence_of(net: &Ordered) -> &[EdgeId]
    ensures { IsInOrder net.now.network.edges result.now }
{
    // what the network says of itself is known once it is read
    let _parts = net.network().parts();
    net.sequence()
}

/// The edge at a place of a sequence.
fn edge_at(sequence: &[EdgeId], place: usize) -> EdgeId
    requires { place < length sequence.now }
    ensures { slice_get sequence.now place ≡ Some result }
{
    sequence[place]
}

/// Puts the rows of all edges at the next instant. The cost is that of joining, for each port of
/// each edge, the row of its operand.
pub(crate) fn fill(
    net: &Ordered,
    table: &[Option<u32>],
    frame: &[Value],
    begun: bool,
    before: &[BitRow],
    earlier: &BitRow,
    rows: &mut List<BitRow>,
    starts: &BitRow,
    work: &mut BitRow,
)
    requires size { HaveSize (length net.now.network.edges) table.now rows.old starts.now work.old }
    requires earlier { let edges = net.now.network.edges in
        HaveSize (length edges) table.now before.now earlier.now work.old }
    ensures told { FillsRows net.now.network.edges table.now frame.now begun before.now earlier.now
        starts.now rows.new }
    ensures size { HaveSize (length net.now.network.edges) table.now rows.new starts.now work.new }
    ensures earlier { let edges = net.now.network.edges in
        HaveSize (length edges) table.now before.now earlier.now work.new }
{
    let network = net.network();
    let sequence = sequence_of(net);
    for place in 0..sequence.len() {
        let e = edge_at(sequence, place);
        put_edge(
            network, table, frame, begun, before, earlier, rows, starts, e, work,
        );
    }
}
