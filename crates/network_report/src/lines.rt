//! The lines of a report put through a buffer.

ghost use Rattle.std.specs.Prelude.{◌≡◌, flat_map};
ghost use Rattle.hub_spec.specs.Plans.{IsPlan};
ghost use Rattle.hub_spec.specs.Certificates.{Holds};
ghost use Rattle.hub_io.specs.Outside.{PutsThrough};
ghost use Rattle.cert_format.specs.Spaced.{spaced_node};
ghost use Rattle.network_report.specs.Texts.{status_word, status_line, hubs_line, cost_line, leg_lines, total_lines, listed_line, hub_line, flows_line};

use crate::hub_flows::HubFlows;
use crate::legs::FlowLegs;
use cert_format::Certificate;
use dec_text::{Piece, put_pieces};
use hub_io::{Buffer, Failed, Sink};
use hub_model::{Instance, Plan};

// The decimals of a cost, and of a flow.
const COST_PLACES: u32 = 12;

const FLOW_PLACES: u32 = 6;

// Puts the line that says what is shown of the plan.
pub(crate) fn put_status<K: Sink>(
    optimal: bool,
    buffer: &mut Buffer,
    sink: &mut K,
) -> Result<(), Failed>
    ensures { PutsThrough K.taken K.faults sink.old sink.new buffer.old buffer.new result (status_line optimal) }
{
    put_pieces(
        &[
            Piece::Text(b"status "),
            Piece::Text(status_name(optimal)),
            Piece::Text(b"\n"),
        ],
        buffer,
        sink,
    )
}

fn status_name(optimal: bool) -> &'static [u8]
    ensures { result.now ≡ status_word optimal }
{
    if optimal { b"optimal" } else { b"bounds" }
}

// Puts the line of the hubs.
pub(crate) fn put_hubs<K: Sink>(
    hubs: &[u32],
    buffer: &mut Buffer,
    sink: &mut K,
) -> Result<(), Failed>
    ensures { PutsThrough K.taken K.faults sink.old sink.new buffer.old buffer.new result (hubs_line hubs.now) }
{
    buffer.put(b"hubs", sink)?;
    put_nodes(hubs, buffer, sink)?;
    buffer.put(b"\n", sink)
}

fn put_nodes<K: Sink>(nodes: &[u32], buffer: &mut Buffer, sink: &mut K) -> Result<(), Failed>
    ensures { PutsThrough K.taken K.faults sink.old sink.new buffer.old buffer.new result
        (flat_map spaced_node nodes.now) }
{
    for node in nodes {
        put_pieces(
            &[Piece::Text(b" "), Piece::Count(*node as u128 + 1)],
            buffer,
            sink,
        )?;
    }
    Ok(())
}

// Puts the lines of what the routes cost, leg by leg.
pub(crate) fn put_legs<K: Sink>(
    instance: &Instance,
    plan: &Plan,
    buffer: &mut Buffer,
    sink: &mut K,
) -> Result<(), Failed>
    requires { IsPlan instance.now plan.now }
    ensures { PutsThrough K.taken K.faults sink.old sink.new buffer.old buffer.new result
        (leg_lines instance.now plan.now) }
{
    let legs = FlowLegs::of_plan(instance, plan);
    put_cost(b"collection", legs.collection, buffer, sink)?;
    put_cost(b"trunk", legs.trunk, buffer, sink)?;
    put_cost(b"delivery", legs.delivery, buffer, sink)
}

// Puts the lines of what the hubs cost, of what all costs, and of the bound.
pub(crate) fn put_totals<K: Sink>(
    instance: &Instance,
    certificate: &Certificate,
    buffer: &mut Buffer,
    sink: &mut K,
) -> Result<(), Failed>
    requires { Holds instance.now certificate.now.proof }
    ensures { PutsThrough K.taken K.faults sink.old sink.new buffer.old buffer.new result
        (total_lines instance.now certificate.now.proof) }
{
    let fixed = instance.opening_cost(certificate.hubs());
    put_cost(b"fixed", fixed, buffer, sink)?;
    put_cost(b"total", certificate.cost(), buffer, sink)?;
    put_cost(b"bound", certificate.bound(), buffer, sink)
}

fn put_cost<K: Sink>(
    name: &[u8],
    cost: u128,
    buffer: &mut Buffer,
    sink: &mut K,
) -> Result<(), Failed>
    ensures { PutsThrough K.taken K.faults sink.old sink.new buffer.old buffer.new result (cost_line name.now cost) }
{
    put_pieces(
        &[
            Piece::Text(name),
            Piece::Text(b" "),
            Piece::Fixed {
                value: cost,
                places: COST_PLACES,
            },
            Piece::Text(b"\n"),
        ],
        buffer,
        sink,
    )
}

// Puts the line of the number of hubs that the instance's file lists.
pub(crate) fn put_listed<K: Sink>(
    listed: Option<u32>,
    buffer: &mut Buffer,
    sink: &mut K,
) -> Result<(), Failed>
    ensures { PutsThrough K.taken K.faults sink.old sink.new buffer.old buffer.new result (listed_line listed) }
{
    match listed {
        Some(count) => put_pieces(
            &[
                Piece::Text(b"listed p "),
                Piece::Count(count as u128),
                Piece::Text(b"\n"),
            ],
            buffer,
            sink,
        ),
        None => buffer.put(b"listed p none\n", sink),
    }
}

// Puts a line for each hub of the plan: the flow that it takes up and gives out.
pub(crate) fn put_flows<K: Sink>(
    instance: &Instance,
    plan: &Plan,
    buffer: &mut Buffer,
    sink: &mut K,
) -> Result<(), Failed>
    requires { IsPlan instance.now plan.now }
    ensures { PutsThrough K.taken K.faults sink.old sink.new buffer.old buffer.new result
        (flat_map (flows_line instance.now plan.now) plan.now.hubs) }
{
    let flows = HubFlows::of_plan(instance, plan);
    for hub in plan.hubs() {
        let k = *hub as usize;
        put_hub(*hub, flows.collected[k], flows.delivered[k], buffer, sink)?;
    }
    Ok(())
}

fn put_hub<K: Sink>(
    hub: u32,
    collected: u128,
    delivered: u128,
    buffer: &mut Buffer,
    sink: &mut K,
) -> Result<(), Failed>
    ensures { PutsThrough K.taken K.faults sink.old sink.new buffer.old buffer.new result
        (hub_line hub collected delivered) }
{
    put_pieces(
        &[
            Piece::Text(b"hub "),
            Piece::Count(hub as u128 + 1),
            Piece::Text(b" collected "),
            Piece::Fixed {
                value: collected,
                places: FLOW_PLACES,
            },
            Piece::Text(b" delivered "),
            Piece::Fixed {
                value: delivered,
                places: FLOW_PLACES,
            },
            Piece::Text(b"\n"),
        ],
        buffer,
        sink,
    )
}
