// Links, and those between all nodes.
ghost use Rattle.std.specs.Prelude.{◌≡◌, ◌+◌, ◌<◌, ◌≤◌, [], IfOk, OnOk};
ghost use Rattle.call_table.specs.declared.limit.TheConstants.{NODES};
ghost use Rattle.node_links.specs.Links.{letters_put, letters_taken, known_letters, free_slots, IsLink};
ghost use Rattle.node_links.specs.Sides.{IsFresh, InPairs, EachIs, IsGrown};
ghost use Rattle.node_links.specs.Rings.{ring_pair, IsNew};

use crate::carrier::Carrier;
use crate::ends::{In, Out};
use crate::ring::RingCarrier;
use crate::side::{Carriers, Side, Towards};
use call_table::NoMemory;
use rtrb::RingBuffer;
use std::alloc::Global;

/// The letters that a link has room for.
pub const LINK_LETTERS: u32 = 64;

/// A link for so many letters, on which nothing lies: its end to put and its end to take. It takes the memory for all of them.
pub fn link(alloc: Global, capacity: u32) -> Result<(Out, In), NoMemory>
    requires { 0 < capacity }
    ensures ends { IfOk result (λ r. IsLink r.0 r.1) }
    ensures nothing { IfOk result (λ r. (letters_put r.0 ≡ []) × (letters_taken r.1 ≡ []) × (known_letters r.1 ≡ [])) }
    ensures room { IfOk result (λ r. free_slots r.0 ≡ capacity) }
{
    let (out, back) = RingBuffer::new(alloc, capacity as usize)?;
    Ok((Out { ring: out }, In { ring: back }))
}

/// The carriers of two nodes towards each other.
fn carriers_between(alloc: Global) -> Result<(RingCarrier, RingCarrier), NoMemory>
    ensures pair { IfOk result (λ r. ring_pair r.0 r.1 × ring_pair r.1 r.0) }
    ensures new { IfOk result (λ r. IsNew r.0 × IsNew r.1) }
{
    let (out, other_back) = link(alloc, LINK_LETTERS)?;
    let (other_out, back) = link(alloc, LINK_LETTERS)?;
    Ok((
        RingCarrier::new(out, back),
        RingCarrier::new(other_out, other_back),
    ))
}

/// The carrier of a node towards itself.
fn carrier_within(alloc: Global) -> Result<RingCarrier, NoMemory>
    ensures pair { IfOk result (λ c. ring_pair c c) }
    ensures new { IfOk result IsNew }
{
    let (out, back) = link(alloc, LINK_LETTERS)?;
    Ok(RingCarrier::new(out, back))
}

/// Home alone, with its carrier towards itself.
fn home_alone(alloc: Global) -> Result<Vec<Side<RingCarrier>>, NoMemory>
    ensures { IfOk result (λ sides. IsGrown ring_pair IsNew 1 sides.items) }
{
    let carrier = carrier_within(alloc)?;
    let mut side = Side::new(alloc);
    side.push(Towards { node: 0, carrier })?;
    let mut sides = Vec::new(alloc);
    sides.push(side)?;
    Ok(sides)
}

/// One node more, with carriers between it and each of the nodes so far.
fn add_node(alloc: Global, sides: &mut Vec<Side<RingCarrier>>, node: u8) -> Result<(), NoMemory>
    requires some { 0 < node }
    requires grown { IsGrown ring_pair IsNew node sides.old.items }
    ensures { OnOk result (IsGrown ring_pair IsNew (node + 1) sides.new.items) }
{
    let mut row = Side::new(alloc);
    for at in 0..node {
        let (there, back) = carriers_between(alloc)?;
        sides[at as usize].push(Towards {
            node,
            carrier: there,
        })?;
        row.push(Towards {
            node: at,
            carrier: back,
        })?;
    }
    sides.push(row)?;
    Ok(())
}

/// Carriers in pairs for so many nodes, over rings of 64 letters, on which nothing lies and by which no letter was taken.
pub fn ring_carriers(alloc: Global, nodes: u8) -> Result<Carriers<RingCarrier>, NoMemory>
    requires least { 1 ≤ nodes }
    requires most { nodes ≤ NODES }
    ensures pairs { IfOk result (InPairs ⟦<RingCarrier as Carrier>⟧.pair nodes) }
    ensures fresh { IfOk result (EachIs (IsFresh ⟦<RingCarrier as Carrier>⟧.puts ⟦<RingCarrier as Carrier>⟧.gives ⟦<RingCarrier as Carrier>⟧.total)) }
    ensures room { IfOk result (EachIs IsNew) }
{
    let mut sides = home_alone(alloc)?;
    for node in 1..nodes {
        add_node(alloc, &mut sides, node)?;
    }
    Ok(Carriers::from_vec(sides))
}
