// The least node with a full journal at which an event is due.
ghost use Rattle.std.specs.Prelude.{◌≡◌, ◌<◌, ◌≤◌, ◌↔◌, ℕ, Option, Some, None, length, slice_get, IfOk, OnOk, IsTrue, false, true};
ghost use Rattle.node_core.specs.declared.node.Node.{Node};
ghost use Rattle.node_core.specs.Letters.{any_to};
ghost use Rattle.node_machine.specs.Policy.{given_by};
ghost use Rattle.cluster_run.specs.declared.seat.Seat.{Seat};
ghost use Rattle.cluster_run.specs.Standing.{AreLinked};
ghost use Rattle.cluster_run.specs.Seats.{waiting};
ghost use Rattle.cluster_run.specs.Passing.{SameSides};
ghost use Rattle.cluster_run.specs.Filling.{IsFilled, AskedSeat, AskedAt, FirstFound, TookAny, OneWaits, AwaitedAs, FirstAwaited};

use crate::seat::{Rest, Seat};
use crate::seats::meet_row;
use call_forward::Letter;
use call_table::NoMemory;
use node_core::Node;
use node_links::Carrier;
use policy_box::{Chooser, Policy};
use std::alloc::Global;

impl<C: Carrier> Seat<Node, C> {
    /// Whether the journal is full.
    fn is_full(&self) -> bool
        ensures { IsTrue result ↔ IsFilled self.now }
    {
        self.node.journal().is_full()
    }

    /// Whether a letter to a node waits here.
    fn has_out(&self, node: u8) -> bool
        ensures { result ≡ any_to node (waiting self.now) }
    {
        match &self.waits {
            Some(letter) => letter.to == node || self.node.has_out(node),
            None => self.node.has_out(node),
        }
    }

    /// With a full journal, what a turn without a letter answers; Busy where the journal is not full.
    fn ask<P: Chooser>(&mut self, alloc: Global, policy: &Policy<P>) -> Result<Rest, NoMemory>
        ensures asked { IfOk result (λ rest. AskedSeat (given_by (P.answers policy.now)) C.puts C.gives rest self.old self.new) }
        ensures side { OnOk result (self.new.side ≡ self.old.side) }
    {
        if !self.is_full() {
            return Ok(Rest::Busy);
        }
        let rest = self.make(alloc, None, policy)?;
        Ok(rest)
    }

    /// Takes the first letter that is known on the links from the nodes, in order.
    fn take_any(&mut self, nodes: u8) -> Result<Option<Letter>, NoMemory>
        ensures { IfOk result (λ came. TookAny C.puts C.gives C.known C.pair nodes came self.old self.new) }
    {
        for source in 0..nodes {
            let came = self.take_from(source)?;
            match came {
                Some(letter) => return Ok(Some(letter)),
                None => {}
            }
        }
        Ok(None)
    }
}

/// What a node with a full journal answers without a letter.
fn ask_at<C: Carrier, P: Chooser>(
    alloc: Global,
    seats: &mut [Seat<Node, C>],
    at: u8,
    policy: &Policy<P>,
) -> Result<Rest, NoMemory>
    requires within { at < length seats.old }
    ensures { IfOk result (λ rest. AskedAt (given_by (P.answers policy.now)) C.puts C.gives rest at seats.old seats.new) }
{
    let rest = seats[at as usize].ask(alloc, policy)?;
    Ok(rest)
}

/// The first node below one with a full journal that would go on by itself, else that one.
pub(crate) fn first_full<C: Carrier, P: Chooser>(
    alloc: Global,
    seats: &mut [Seat<Node, C>],
    node: u8,
    policy: &Policy<P>,
) -> Result<u8, NoMemory>
    requires within { node < length seats.old }
    ensures found { IfOk result (λ found. FirstFound (given_by (P.answers policy.now)) C.puts C.gives node found seats.old seats.new) }
    ensures sides { OnOk result (SameSides C.pair seats.old seats.new) }
{
    for at in 0..node {
        match ask_at(alloc, seats, at, policy)? {
            Rest::Full => return Ok(at),
            _ => {}
        }
    }
    Ok(node)
}

/// Whether a letter to a node waits at any seat.
fn one_waits<C: Carrier>(seats: &[Seat<Node, C>], node: u8, nodes: u8) -> bool
    requires nodes { nodes ≤ length seats.now }
    ensures one { result ≡ true → OneWaits C.puts C.gives C.pair nodes node seats.now }
    ensures none { result ≡ false → (a : ℕ) (t : Seat Node C) → a < nodes → slice_get seats.now a ≡ Some t → any_to node (waiting t) ≡ false }
{
    for at in 0..nodes {
        if seats[at as usize].has_out(node) {
            return true;
        }
    }
    false
}

/// Whether a node has a full journal and a letter waits for it or lies on a link to it; one that lies there is taken.
fn is_awaited<C: Carrier>(
    seats: &mut [Seat<Node, C>],
    node: u8,
    nodes: u8,
) -> Result<bool, NoMemory>
    requires within { node < length seats.old }
    requires nodes { nodes ≤ length seats.old }
    requires linked { AreLinked C.pair seats.old }
    ensures { IfOk result (λ awaited. AwaitedAs C.puts C.gives C.pair awaited nodes node seats.old seats.new) }
{
    if !seats[node as usize].is_full() {
        return Ok(false);
    }
    let waits = one_waits(seats, node, nodes);
    if waits {
        return Ok(true);
    }
    let _none = meet_row(seats, node, nodes)?;
    let came = seats[node as usize].take_any(nodes)?;
    Ok(came.is_some())
}

/// The first node below one that has a full journal and for which a letter waits or lies on a link, else that one.
pub(crate) fn first_awaited<C: Carrier>(
    seats: &mut [Seat<Node, C>],
    node: u8,
    nodes: u8,
) -> Result<u8, NoMemory>
    requires within { node < length seats.old }
    requires nodes { nodes ≤ length seats.old }
    requires linked { AreLinked C.pair seats.old }
    ensures { IfOk result (λ found. FirstAwaited C.puts C.gives C.pair nodes node found seats.old seats.new) }
{
    for at in 0..node {
        if is_awaited(seats, at, nodes)? {
            return Ok(at);
        }
    }
    Ok(node)
}
