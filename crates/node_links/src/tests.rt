use super::*;
use call_forward::{Letter, Message};
use std::process::Abort;
use std::test::Fail;

/// A letter that is told from others by its pid.
fn letter(pid: u32) -> Letter {
    Letter {
        from: 0,
        to: 1,
        stamp: 1,
        message: Message::Poke { pid },
    }
}

/// The pid of a letter, if there is one.
fn told(letter: Option<Letter>) -> Option<u32> {
    match letter {
        Some(letter) => letter.message.pid(),
        None => None,
    }
}

/// What a thread may own.
fn moved<T: Send>(value: T) -> T {
    value
}

/// A link takes as many letters as it has room for, gives the next one back, and takes it after one was taken off.
#[test]
fn a_full_link(rt: HostRuntime) -> Result<(), Fail> {
    let (mut out, mut back) = link(rt.alloc(), LINK_LETTERS)?;
    for pid in 0..LINK_LETTERS {
        assert_eq!(rt; told(out.put(letter(pid))), None);
    }
    assert_eq!(rt; told(out.put(letter(64))), Some(64));
    assert_eq!(rt; told(back.take()), Some(0));
    assert_eq!(rt; told(out.put(letter(64))), None);
    assert_eq!(rt; told(back.take()), Some(1));
    Ok(())
}

/// Two carriers of a pair meet with a letter between them, and one towards itself with none.
#[test]
fn carriers_meet(rt: HostRuntime) -> Result<(), Fail> {
    let (mut out, other_back) = link(rt.alloc(), 2)?;
    let (other_out, back) = link(rt.alloc(), 2)?;
    assert_eq!(rt; told(out.put(letter(5))), None);
    let mut one = RingCarrier::new(out, back);
    let mut two = RingCarrier::new(other_out, other_back);
    assert_eq!(rt; one.meet(&mut two)?, false);
    two.ready()?;
    assert_eq!(rt; told(two.take()), Some(5));
    assert_eq!(rt; (one.taken(), two.taken()), (0, 1));
    let (out, back) = link(rt.alloc(), 2)?;
    let mut own = RingCarrier::new(out, back);
    assert_eq!(rt; own.meet_own()?, true);
    Ok(())
}

/// The node that the carrier at a place of a side leads to.
fn node_at(side: &Side<RingCarrier>, at: usize) -> Option<u8> {
    match side.get(at) {
        Some(towards) => Some(towards.node),
        None => None,
    }
}

/// Puts a letter by the carrier at a place of a side.
fn put_at(rt: &impl Abort, side: &mut Side<RingCarrier>, at: usize, pid: u32) -> Option<u32> {
    let towards = side.get_mut(at).expect(rt, "a carrier");
    told(towards.carrier.put(letter(pid)))
}

/// Takes a letter by the carrier at a place of a side, and how many were taken by it.
fn take_at(rt: &impl Abort, side: &mut Side<RingCarrier>, at: usize) -> (Option<u32>, u64) {
    let towards = side.get_mut(at).expect(rt, "a carrier");
    (told(towards.carrier.take()), towards.carrier.taken())
}

/// The carriers of three nodes: where they lead, and letters from node 1 to node 2 and from home to itself.
#[test]
fn rings_between_nodes(rt: HostRuntime) -> Result<(), Fail> {
    let mut sides = moved(ring_carriers(rt.alloc(), 3)?).into_vec();
    assert_eq!(rt; sides.len(), 3);
    let led = (
        node_at(&sides[0], 0),
        node_at(&sides[1], 1),
        node_at(&sides[2], 1),
    );
    assert_eq!(rt; led, (Some(0), Some(2), Some(1)));
    assert_eq!(rt; put_at(&rt, &mut sides[1], 1, 5), None);
    assert_eq!(rt; take_at(&rt, &mut sides[2], 0), (None, 0));
    assert_eq!(rt; take_at(&rt, &mut sides[2], 1), (Some(5), 1));
    assert_eq!(rt; put_at(&rt, &mut sides[0], 0, 6), None);
    assert_eq!(rt; take_at(&rt, &mut sides[0], 0), (Some(6), 1));
    Ok(())
}
