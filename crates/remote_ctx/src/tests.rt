use super::*;
use call_forward::{Acted, Done, Message, State};
use call_table::{Answer, Bytes, Kind, RIGHT_READ, RIGHT_RUN, RIGHT_WRITE, Taken};
use node_event::{Kept, What};
use page_set::Pages;
use std::alloc::Global;
use std::process::Abort;
use user_ctx::User;

/// Where the words of a process stand.
const CODE: u32 = 0x1000;

/// addi x0, x0, 0
const NOTHING: u32 = 0x0000_0013;

/// jal x0, 0
const LOOP: u32 = 0x0000_006F;

/// addi a7, x0, 4
const SET_FORK: u32 = 0x0040_0893;

/// addi a7, x0, 18
const SET_BRK: u32 = 0x0120_0893;

/// addi a7, x0, 19
const SET_YIELD: u32 = 0x0130_0893;

const ECALL: u32 = 0x0000_0073;

fn map(rt: &impl Abort, pages: &mut Pages, page: u32, rights: u8) {
    assert!(rt; page < 0x10_0000 && rights < 8 && !pages.is_mapped(page));
    assert_eq!(rt; pages.map_zero(page, rights), Ok(()));
}

/// A process of these words, with a page of a stack below `sp`.
fn process(rt: &impl Abort, alloc: Global, pid: u32, sp: u32, words: &[u32]) -> User {
    let mut pages = Pages::new(alloc);
    map(rt, &mut pages, 1, RIGHT_READ | RIGHT_RUN);
    map(rt, &mut pages, 2, RIGHT_READ | RIGHT_WRITE);
    let mut at = CODE;
    for word in words {
        pages.write(at, &word.to_le_bytes());
        at = at.wrapping_add(4);
    }
    let mut user = User::new(CODE, sp, 0x1_2000, 0, pages, 0x1_0000);
    user.set_pid(pid);
    user
}

/// What is posted.
#[derive(Clone, Copy, Debug, PartialEq)]
enum Post {
    Call(u32),
    Pause(bool),
    Ask(u32),
    NoMove(u32),
    Other,
}

fn post_of(message: &Message) -> Post {
    match message {
        Message::Call { request, .. } => Post::Call(request.number),
        Message::Pause { room, .. } => Post::Pause(*room),
        Message::Ask { need, .. } => Post::Ask(*need),
        Message::NoMove { line } => Post::NoMove(*line),
        _ => Post::Other,
    }
}

/// An event, and the first message that it posts.
fn told(acted: Acted) -> (What, Option<(u8, Post)>) {
    let first = match acted.mail.get(0) {
        None => None,
        Some((to, message)) => Some((*to, post_of(message))),
    };
    (acted.what, first)
}

/// How a process stands: its state, whether a move is kept, whether a poke waits, its pages, and the sum of all pages.
fn seen(hosted: &Hosted, pid: u32) -> (Option<State>, bool, bool, Option<u32>, u32) {
    (
        hosted.state(pid),
        hosted.kept(pid),
        hosted.is_poked(pid),
        hosted.need(pid),
        hosted.pages(),
    )
}

/// An answer of this kind and value, without bytes.
fn answer(alloc: Global, kind: Kind, value: i32) -> Option<Answer> {
    Some(Answer {
        value,
        bytes: Bytes::new(alloc),
        kind,
    })
}

fn done(answer: Option<Answer>, taken: Option<Taken>, ended: bool, more: bool) -> Done {
    Done {
        answer,
        taken,
        ended,
        more,
    }
}

/// What happens to a process.
enum Act {
    /// A quantum, and how many steps of it went.
    Runs(u32, u32),
    Sends(u32),
    Heeds(bool),
    Pokes(bool),
    Begins(u8),
    Keeps(u8),
    Stays,
    /// How many times it had landed.
    Departs(u32),
    /// Not here.
    Stuck,
    Sees(Option<State>, bool, bool, u32),
}

fn put(rt: &impl Abort, hosted: &mut Hosted, user: User, hops: u32) {
    let pid = user.pid();
    assert!(rt; hosted.is_absent(pid));
    assert!(rt; hosted.put(user, hops).is_ok());
}

/// A turn of a process that runs.
fn run(hosted: &mut Hosted, pid: u32, quantum: u32) -> Option<Ran> {
    if quantum == 0 {
        return None;
    }
    match hosted.state(pid) {
        Some(State::Running) => hosted.run(pid, quantum).ok(),
        _ => None,
    }
}

/// It runs into a call or a fault, which goes home.
fn send(hosted: &mut Hosted, alloc: Global, pid: u32) -> Option<Acted> {
    match hosted.state(pid) {
        Some(State::Running) => match hosted.run(pid, 9).ok()? {
            Ran::Steps(_) => None,
            Ran::AtCall => hosted.send(alloc, pid).ok(),
            Ran::AtFault => hosted.send(alloc, pid).ok(),
        },
        _ => None,
    }
}

fn heed(hosted: &mut Hosted, alloc: Global, pid: u32) -> Option<Acted> {
    match hosted.state(pid) {
        Some(State::Running) => {
            if hosted.is_poked(pid) {
                hosted.heed(alloc, pid).ok()
            } else {
                None
            }
        }
        _ => None,
    }
}

/// A move to a node, for line 5: it begins, or is kept.
fn go(rt: &impl Abort, hosted: &mut Hosted, pid: u32, to: u8) {
    match hosted.state(pid) {
        Some(State::Running) => hosted.begin(pid, to, Some(5)),
        Some(State::Waiting) => hosted.keep(pid, to, 5),
        _ => assert!(rt; false),
    }
}

fn stay(rt: &impl Abort, hosted: &mut Hosted, pid: u32) {
    match hosted.state(pid) {
        Some(State::Asking { .. }) => hosted.stay(pid),
        _ => assert!(rt; false),
    }
}

fn does(rt: &impl Abort, alloc: Global, hosted: &mut Hosted, act: &Act) {
    match *act {
        Act::Runs(quantum, went) => {
            assert_eq!(rt; run(hosted, 7, quantum), Some(Ran::Steps(went)))
        }
        Act::Sends(number) => assert_eq!(rt;
            send(hosted, alloc, 7).map(told),
            Some((What::Sent { pid: 7, number }, Some((0, Post::Call(number)))))
        ),
        Act::Heeds(room) => assert_eq!(rt;
            heed(hosted, alloc, 7).map(told),
            Some((What::Heed { pid: 7 }, Some((0, Post::Pause(room)))))
        ),
        Act::Pokes(used) => {
            assert_eq!(rt;
                told(hosted.poked(alloc, 7)),
                (What::Poked { pid: 7, used }, None)
            )
        }
        Act::Begins(to) => go(rt, hosted, 7, to),
        Act::Keeps(to) => go(rt, hosted, 7, to),
        Act::Stays => stay(rt, hosted, 7),
        Act::Departs(hops) => {
            assert_eq!(rt;
                hosted.depart(7).map(|left| (left.0.pid(), left.1)),
                Some((7, hops))
            )
        }
        Act::Stuck => assert!(rt; hosted.depart(7).is_none()),
        Act::Sees(state, kept, poked, pages) => assert_eq!(rt;
            seen(hosted, 7),
            (
                state,
                kept,
                poked,
                if state.is_some() { Some(pages) } else { None },
                pages
            )
        ),
    }
}

fn acts(rt: &impl Abort, alloc: Global, hosted: &mut Hosted, all: &[Act]) {
    for act in all {
        does(rt, alloc, hosted, act);
    }
}

/// A call: steps, the call, a poke that is dropped, a move that is kept.
const CALLS: [Act; 7] = [
    Act::Sees(Some(State::Running), false, false, 2),
    Act::Runs(1, 1),
    Act::Sends(19),
    Act::Pokes(false),
    Act::Sees(Some(State::Waiting), false, false, 2),
    Act::Keeps(2),
    Act::Sees(Some(State::Waiting), true, false, 2),
];

/// A poke is noted, and heeded by a pause.
const POKES: [Act; 4] = [
    Act::Pokes(true),
    Act::Sees(Some(State::Running), false, true, 2),
    Act::Heeds(true),
    Act::Sees(Some(State::Waiting), false, false, 2),
];

/// A move begins, a poke of it is kept, it stays, begins again and leaves.
const MOVES: [Act; 10] = [
    Act::Stuck,
    Act::Begins(3),
    Act::Pokes(true),
    Act::Sees(
        Some(State::Asking {
            to: 3,
            line: Some(5),
        }),
        false,
        true,
        2,
    ),
    Act::Stays,
    Act::Sees(Some(State::Running), false, true, 2),
    Act::Begins(4),
    Act::Departs(6),
    Act::Stuck,
    Act::Sees(None, false, false, 0),
];

/// A growth that is not the first step of a quantum ends it before itself. At a break of 0x12000 the heap has two pages.
const GROWS: [Act; 4] = [
    Act::Runs(9, 1),
    Act::Sees(Some(State::Running), false, false, 2),
    Act::Runs(9, 9),
    Act::Sees(Some(State::Running), false, false, 4),
];

fn story(rt: &impl Abort, alloc: Global, words: &[u32], all: &[Act]) {
    let mut hosted = Hosted::new(alloc);
    put(rt, &mut hosted, process(rt, alloc, 7, 0x3000, words), 6);
    acts(rt, alloc, &mut hosted, all);
}

/// What a process does by itself, and what orders and pokes do to it.
#[test]
fn turns(rt: HostRuntime) {
    let alloc = rt.alloc();
    story(&rt, alloc, &[SET_YIELD, ECALL, LOOP], &CALLS);
    story(&rt, alloc, &[LOOP], &POKES);
    story(&rt, alloc, &[LOOP], &MOVES);
    story(&rt, alloc, &[SET_BRK, ECALL, LOOP], &GROWS);
    story(&rt, alloc, &[0], &[Act::Sends(0)]);
}

/// A process that waits for the answer of `yield`, or of `fork`, with a move to node 2 that is kept.
fn waiting(rt: &impl Abort, alloc: Global, set: u32, keeps: bool) -> Hosted {
    let mut hosted = Hosted::new(alloc);
    put(
        rt,
        &mut hosted,
        process(rt, alloc, 7, 0x3000, &[set, ECALL, LOOP]),
        6,
    );
    assert_eq!(rt; run(&mut hosted, 7, 1), Some(Ran::Steps(1)));
    assert!(rt; send(&mut hosted, alloc, 7).is_some());
    if keeps {
        go(rt, &mut hosted, 7, 2);
    }
    hosted
}

fn got(child: Option<u32>, ended: bool, kept: Option<Kept>, to: Option<u8>) -> What {
    What::Got {
        pid: 7,
        child,
        ended,
        kept,
        to,
    }
}

fn gets(
    rt: &impl Abort,
    alloc: Global,
    hosted: &mut Hosted,
    done: Done,
    what: What,
    post: Option<(u8, Post)>,
) {
    assert_eq!(rt;
        hosted.got(alloc, 7, done).ok().map(told),
        Some((what, post))
    );
}

/// A reply: the process runs on, begins its kept move, or is dropped; the child of a fork comes also where its parent ended.
#[test]
fn replies(rt: HostRuntime) {
    let alloc = rt.alloc();
    let mut hosted = waiting(&rt, alloc, SET_YIELD, false);
    gets(
        &rt,
        alloc,
        &mut hosted,
        done(None, None, false, false),
        What::Strange,
        None,
    );
    assert_eq!(rt;
        seen(&hosted, 7),
        (Some(State::Waiting), false, false, Some(2), 2)
    );
    gets(
        &rt,
        alloc,
        &mut hosted,
        done(answer(alloc, Kind::Plain, 0), None, false, true),
        got(None, false, None, None),
        None,
    );
    assert_eq!(rt;
        seen(&hosted, 7),
        (Some(State::Running), false, true, Some(2), 2)
    );
    gets(
        &rt,
        alloc,
        &mut hosted,
        done(answer(alloc, Kind::Plain, 0), None, false, true),
        What::Strange,
        None,
    );
    let mut hosted = waiting(&rt, alloc, SET_YIELD, true);
    gets(
        &rt,
        alloc,
        &mut hosted,
        done(answer(alloc, Kind::Plain, 0), None, false, true),
        got(None, false, Some(Kept::Begins), Some(2)),
        Some((2, Post::Ask(2))),
    );
    assert_eq!(rt;
        seen(&hosted, 7),
        (
            Some(State::Asking {
                to: 2,
                line: Some(5)
            }),
            false,
            true,
            Some(2),
            2
        )
    );
    let mut hosted = waiting(&rt, alloc, SET_FORK, true);
    gets(
        &rt,
        alloc,
        &mut hosted,
        done(
            answer(alloc, Kind::Fork, 8),
            Some(Taken::Dies(9)),
            true,
            false,
        ),
        got(Some(8), true, Some(Kept::Ended), Some(2)),
        Some((0, Post::NoMove(5))),
    );
    assert_eq!(rt; seen(&hosted, 7), (None, false, false, None, 2));
    assert_eq!(rt;
        seen(&hosted, 8),
        (Some(State::Running), false, false, Some(2), 2)
    );
    assert_eq!(rt;
        (hosted.load(), hosted.next(0), hosted.next(8)),
        (1, Some(8), Some(8))
    );
}

/// A node with a process that runs, one that waits for `fork`, one that paused, one that asks node 3 for room, and one without room for a frame that waits for `yield`.
fn crowd(rt: &impl Abort, alloc: Global) -> Hosted {
    let mut hosted = waiting(rt, alloc, SET_FORK, false);
    put(rt, &mut hosted, process(rt, alloc, 1, 0x3000, &[LOOP]), 0);
    put(rt, &mut hosted, process(rt, alloc, 9, 0x3000, &[LOOP]), 0);
    assert_eq!(rt;
        told(hosted.poked(alloc, 9)).0,
        What::Poked { pid: 9, used: true }
    );
    assert!(rt; heed(&mut hosted, alloc, 9).is_some());
    put(rt, &mut hosted, process(rt, alloc, 4, 0x3000, &[LOOP]), 0);
    go(rt, &mut hosted, 4, 3);
    put(
        rt,
        &mut hosted,
        process(rt, alloc, 5, 0x2000, &[SET_YIELD, ECALL]),
        0,
    );
    assert_eq!(rt; run(&mut hosted, 5, 1), Some(Ran::Steps(1)));
    assert!(rt; send(&mut hosted, alloc, 5).is_some());
    put(rt, &mut hosted, process(rt, alloc, 30, 0x3000, &[LOOP]), 0);
    hosted
}

/// A handler that is entered.
const ENTERS: Taken = Taken::Enters {
    signal: 10,
    handler: CODE,
    restorer: CODE,
    mask: 0,
};

/// A reply: to whom, with an answer of this kind and value or none, with a handler entered or not, and whether it fits.
const REPLIES: [(u32, Option<(Kind, i32)>, bool, bool); 15] = [
    // who runs, asks, or is not here waits for none
    (1, Some((Kind::Plain, 0)), false, false),
    (4, None, false, false),
    (6, None, false, false),
    // a call has an answer, a pause has none
    (7, None, false, false),
    (9, Some((Kind::Plain, 0)), false, false),
    (9, None, false, true),
    (9, None, true, true),
    // a fork has a child that is not here, or an error
    (7, Some((Kind::Fork, 2)), false, true),
    (7, Some((Kind::Fork, 30)), false, false),
    (7, Some((Kind::Fork, 0)), false, false),
    (7, Some((Kind::Plain, -11)), true, true),
    (7, Some((Kind::Return, 0)), false, false),
    // no other call has a child, and no handler is entered without room
    (5, Some((Kind::Fork, 2)), false, false),
    (5, Some((Kind::Plain, 0)), true, false),
    (5, Some((Kind::Plain, 0)), false, true),
];

fn reply_of(alloc: Global, pid: u32, given: Option<(Kind, i32)>, enters: bool) -> Message {
    let given = match given {
        None => None,
        Some((kind, value)) => answer(alloc, kind, value),
    };
    let taken = if enters { Some(ENTERS) } else { None };
    Message::Reply {
        pid,
        done: done(given, taken, false, false),
    }
}

fn comes(rt: &impl Abort, alloc: Global, pid: u32, named: u32, hops: u32) -> Message {
    Message::Move {
        pid: named,
        user: process(rt, alloc, pid, 0x3000, &[]),
        hops,
        line: None,
    }
}

/// Each condition under which a message fits.
#[test]
fn messages_fit(rt: HostRuntime) {
    let alloc = rt.alloc();
    let hosted = crowd(&rt, alloc);
    for (pid, given, enters, fits) in REPLIES {
        assert_eq!(rt; hosted.suits(0, &reply_of(alloc, pid, given, enters)), fits);
    }
    for (pid, from, fits) in [(4, 3, true), (4, 2, false), (1, 3, false), (6, 3, false)] {
        assert_eq!(rt; hosted.suits(from, &Message::Allow { pid }), fits);
        let denied = Message::Deny {
            pid,
            need: 2,
            free: 1,
        };
        assert_eq!(rt; hosted.suits(from, &denied), fits);
    }
    for (pid, fits) in [(6, true), (1, false), (7, false)] {
        assert_eq!(rt; hosted.suits(2, &Message::Ask { pid, need: 1 }), fits);
    }
    for (pid, named, hops, fits) in [
        (6, 6, 0xFFFF_FFFE, true),
        (6, 6, 0xFFFF_FFFF, false),
        (6, 8, 0, false),
        (4, 4, 0, false),
    ] {
        assert_eq!(rt; hosted.suits(2, &comes(&rt, alloc, pid, named, hops)), fits);
    }
    assert!(rt; hosted.suits(0, &Message::Poke { pid: 6 }));
}

/// The next process that runs: of 1 and 30.
#[test]
fn turns_go_round(rt: HostRuntime) {
    let hosted = crowd(&rt, rt.alloc());
    assert_eq!(rt; hosted.running(), [1, 30].as_slice());
    assert_eq!(rt; (hosted.load(), hosted.pages()), (6, 12));
    for (after, next) in [(0, 1), (1, 30), (29, 30), (30, 1), (0xFFFF_FFFF, 1)] {
        assert_eq!(rt; hosted.next(after), Some(next));
    }
    let none = Hosted::new(rt.alloc());
    assert_eq!(rt; (none.next(0), none.load(), none.pages()), (None, 0, 0));
}
