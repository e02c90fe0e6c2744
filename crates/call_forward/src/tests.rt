use super::*;
use call_table::Entry;
use page_set::Pages;
use std::alloc::Global;
use std::process::Abort;
use user_ctx::User;

/// A process of one page and pid 7.
fn user(rt: &impl Abort, alloc: Global) -> User {
    let mut pages = Pages::new(alloc);
    assert!(rt; !pages.is_mapped(16));
    assert_eq!(rt; pages.map_zero(16, 6), Ok(()));
    let mut user = User::new(0x10000, 0x7fff_ff00, 0, 0, pages, 0x11000);
    user.set_pid(7);
    user
}

/// The pid, the pages and the landings of the process in a letter.
fn landed(letter: Letter) -> Option<(u32, u32, u32)> {
    match letter.message {
        Message::Move { user, hops, .. } => Some((user.pid(), user.need(), hops)),
        _ => None,
    }
}

/// A process travels inside its letter.
#[test]
fn a_process_travels(rt: HostRuntime) {
    let message = Message::Move {
        pid: 7,
        user: user(&rt, rt.alloc()),
        hops: 3,
        line: None,
    };
    let letter = Letter {
        from: 0,
        to: 1,
        stamp: 9,
        message,
    };
    assert_eq!(rt; landed(letter), Some((7, 1, 3)));
}

/// The process that a message speaks of, whether it goes to home alone, and whether it names nodes below 4 alone.
fn told(message: Message) -> (Option<u32>, bool, bool) {
    (message.pid(), message.is_to_home(), message.is_below(4))
}

/// What messages say of themselves.
#[test]
fn messages(rt: HostRuntime) {
    let (pid, hops, line) = (5, 0, 1);
    let entry = Entry {
        node: 4,
        load: 0,
        free: 0,
        stamp: 0,
    };
    let places = [None, Some(entry), None, None];
    assert_eq!(rt; told(Message::NoMove { line }), (None, true, true));
    assert_eq!(rt; told(Message::Poke { pid }), (Some(5), false, true));
    assert_eq!(rt;
        told(Message::Go {
            pid,
            to: 4,
            hops,
            line
        }),
        (Some(5), false, false)
    );
    assert_eq!(rt;
        told(Message::NotHere {
            pid,
            to: 3,
            hops,
            line
        }),
        (Some(5), true, true)
    );
    assert_eq!(rt; told(Message::Half { places }), (None, false, false));
}
