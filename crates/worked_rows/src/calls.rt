// The table of calls, and the numbers that say how much there may be.
use call_table::{Need, RIGHT_READ, RIGHT_WRITE, call, is_local, is_signal, need_of};
use std::process::Abort;

/// Arguments that tell themselves apart.
const FEW: [u32; 6] = [0x1000, 10, 20, 30, 40, 50];
/// Lengths past what is looked at.
const MANY: [u32; 6] = [0x1000, 70, 5000, 30, 40, 50];

const SP: u32 = 0x7fff_ff00;

/// The number and the arguments of each call, and its buffer: where it begins, its length and the right to it.
const BUFFERS: [(u32, [u32; 6], Option<(u32, u32, u8)>); 14] = [
    (call::WAIT, FEW, Some((0x1000, 4, RIGHT_WRITE))),
    (call::WAIT, [0; 6], None),
    (call::OPEN, FEW, Some((0x1000, 10, RIGHT_READ))),
    (call::OPEN, MANY, Some((0x1000, 65, RIGHT_READ))),
    (call::UNLINK, FEW, Some((0x1000, 10, RIGHT_READ))),
    (call::UNLINK, MANY, Some((0x1000, 65, RIGHT_READ))),
    (call::READ, FEW, Some((10, 20, RIGHT_WRITE))),
    (call::READ, MANY, Some((70, 4096, RIGHT_WRITE))),
    (call::WRITE, FEW, Some((10, 20, RIGHT_READ))),
    (call::WRITE, MANY, Some((70, 4096, RIGHT_READ))),
    (call::PIPE, FEW, Some((0x1000, 8, RIGHT_WRITE))),
    (call::SIGRETURN, FEW, Some((SP, 132, RIGHT_READ))),
    (call::KILL, FEW, None),
    (0, FEW, None),
];

fn parts_of(need: Option<Need>) -> Option<(u32, u32, u8)> {
    match need {
        Some(need) => Some((need.addr, need.len, need.right)),
        None => None,
    }
}

fn are_buffers(rt: &impl Abort, rows: &[(u32, [u32; 6], Option<(u32, u32, u8)>)]) {
    for (number, args, want) in rows {
        assert_eq!(rt;
            parts_of(need_of(*number, args, SP)),
            *want,
            "call {number}"
        );
    }
}

#[test]
fn buffers(rt: HostRuntime) {
    are_buffers(&rt, &BUFFERS);
}

/// Which numbers are answered where the process runs, and which are signals.
#[test]
fn numbers(rt: HostRuntime) {
    let local = (0..32u32).filter(|number| is_local(*number)).count();
    let signals = (0..32u32).filter(|number| is_signal(*number)).count();
    assert_eq!(rt;
        (local, signals),
        (15, 11),
        "0, 2, 18 and 20 to 31 are local"
    );
    assert!(rt; is_local(call::BRK) && !is_local(call::YIELD) && is_local(u32::MAX));
    assert!(rt; is_signal(9) && !is_signal(14) && !is_signal(0));
}
