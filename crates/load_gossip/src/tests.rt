use super::*;

fn entry(node: u8, load: u32, stamp: u64) -> Entry {
    Entry {
        node,
        load,
        free: 7,
        stamp,
    }
}

/// The vector with these places, made by the calls of a node.
fn vector_of(e: [Entry; 8]) -> Vector {
    let mut vector = Vector::new();
    vector.renew(e[0]);
    vector.hear(&[Some(e[4]), None, None, None]);
    vector.hear(&[Some(e[2]), Some(e[6]), None, None]);
    vector.hear(&[Some(e[1]), Some(e[3]), Some(e[5]), Some(e[7])]);
    vector
}

/// A vector A0 to A7 hears B0 to B3, and is A0 B0 A1 B1 A2 B2 A3 B3 then. `load` tells the entries apart.
#[test]
fn hears_a_half(rt: HostRuntime) {
    let (a0, a1, a2, a3) = (
        entry(1, 0, 9),
        entry(3, 1, 7),
        entry(2, 2, 5),
        entry(4, 3, 1),
    );
    let (b0, b1, b2, b3) = (
        entry(2, 10, 8),
        entry(3, 11, 7),
        entry(1, 12, 3),
        entry(5, 13, 2),
    );
    let late = entry(6, 20, 1);
    let mut vector = vector_of([a0, a1, a2, a3, late, late, late, late]);
    assert_eq!(rt; vector.half(), [Some(a0), Some(a1), Some(a2), Some(a3)]);
    vector.hear(&[Some(b0), Some(b1), Some(b2), Some(b3)]);
    assert_eq!(rt; vector, vector_of([a0, b0, a1, b1, a2, b2, a3, b3]));

    let newest = [
        (1, Some(a0)),
        (2, Some(b0)),
        (3, Some(a1)),
        (4, Some(a3)),
        (5, Some(b3)),
        (6, None),
    ];
    for (node, want) in newest {
        assert_eq!(rt; vector.newest(node), want, "node {node}");
    }
}
