use super::*;
use call_table::NoMemory;

/// What is done to the first pipe, in turn, with the answer, and how many bytes it holds afterwards.
#[derive(Drop)]
enum Doing {
    Put(&'static [u8], u32),
    Take(u32, &'static [u8]),
}

#[test]
fn worked_cases(rt: HostRuntime) -> Result<(), NoMemory> {
    let cases = [
        (Doing::Put(b"hello", 5), 5),
        (Doing::Take(2, b"he"), 3),
        (Doing::Put(b"", 0), 3),
        (Doing::Put(b" world", 6), 9),
        (Doing::Take(0, b""), 9),
        (Doing::Take(4, b"llo "), 5),
        (Doing::Take(100, b"world"), 0),
        (Doing::Take(1, b""), 0),
    ];
    let mut pipes = Pipes::new(rt.alloc());
    assert_eq!(rt; pipes.create()?, Some(0));
    for (i, (doing, held)) in cases.iter().enumerate() {
        match doing {
            Doing::Put(bytes, count) => assert_eq!(rt; pipes.put(0, bytes), *count),
            Doing::Take(len, bytes) => {
                let taken = pipes.take(0, *len)?;
                assert!(rt; taken.as_slice() == *bytes, "at step {i}");
            }
        }
        assert_eq!(rt; pipes.held(0), *held, "after step {i}");
        assert_eq!(rt; pipes.space(0), 4096 - *held, "after step {i}");
    }
    Ok(())
}

#[test]
fn limits(rt: HostRuntime) -> Result<(), NoMemory> {
    let mut pipes = Pipes::new(rt.alloc());
    for id in 0..64u32 {
        assert_eq!(rt; pipes.create()?, Some(id));
    }
    assert_eq!(rt; pipes.create()?, None);
    let (old, new) = ([1u8; 5000], [2u8; 5000]);
    assert_eq!(rt; pipes.put(7, &old), 4096);
    assert_eq!(rt; pipes.put(7, &new), 0);
    assert_eq!(rt; pipes.space(7), 0);
    let first = pipes.take(7, 4000)?;
    assert!(rt; first.as_slice() == &old[..4000]);
    assert_eq!(rt; pipes.put(7, &new), 4000);
    let second = pipes.take(7, 97)?;
    assert_eq!(rt; second.get(95), Some(1));
    assert_eq!(rt; second.get(96), Some(2));
    assert_eq!(rt; pipes.held(7), 3999);
    pipes.remove(7);
    pipes.remove(5);
    assert_eq!(rt; pipes.held(7), 0);
    assert_eq!(rt; pipes.put(7, &new), 0);
    assert_eq!(rt; pipes.create()?, Some(5));
    assert_eq!(rt; pipes.create()?, Some(7));
    assert_eq!(rt; pipes.create()?, None);
    let none = pipes.take(64, 1)?;
    assert_eq!(rt; none.len(), 0);
    Ok(())
}
