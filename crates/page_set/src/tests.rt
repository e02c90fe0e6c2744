// Worked cases of each call.
use crate::{CachedPages, Pages, Refused};
use std::process::Abort;

const READ: u8 = 4;

const WRITE: u8 = 2;

/// Maps zeros at pages that are not mapped, to be read and written.
fn map(rt: &impl Abort, pages: &mut Pages, first: u32, end: u32) {
    for page in first..end {
        assert!(rt; page < 0x10_0000 && !pages.is_mapped(page));
        assert_eq!(rt; pages.map_zero(page, READ | WRITE), Ok(()));
    }
}

#[test]
fn a_copy_is_equal_and_its_own(rt: HostRuntime) {
    let mut pages = Pages::new(rt.alloc());
    assert_eq!(rt; pages.count(), 0);
    map(&rt, &mut pages, 16, 17);
    assert_eq!(rt; pages.store(0x10FFF, 1, 9), Ok(()));
    match pages.copy() {
        Err(_) => assert!(rt; false, "there is memory for a copy"),
        Ok(copy) => {
            assert_eq!(rt; pages.store(0x10FFF, 1, 8), Ok(()));
            assert_eq!(rt; copy.count(), 1);
            assert_eq!(rt; copy.rights(16), Some(6));
            assert_eq!(rt; copy.byte(0x10FFF), Some(9));
            assert_eq!(rt; copy.byte(0x10FFE), Some(0));
        }
    }
    assert_eq!(rt; pages.load(0x10FFF, 1, READ), Ok(8));
    assert_eq!(rt;
        pages.load(0x10FFF, 2, READ),
        Err(Refused { addr: 0x11000 })
    );
    assert_eq!(rt;
        pages.load(0x10FFF, 1, READ + 1),
        Err(Refused { addr: 0x10FFF })
    );
}

#[test]
fn a_store_past_the_stack_changes_nothing(rt: HostRuntime) {
    let mut pages = Pages::new(rt.alloc());
    map(&rt, &mut pages, 0x7FFF0, 0x80000);
    assert_eq!(rt; pages.count(), 16);
    assert_eq!(rt;
        pages.store(0x7FFF_FFFE, 4, 7),
        Err(Refused { addr: 0x8000_0000 })
    );
    assert_eq!(rt; pages.byte(0x7FFF_FFFE), Some(0));
    assert_eq!(rt; pages.byte(0x7FFF_FFFF), Some(0));
    assert_eq!(rt; pages.store(0x7FFF_FFFC, 4, 7), Ok(()));
    assert_eq!(rt; pages.load_4(0x7FFF_FFFC, READ), Ok(7));
}

#[test]
fn addresses_wrap_in_loads_and_stores_alone(rt: HostRuntime) {
    let mut pages = Pages::new(rt.alloc());
    map(&rt, &mut pages, 0xFFFFF, 0x10_0000);
    assert_eq!(rt;
        pages.store(0xFFFF_FFFE, 4, 0x0403_0201),
        Err(Refused { addr: 0 })
    );
    map(&rt, &mut pages, 0, 1);
    assert_eq!(rt; pages.store(0xFFFF_FFFE, 4, 0x0403_0201), Ok(()));
    assert_eq!(rt; pages.load(0xFFFF_FFFE, 4, READ), Ok(0x0403_0201));
    assert_eq!(rt; pages.load_2(0xFFFF_FFFF, READ), Ok(0x0302));
    assert_eq!(rt; pages.load_1(1, READ), Ok(4));
    let mut into = [9u8; 3];
    assert_eq!(rt;
        pages.copy_out(0xFFFF_FFFE, &mut into),
        Err(Refused { addr: 0 })
    );
    assert_eq!(rt; into, [9, 9, 9]);
    assert_eq!(rt; pages.copy_out(0xFFFF_FFFE, &mut into[..2]), Ok(()));
    assert_eq!(rt; into, [1, 2, 9]);
    assert_eq!(rt;
        pages.copy_in(0xFFFF_FFFE, &[5, 6, 7]),
        Err(Refused { addr: 0 })
    );
    assert_eq!(rt; pages.byte(0xFFFF_FFFF), Some(2));
    assert_eq!(rt; pages.covers(0xFFFF_FFFE, 2, WRITE), Ok(()));
    assert_eq!(rt;
        pages.covers(0xFFFF_FFFE, 3, WRITE),
        Err(Refused { addr: 0 })
    );
    pages.write(0xFFFF_FFFE, &[5, 6, 7]);
    assert_eq!(rt; pages.load_4(0xFFFF_FFFE, READ), Ok(0x0407_0605));
}

#[test]
fn pages_are_mapped_and_unmapped(rt: HostRuntime) {
    let mut pages = Pages::new(rt.alloc());
    map(&rt, &mut pages, 16, 18);
    assert_eq!(rt; pages.store_2(0x10FFF, 0x0201), Ok(()));
    assert_eq!(rt; pages.store_1(0x11001, 3), Ok(()));
    assert_eq!(rt; pages.load_4(0x10FFE, READ), Ok(0x0302_0100));
    assert_eq!(rt; pages.copy_in(0x10FFE, &[4, 5, 6]), Ok(()));
    assert_eq!(rt; pages.load_4(0x10FFE, READ), Ok(0x0306_0504));
    assert!(rt; pages.set_byte(0x10FFE, 7));
    assert!(rt; !pages.set_byte(0x12000, 7));
    assert_eq!(rt; pages.byte(0x12000), None);
    assert!(rt; pages.unmap(16));
    assert!(rt; !pages.unmap(16));
    assert_eq!(rt;
        (pages.count(), pages.rights(16), pages.rights(17)),
        (1, None, Some(6))
    );
}

#[test]
fn ranges_are_mapped_counted_and_unmapped(rt: HostRuntime) {
    let mut pages = Pages::new(rt.alloc());
    assert_eq!(rt; pages.next_page(0), None);
    map(&rt, &mut pages, 1030, 1031);
    assert_eq!(rt; pages.map_range(1020, 1032, 1), Ok(()));
    assert_eq!(rt; pages.count(), 12);
    assert_eq!(rt;
        (pages.rights(1020), pages.rights(1030)),
        (Some(1), Some(7))
    );
    assert_eq!(rt; pages.map_range(0xFFFFF, 0x10_0000, 4), Ok(()));
    assert_eq!(rt; pages.count_range(0, 1024), 4);
    assert_eq!(rt; pages.count_range(1031, 0x10_0000), 2);
    assert_eq!(rt; pages.count_range(1031, 1031), 0);
    pages.unmap_range(1021, 1031);
    assert_eq!(rt; pages.next_page(0), Some(1020));
    assert_eq!(rt; pages.next_page(1021), Some(1031));
    assert_eq!(rt; pages.next_page(1032), Some(0xFFFFF));
    assert_eq!(rt; pages.next_page(0x10_0000), None);
    assert_eq!(rt; pages.count(), 3);
    assert!(rt; pages.is_mapped(1031));
    pages.fill(1031, 4094, &[1, 2]);
    assert_eq!(rt; pages.byte(1031 * 4096 + 4093), Some(0));
    assert_eq!(rt; pages.byte(1031 * 4096 + 4095), Some(2));
    pages.add_rights(1031, 4);
    assert_eq!(rt; pages.load_2(1031 * 4096 + 4094, READ), Ok(0x0201));
    to_another_thread(pages);
}

/// Stores a number in each of some pages and loads it again, so often that each is cached and gives way to others.
fn go_round(rt: &impl Abort, cached: &mut CachedPages, first: u32, end: u32) {
    for round in 0..40u32 {
        for page in first..end {
            let number = page % 0x1000;
            let addr = number * 4096 + 4 * round;
            assert!(rt; cached.store_4(addr, number + round));
            assert_eq!(rt; cached.load_4(addr), Some(number + round));
        }
    }
}

#[test]
fn cached_pages_are_the_same_pages(rt: HostRuntime) {
    let mut pages = Pages::new(rt.alloc());
    map(&rt, &mut pages, 0x80, 0xA8);
    assert!(rt; !pages.is_mapped(0x20));
    assert_eq!(rt; pages.map_zero(0x20, READ), Ok(()));
    assert!(rt; !pages.is_mapped(0x21));
    assert_eq!(rt; pages.map_zero(0x21, WRITE), Ok(()));
    let mut cached = CachedPages::new(pages);
    go_round(&rt, &mut cached, 0x80, 0xA8);
    for _round in 0..40u32 {
        assert_eq!(rt;
            (cached.load_1(0x20FFF), cached.store_1(0x20FFF, 1)),
            (Some(0), false)
        );
        assert_eq!(rt;
            (cached.load_1(0x21FFF), cached.store_1(0x21FFF, 1)),
            (None, true)
        );
        assert_eq!(rt;
            (cached.load_2(0x22000), cached.store_2(0x22000, 1)),
            (None, false)
        );
        assert_eq!(rt;
            (cached.load_2(0x80FFF), cached.store_2(0x80FFF, 1)),
            (None, false)
        );
        assert_eq!(rt;
            (cached.load_2(0x80FFE), cached.store_2(0x80FFE, 0x0201)),
            (Some(0), true)
        );
        assert!(rt; cached.store_2(0x80FFE, 0));
    }
    let pages = cached.into_pages();
    assert_eq!(rt;
        (pages.count(), pages.rights(0x20), pages.rights(0x21)),
        (42, Some(4), Some(2))
    );
    assert_eq!(rt; pages.load_4(0x90 * 4096 + 4 * 39, READ), Ok(0x90 + 39));
    assert_eq!(rt; pages.byte(0x21FFF), Some(1));
}

/// Takes what may cross threads.
fn to_another_thread<T: Send + Drop>(_value: T) {}
