ghost use Rattle.std.specs.Prelude.{◌≤◌, ◌<◌, ◌+◌, ◌^◌, IfOk};
ghost use Rattle.elf_load.specs.Image.{start_size};

use super::*;
use crate::{header, loader, stack};
use call_table::{NoMemory, Request, Text, Words};
use page_set::Pages;
use std::alloc::Global;
use std::test::Fail;
use user_ctx::Stop;

/// Writes `hi` and a newline, and exits.
const HELLO: [u8; 123] = [
    0x7f, 0x45, 0x4c, 0x46, 0x01, 0x01, 0x01, 0x00, 0x00, 0x00, 0x00, 0x00, 0x00, 0x00, 0x00, 0x00,
    0x02, 0x00, 0xf3, 0x00, 0x01, 0x00, 0x00, 0x00, 0x00, 0x00, 0x01, 0x00, 0x34, 0x00, 0x00, 0x00,
    0x00, 0x00, 0x00, 0x00, 0x00, 0x00, 0x00, 0x00, 0x34, 0x00, 0x20, 0x00, 0x01, 0x00, 0x00, 0x00,
    0x00, 0x00, 0x00, 0x00, 0x01, 0x00, 0x00, 0x00, 0x54, 0x00, 0x00, 0x00, 0x00, 0x00, 0x01, 0x00,
    0x00, 0x00, 0x01, 0x00, 0x27, 0x00, 0x00, 0x00, 0x27, 0x00, 0x00, 0x00, 0x07, 0x00, 0x00, 0x00,
    0x04, 0x00, 0x00, 0x00, 0x13, 0x05, 0x10, 0x00, 0xb7, 0x05, 0x01, 0x00, 0x93, 0x85, 0x45, 0x02,
    0x13, 0x06, 0x30, 0x00, 0x93, 0x08, 0x90, 0x00, 0x73, 0x00, 0x00, 0x00, 0x13, 0x05, 0x00, 0x00,
    0x93, 0x08, 0x10, 0x00, 0x73, 0x00, 0x00, 0x00, 0x68, 0x69, 0x0a,
];

/// The word `hello` alone.
fn hello_words(alloc: Global) -> Result<Words, NoMemory>
    ensures { IfOk result (λ w. start_size w ≤ 8192) }
{
    let mut words = Words::new(alloc);
    words.push(Text::new(alloc, "hello")?)?;
    Ok(words)
}

/// The number of the fault; 0 where the file is accepted, 255 at want of memory.
fn verdict(alloc: Global, file: &[u8], words: &Words) -> u8
    requires { start_size words.now ≤ 8192 }
{
    match load(alloc, file, words) {
        Ok(_) => 0,
        Err(LoadError::Image(fault)) => fault.number(),
        Err(LoadError::NoMemory) => 255,
    }
}

fn pages_of(alloc: Global, file: &[u8], words: &Words) -> Result<Pages, LoadError>
    requires { start_size words.now ≤ 8192 }
{
    match header::header_fault(file) {
        Some(fault) => return Err(LoadError::Image(fault)),
        None => {}
    }
    let headers = match header::headers(alloc, file) {
        Ok(headers) => headers,
        Err(_) => return Err(LoadError::NoMemory),
    };
    match header::segment_fault(file, headers.as_slice()) {
        Some(fault) => return Err(LoadError::Image(fault)),
        None => {}
    }
    loader::image_pages(alloc, file, headers.as_slice(), words)
}

fn bytes_at(pages: &Pages, addr: u32) -> [Option<u8>; 8]
    requires { addr + 8 ≤ 2 ^ 32 }
{
    let mut bytes = [None; 8];
    for i in 0..8u32 {
        bytes[i as usize] = pages.byte(addr + i);
    }
    bytes
}

/// `hello` starts as its file and its word say, and runs to its first call.
#[test]
fn starts_hello(rt: HostRuntime) -> Result<(), Fail> {
    let alloc = rt.alloc();
    let words = hello_words(alloc)?;
    let mut user = load(alloc, HELLO.as_slice(), &words)?;
    assert_eq!(rt; (user.need(), user.pid(), user.count()), (17, 0, 0));
    assert_eq!(rt; user.run(10), (5, Stop::AtCall));
    assert_eq!(rt; stack::table_start(&words), 0x7fff_fff0);
    let pages = pages_of(alloc, HELLO.as_slice(), &words)?;
    let code = [0x13, 0x05, 0x10, 0, 0xb7, 5, 1, 0].map(|b| Some(b));
    let table = [0xfa, 0xff, 0xff, 0x7f, 0, 0, 0, 0].map(|b| Some(b));
    let word = [0, 0, b'h', b'e', b'l', b'l', b'o', 0].map(|b| Some(b));
    assert_eq!(rt; bytes_at(&pages, 0x1_0000), code);
    assert_eq!(rt; bytes_at(&pages, 0x7fff_fff0), table);
    assert_eq!(rt; bytes_at(&pages, 0x7fff_fff8), word);
    assert_eq!(rt;
        (pages.rights(0x10), pages.rights(0x7fff0)),
        (Some(7), Some(6))
    );
    Ok(())
}

/// The words `hello` and `a`.
fn two_words(alloc: Global) -> Result<Words, NoMemory>
    ensures { IfOk result (λ w. start_size w ≤ 8192) }
{
    let mut words = Words::new(alloc);
    words.push(Text::new(alloc, "hello")?)?;
    words.push(Text::new(alloc, "a")?)?;
    Ok(words)
}

/// An executable of these instructions, whose segment takes so many bytes of memory.
fn program(instructions: [u32; 5], memory_size: u32) -> [u8; 104] {
    let mut file = [0; 104];
    file[..84].copy_from_slice(&HELLO[..84]);
    file[68] = 20;
    file[72..76].copy_from_slice(&memory_size.to_le_bytes());
    for i in 0..5usize {
        let place = 84 + 4 * i;
        file[place..place + 4].copy_from_slice(&instructions[i].to_le_bytes());
    }
    file
}

/// What a program asks at its first call that does not end where it runs.
fn first_request(alloc: Global, file: &[u8], words: &Words) -> Option<Request>
    requires { start_size words.now ≤ 8192 }
{
    let mut user = match load(alloc, file, words) {
        Ok(user) => user,
        Err(_) => return None,
    };
    match user.run(100) {
        (_, Stop::AtCall) => match user.request(alloc) {
            Ok(request) => Some(request),
            Err(_) => None,
        },
        _ => None,
    }
}

/// A process starts with the number of its words in a0, their table in a1, and the stack pointer at or below that.
///
/// `hello` and `a` take 8 bytes with their zeros, from 0x7FFFFFF8 on. Below them stand three words, the table.
#[test]
fn start_registers(rt: HostRuntime) -> Result<(), Fail> {
    let words = two_words(rt.alloc())?;
    // addi a2, sp, 0; addi a7, x0, 1; ecall
    let file = program([0x0001_0613, 0x0010_0893, 0x73, 0, 0], 20);
    match first_request(rt.alloc(), file.as_slice(), &words) {
        Some(request) => {
            assert_eq!(rt; request.number, 1);
            assert_eq!(rt; request.args, [2, 0x7fff_ffec, 0x7fff_ffe0, 0, 0, 0]);
        }
        None => assert!(rt; false),
    }
    Ok(())
}

/// A process that writes its stack from its table on.
#[test]
fn start_stack(rt: HostRuntime) -> Result<(), Fail> {
    let words = two_words(rt.alloc())?;
    // addi a2, x0, 20; addi a7, x0, 9; ecall
    let file = program([0x0140_0613, 0x0090_0893, 0x73, 0, 0], 20);
    let stack = b"\xf8\xff\xff\x7f\xfe\xff\xff\x7f\0\0\0\0hello\0a\0";
    match first_request(rt.alloc(), file.as_slice(), &words) {
        Some(request) => assert_eq!(rt; request.bytes.as_slice(), stack.as_slice()),
        None => assert!(rt; false),
    }
    Ok(())
}

/// A process asks for its break: the first page boundary at or above its segment's end.
#[test]
fn start_break(rt: HostRuntime) -> Result<(), Fail> {
    let words = two_words(rt.alloc())?;
    // addi a0, x0, 0; addi a7, x0, 18; ecall; addi a7, x0, 1; ecall
    let code = [0x513, 0x0120_0893, 0x73, 0x0010_0893, 0x73];
    for (memory_size, base) in [(20, 0x1_1000), (4096, 0x1_1000), (4097, 0x1_2000)] {
        let file = program(code, memory_size);
        match first_request(rt.alloc(), file.as_slice(), &words) {
            Some(request) => assert_eq!(rt; request.args[0], base, "{memory_size} bytes"),
            None => assert!(rt; false, "{memory_size} bytes"),
        }
    }
    Ok(())
}

/// The first bytes of `hello`.
#[test]
fn short_files(rt: HostRuntime) -> Result<(), Fail> {
    let words = hello_words(rt.alloc())?;
    for n in 0..124usize {
        let want = match n {
            0..=51 => 1,
            52..=83 => 6,
            84..=122 => 8,
            _ => 0,
        };
        assert_eq!(rt; verdict(rt.alloc(), &HELLO[..n], &words), want, "{n} bytes");
    }
    Ok(())
}

/// `hello` with one byte of its headers changed to 0xFF.
#[test]
fn changed_headers(rt: HostRuntime) -> Result<(), Fail> {
    let words = hello_words(rt.alloc())?;
    for i in 0..84usize {
        let want = match i {
            0..=6 | 20..=23 => 2,
            16 | 17 => 3,
            18 | 19 => 4,
            36 => 5,
            28..=31 | 42..=45 => 6,
            56..=59 | 68..=71 => 8,
            63 | 75 => 9,
            74 => 10,
            24..=27 | 52..=55 | 61 | 62 => 11,
            _ => 0,
        };
        let mut file = HELLO;
        file[i] = 0xff;
        assert_eq!(rt;
            verdict(rt.alloc(), file.as_slice(), &words),
            want,
            "byte {i}"
        );
    }
    Ok(())
}

/// Writes the numbers of a program header.
fn write_header(file: &mut [u8; 155], at: usize, numbers: [u32; 8])
    requires { at + 32 ≤ 155 }
{
    for i in 0..8usize {
        let place = at + 4 * i;
        file[place..place + 4].copy_from_slice(&numbers[i].to_le_bytes());
    }
}

/// `hello` with a second program header of a type, and its code at 116.
fn with_second(kind: u32) -> [u8; 155] {
    let mut file = [0; 155];
    file[..84].copy_from_slice(&HELLO[..84]);
    file[44] = 2;
    file[56] = 116;
    write_header(&mut file, 84, [kind, 0, 0, 0, 0, 0, 0, 0]);
    file[116..].copy_from_slice(&HELLO[84..]);
    file
}

/// Program headers that are passed over, and those that are refused.
#[test]
fn program_headers(rt: HostRuntime) -> Result<(), Fail> {
    let words = hello_words(rt.alloc())?;
    for (kind, want) in [(4, 0), (0x7000_0003, 0), (1, 0), (2, 7), (3, 7)] {
        let file = with_second(kind);
        assert_eq!(rt;
            verdict(rt.alloc(), file.as_slice(), &words),
            want,
            "type {kind}"
        );
    }
    let mut file = HELLO;
    file[72] = 38;
    assert_eq!(rt;
        verdict(rt.alloc(), file.as_slice(), &words),
        8,
        "memory size"
    );
    file[72] = 39;
    file[76] = 6;
    assert_eq!(rt;
        verdict(rt.alloc(), file.as_slice(), &words),
        11,
        "no right to execute"
    );
    let table = [
        ([1, 116, 0x1000, 0, 39, 0x1000, 5, 4], 0),
        ([1, 116, 0xfff, 0, 39, 39, 5, 4], 9),
        ([1, 116, 0x6fff_f000, 0, 39, 0x1001, 5, 4], 9),
        ([1, 116, 0x2_0000, 0, 39, 1007 * 4096, 5, 4], 0),
        ([1, 116, 0x2_0000, 0, 39, 1007 * 4096 + 1, 5, 4], 10),
        ([1, 117, 0x2_0000, 0, 39, 39, 5, 4], 8),
        ([1, u32::MAX, 0x2_0000, 0, 0, 39, 5, 4], 0),
    ];
    for (numbers, want) in table {
        let mut file = with_second(4);
        write_header(&mut file, 84, numbers);
        assert_eq!(rt;
            verdict(rt.alloc(), file.as_slice(), &words),
            want,
            "{numbers:?}"
        );
    }
    Ok(())
}

/// Two segments that overlap: the later one overwrites, with zeros too, and rights are joined.
#[test]
fn overlapping_segments(rt: HostRuntime) -> Result<(), Fail> {
    let words = hello_words(rt.alloc())?;
    let mut file = with_second(4);
    write_header(&mut file, 52, [1, 116, 0x1_0000, 0, 6, 4097, 5, 4]);
    write_header(&mut file, 84, [1, 120, 0x1_0001, 0, 1, 2, 2, 4]);
    let pages = pages_of(rt.alloc(), file.as_slice(), &words)?;
    let want = [0x13, 0xb7, 0, 0, 0xb7, 5, 0, 0].map(|b| Some(b));
    assert_eq!(rt; bytes_at(&pages, 0x1_0000), want);
    assert_eq!(rt;
        (pages.rights(0x10), pages.rights(0x11)),
        (Some(7), Some(5))
    );
    assert_eq!(rt; (pages.count(), pages.byte(0x1_1000)), (18, Some(0)));
    Ok(())
}
