// From texts to processes, by the assembler and the loader.
ghost use Rattle.std.specs.Prelude.{◌≤◌, IfOk};
ghost use Rattle.elf_load.specs.Image.{start_size};

use call_table::{NoMemory, Text, Words};
use elf_load::{LoadError, load};
use rv_asm::assemble;
use std::alloc::{AllocGlobal, Global};
use std::test::Fail;
use user_ctx::Stop;

/// The word `text` alone.
fn one_word(alloc: Global) -> Result<Words, NoMemory>
    ensures { IfOk result (λ w. start_size w ≤ 8192) }
{
    let mut words = Words::new(alloc);
    words.push(Text::new(alloc, "text")?)?;
    Ok(words)
}

/// The pages that a text's process has; its fault's number where there is none, and 0 where the text is refused.
fn pages_or_fault(alloc: Global, text: &[u8], words: &Words) -> u32
    requires { start_size words.now ≤ 8192 }
{
    match assemble(alloc, text) {
        Ok(file) => match load(alloc, file.as_slice(), words) {
            Ok(user) => user.need(),
            Err(LoadError::Image(fault)) => fault.number() as u32,
            Err(LoadError::NoMemory) => 0,
        },
        Err(_) => 0,
    }
}

/// Pages beside the stack's 16, and texts that take no memory.
#[test]
fn sizes(rt: HostRuntime) -> Result<(), Fail> {
    let alloc = rt.alloc();
    let words = one_word(alloc)?;
    assert_eq!(rt; pages_or_fault(alloc, b"addi a0, x0, 5", &words), 17);
    assert_eq!(rt; pages_or_fault(alloc, b".byte 7\n.bss 4095", &words), 17);
    assert_eq!(rt; pages_or_fault(alloc, b".byte 7\n.bss 4096", &words), 18);
    assert_eq!(rt; pages_or_fault(alloc, b".space 4128768", &words), 1024);
    assert_eq!(rt; pages_or_fault(alloc, b"", &words), 11);
    assert_eq!(rt; pages_or_fault(alloc, b".align", &words), 11);
    assert_eq!(rt; pages_or_fault(alloc, b".space 0\n.bss 0", &words), 11);
    Ok(())
}

/// A text that reads its own last byte and writes behind it.
#[test]
fn starts_at_its_first_byte(rt: HostRuntime) -> Result<(), Fail> {
    let alloc = rt.alloc();
    let words = one_word(alloc)?;
    let text = b"la a1, data\nlb a0, 0(a1)\nsb a0, 1(a1)\nsys 1\ndata: .byte 7\n.bss 1";
    let file = assemble(alloc, text.as_slice())?;
    let mut user = load(alloc, file.as_slice(), &words)?;
    assert_eq!(rt; user.run(10), (6, Stop::AtCall));
    Ok(())
}
