// The order of a line, by its words.
ghost use Rattle.std.specs.Prelude.{◌≡◌, IfOk, nat_eq, codes, true};
ghost use Rattle.std.specs.List.{list_all, starts_with};
ghost use Rattle.node_event.specs.declared.script.Order.TheVariants as order;
ghost use Rattle.shell_text.specs.Lexing.{is_text_byte, words_of};
ghost use Rattle.shell_text.specs.Numbers.{pid_of, count_of, slots_of, node_of, signal_of};
ghost use Rattle.shell_text.specs.Orders.{is_comment, fed, alone, with_one, with_two, run_of, order_of, order_named, order_on, some_order};

use crate::fault::FaultKind;
use crate::keyword::{Keyword, keyword_named};
use crate::lexing::next_word;
use crate::number::{count_of, node_of, pid_of, signal_of, slots_of};
use call_table::{Bytes, NoMemory, Text, Words};
use node_event::Order;
use std::alloc::Global;

/// The order, where no word stands behind it.
fn alone(order: Order, args: &[u8]) -> Result<Order, FaultKind>
    ensures { result ≡ alone order (words_of args.now) }
{
    match next_word(args) {
        Some(_) => Err(FaultKind::Extra),
        None => Ok(order),
    }
}

fn kill_by(pid: u32, args: &[u8]) -> Result<Order, FaultKind>
    ensures { result ≡ with_one signal_of (order.Kill pid) (words_of args.now) }
{
    match next_word(args) {
        Some((word, rest)) => match signal_of(word) {
            Ok(signal) => alone(Order::Kill { pid, signal }, rest),
            Err(kind) => Err(kind),
        },
        None => Err(FaultKind::Missing),
    }
}

fn kill(args: &[u8]) -> Result<Order, FaultKind>
    ensures { result ≡ with_two pid_of signal_of order.Kill (words_of args.now) }
{
    match next_word(args) {
        Some((word, rest)) => match pid_of(word) {
            Ok(pid) => kill_by(pid, rest),
            Err(kind) => Err(kind),
        },
        None => Err(FaultKind::Missing),
    }
}

fn move_to(nodes: u8, pid: u32, args: &[u8]) -> Result<Order, FaultKind>
    ensures { result ≡ with_one (node_of nodes) (order.Move pid) (words_of args.now) }
{
    match next_word(args) {
        Some((word, rest)) => match node_of(nodes, word) {
            Ok(to) => alone(Order::Move { pid, to }, rest),
            Err(kind) => Err(kind),
        },
        None => Err(FaultKind::Missing),
    }
}

fn move_order(nodes: u8, args: &[u8]) -> Result<Order, FaultKind>
    ensures { result ≡ with_two pid_of (node_of nodes) order.Move (words_of args.now) }
{
    match next_word(args) {
        Some((word, rest)) => match pid_of(word) {
            Ok(pid) => move_to(nodes, pid, rest),
            Err(kind) => Err(kind),
        },
        None => Err(FaultKind::Missing),
    }
}

fn after_calls(pid: u32, args: &[u8]) -> Result<Order, FaultKind>
    ensures { result ≡ with_one count_of (order.After pid) (words_of args.now) }
{
    match next_word(args) {
        Some((word, rest)) => match count_of(word) {
            Ok(count) => alone(Order::After { pid, count }, rest),
            Err(kind) => Err(kind),
        },
        None => Err(FaultKind::Missing),
    }
}

fn after(args: &[u8]) -> Result<Order, FaultKind>
    ensures { result ≡ with_two pid_of count_of order.After (words_of args.now) }
{
    match next_word(args) {
        Some((word, rest)) => match pid_of(word) {
            Ok(pid) => after_calls(pid, rest),
            Err(kind) => Err(kind),
        },
        None => Err(FaultKind::Missing),
    }
}

fn wait(args: &[u8]) -> Result<Order, FaultKind>
    ensures { result ≡ with_one pid_of order.Wait (words_of args.now) }
{
    match next_word(args) {
        Some((word, rest)) => match pid_of(word) {
            Ok(pid) => alone(Order::Wait { pid }, rest),
            Err(kind) => Err(kind),
        },
        None => Err(FaultKind::Missing),
    }
}

fn held(args: &[u8]) -> Result<Order, FaultKind>
    ensures { result ≡ with_one pid_of order.Held (words_of args.now) }
{
    match next_word(args) {
        Some((word, rest)) => match pid_of(word) {
            Ok(pid) => alone(Order::Held { pid }, rest),
            Err(kind) => Err(kind),
        },
        None => Err(FaultKind::Missing),
    }
}

fn slots(args: &[u8]) -> Result<Order, FaultKind>
    ensures { result ≡ with_one slots_of order.Slots (words_of args.now) }
{
    match next_word(args) {
        Some((word, rest)) => match slots_of(word) {
            Ok(count) => alone(Order::Slots { count }, rest),
            Err(kind) => Err(kind),
        },
        None => Err(FaultKind::Missing),
    }
}

/// The bytes behind `type` and one blank, and a newline.
fn fed(alloc: Global, rest: &[u8]) -> Result<Bytes, NoMemory>
    ensures { IfOk result (λ text. text ≡ fed rest.now) }
{
    let text = match rest {
        [_, text @ ..] => text,
        [] => rest,
    };
    let mut bytes = Bytes::from_slice(alloc, text)?;
    bytes.push(b'\n')?;
    Ok(bytes)
}

/// The bytes of a line as a text: they are ASCII.
fn text_of(word: &[u8]) -> &str
    requires { list_all is_text_byte word.now ≡ true }
    ensures { result.now ≡ word.now }
{
    match str::from_utf8(word) {
        Ok(text) => text,
        Err(_) => "",
    }
}

/// All words.
fn all_words(alloc: Global, args: &[u8]) -> Result<Words, NoMemory>
    requires { list_all is_text_byte args.now ≡ true }
    ensures { IfOk result (λ words. words ≡ words_of args.now) }
{
    let mut words = Words::new(alloc);
    let mut rest = args;
    while let Some((word, behind)) = next_word(rest) {
        words.push(Text::new(alloc, text_of(word))?)?;
        rest = behind;
    }
    Ok(words)
}

fn run(alloc: Global, args: &[u8]) -> Result<Result<Order, FaultKind>, NoMemory>
    requires { list_all is_text_byte args.now ≡ true }
    ensures { IfOk result (λ r. r ≡ run_of (words_of args.now)) }
{
    if next_word(args).is_none() {
        return Ok(Err(FaultKind::Missing));
    }
    Ok(Ok(Order::Run {
        words: all_words(alloc, args)?,
    }))
}

/// The order of a keyword and of what stands behind it, or what is wrong.
fn order_of(
    alloc: Global,
    nodes: u8,
    keyword: Keyword,
    rest: &[u8],
) -> Result<Result<Order, FaultKind>, NoMemory>
    requires { list_all is_text_byte rest.now ≡ true }
    ensures { IfOk result (λ r. r ≡ order_of nodes keyword rest.now) }
{
    match keyword {
        Keyword::Run => run(alloc, rest),
        Keyword::Kill => Ok(kill(rest)),
        Keyword::Move => Ok(move_order(nodes, rest)),
        Keyword::Feed => Ok(Ok(Order::Feed {
            text: fed(alloc, rest)?,
        })),
        Keyword::Eof => Ok(alone(Order::Eof, rest)),
        Keyword::Wait => Ok(wait(rest)),
        Keyword::After => Ok(after(rest)),
        Keyword::Held => Ok(held(rest)),
        Keyword::Slots => Ok(slots(rest)),
    }
}

fn order_named(
    alloc: Global,
    nodes: u8,
    name: &[u8],
    rest: &[u8],
) -> Result<Result<Order, FaultKind>, NoMemory>
    requires { list_all is_text_byte rest.now ≡ true }
    ensures { IfOk result (λ r. r ≡ order_named nodes name.now rest.now) }
{
    match keyword_named(name) {
        Some(keyword) => order_of(alloc, nodes, keyword, rest),
        None => Ok(Err(FaultKind::UnknownWord)),
    }
}

fn is_comment(name: &[u8]) -> bool
    ensures { result ≡ is_comment name.now }
{
    name.starts_with(b"#")
}

fn some_order(order: Result<Order, FaultKind>) -> Result<Option<Order>, FaultKind>
    ensures { result ≡ some_order order }
{
    match order {
        Ok(order) => Ok(Some(order)),
        Err(kind) => Err(kind),
    }
}

/// The order of a line of allowed bytes, where it does something, or what is wrong with it.
pub fn order_on(
    alloc: Global,
    nodes: u8,
    line: &[u8],
) -> Result<Result<Option<Order>, FaultKind>, NoMemory>
    requires { list_all is_text_byte line.now ≡ true }
    ensures { IfOk result (λ r. r ≡ order_on nodes line.now) }
{
    match next_word(line) {
        Some((name, rest)) => {
            if is_comment(name) {
                Ok(Ok(None))
            } else {
                Ok(some_order(order_named(alloc, nodes, name, rest)?))
            }
        }
        None => Ok(Ok(None)),
    }
}
