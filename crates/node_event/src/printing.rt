// Events as text.
ghost use Rattle.std.specs.Prelude.{◌≡◌, Some, IfOk};
ghost use Rattle.std.specs.Fmt.{decimal, signed_decimal};
ghost use Rattle.node_event.specs.Lines.{optional, flag_text, unsent_text, way_text, end_text, kept_text, refusal_text, what_text, event_line};

use crate::event::{Event, Kept, Refusal, Unsent, Way, What};
use call_table::{Bytes, End, NoMemory};
use std::alloc::Global;
use std::fmt;

/// `did`, `broke`, `fell` or `paused`.
impl fmt::Display for Way {
    ghost output = { λ way. Some (way_text way) };

    fn fmt<W: fmt::Write>(&self, f: &mut fmt::Formatter<W>) -> fmt::Result {
        match self {
            Way::Did => write!(f, "did"),
            Way::Broke => write!(f, "broke"),
            Way::Fell => write!(f, "fell"),
            Way::Paused => write!(f, "paused"),
        }
    }
}

/// `ended`, `moving` or `there`.
impl fmt::Display for Refusal {
    ghost output = { λ why. Some (refusal_text why) };

    fn fmt<W: fmt::Write>(&self, f: &mut fmt::Formatter<W>) -> fmt::Result {
        match self {
            Refusal::Ended => write!(f, "ended"),
            Refusal::Moving => write!(f, "moving"),
            Refusal::There => write!(f, "there"),
        }
    }
}

/// A flag, as 0 or 1.
#[derive(Drop)]
struct Flag(bool);

impl fmt::Display for Flag {
    ghost output = { λ flag. Some (flag_text flag.0) };

    fn fmt<W: fmt::Write>(&self, f: &mut fmt::Formatter<W>) -> fmt::Result {
        if self.0 {
            write!(f, "1")
        } else {
            write!(f, "0")
        }
    }
}

/// A number that may be none.
#[derive(Drop)]
struct Number(Option<u32>);

impl fmt::Display for Number {
    ghost output = { λ field. Some (optional decimal field.0) };

    fn fmt<W: fmt::Write>(&self, f: &mut fmt::Formatter<W>) -> fmt::Result {
        match self.0 {
            Some(number) => write!(f, "{number}"),
            None => write!(f, "-"),
        }
    }
}

/// A signed number that may be none.
#[derive(Drop)]
struct Value(Option<i32>);

impl fmt::Display for Value {
    ghost output = { λ field. Some (optional signed_decimal field.0) };

    fn fmt<W: fmt::Write>(&self, f: &mut fmt::Formatter<W>) -> fmt::Result {
        match self.0 {
            Some(value) => write!(f, "{value}"),
            None => write!(f, "-"),
        }
    }
}

/// A node or a signal that may be none.
#[derive(Drop)]
struct Small(Option<u8>);

impl fmt::Display for Small {
    ghost output = { λ field. Some (optional decimal field.0) };

    fn fmt<W: fmt::Write>(&self, f: &mut fmt::Formatter<W>) -> fmt::Result {
        match self.0 {
            Some(number) => write!(f, "{number}"),
            None => write!(f, "-"),
        }
    }
}

/// An end that may be none.
#[derive(Drop)]
struct Ending(Option<End>);

impl fmt::Display for Ending {
    ghost output = { λ field. Some (optional end_text field.0) };

    fn fmt<W: fmt::Write>(&self, f: &mut fmt::Formatter<W>) -> fmt::Result {
        match self.0 {
            Some(End::Exit(code)) => write!(f, "x{code}"),
            Some(End::Signal(signal)) => write!(f, "s{signal}"),
            None => write!(f, "-"),
        }
    }
}

/// The outcome of a command, where it sent nothing.
#[derive(Drop)]
struct Outcome(Option<Unsent>);

impl fmt::Display for Outcome {
    ghost output = { λ field. Some (optional unsent_text field.0) };

    fn fmt<W: fmt::Write>(&self, f: &mut fmt::Formatter<W>) -> fmt::Result {
        match self.0 {
            Some(Unsent::Ended) => write!(f, "ended"),
            Some(Unsent::Never) => write!(f, "none"),
            None => write!(f, "-"),
        }
    }
}

/// What came of a move that was kept, where one was.
#[derive(Drop)]
struct KeptMove(Option<Kept>);

impl fmt::Display for KeptMove {
    ghost output = { λ field. Some (optional kept_text field.0) };

    fn fmt<W: fmt::Write>(&self, f: &mut fmt::Formatter<W>) -> fmt::Result {
        match self.0 {
            Some(Kept::Begins) => write!(f, "begins"),
            Some(Kept::Ended) => write!(f, "ended"),
            None => write!(f, "-"),
        }
    }
}

/// The word of an event and its fields, with one blank between.
impl fmt::Display for What {
    ghost output = { λ what. Some (what_text what) };

    fn fmt<W: fmt::Write>(&self, f: &mut fmt::Formatter<W>) -> fmt::Result {
        match *self {
            What::Command {
                line,
                launched,
                unsent,
                poked,
            } => write!(
                f,
                "command {line} {} {} {}",
                Number(launched),
                Outcome(unsent),
                Number(poked)
            ),
            What::Steps { pid, k } => write!(f, "steps {pid} {k}"),
            What::Sent { pid, number } => write!(f, "sent {pid} {number}"),
            What::Heed { pid } => write!(f, "heed {pid}"),
            What::Held { pid, number } => write!(f, "held {pid} {number}"),
            What::Served {
                pid,
                way,
                number,
                value,
                taken,
                end,
                more,
                poked,
                poked_too,
            } => write!(
                f,
                "served {pid} {way} {} {} {} {} {} {} {}",
                Number(number),
                Value(value),
                Small(taken),
                Ending(end),
                Flag(more),
                Number(poked),
                Number(poked_too)
            ),
            What::Got {
                pid,
                child,
                ended,
                kept,
                to,
            } => write!(
                f,
                "got {pid} {} {} {} {}",
                Number(child),
                Flag(ended),
                KeptMove(kept),
                Small(to)
            ),
            What::Poked { pid, used } => write!(f, "poked {pid} {}", Flag(used)),
            What::Begin { pid, to, line } => write!(f, "begin {pid} {to} {line}"),
            What::Keep { pid, to, line } => write!(f, "keep {pid} {to} {line}"),
            What::Missed { pid, to, line } => write!(f, "missed {pid} {to} {line}"),
            What::Again {
                pid,
                to,
                place,
                line,
            } => write!(f, "again {pid} {to} {place} {line}"),
            What::Allow { pid, from, need } => write!(f, "allow {pid} {from} {need}"),
            What::Deny {
                pid,
                from,
                need,
                free,
            } => write!(f, "deny {pid} {from} {need} {free}"),
            What::Depart { pid, to } => write!(f, "depart {pid} {to}"),
            What::Stay {
                pid,
                to,
                need,
                free,
            } => write!(f, "stay {pid} {to} {need} {free}"),
            What::Land { pid, source } => write!(f, "land {pid} {source}"),
            What::Told {
                pid,
                at,
                source,
                hops,
                line,
                poked,
            } => write!(
                f,
                "told {pid} {at} {source} {hops} {} {}",
                Number(line),
                Number(poked)
            ),
            What::Refused { pid, to, why, line } => write!(f, "refused {pid} {to} {why} {line}"),
            What::Closed { line } => write!(f, "closed {line}"),
            What::Half { other, pid, to } => write!(
                f,
                "half {other} {} {}",
                Number(pid),
                Small(to)
            ),
            What::Heard { other, pid, to } => write!(
                f,
                "heard {other} {} {}",
                Number(pid),
                Small(to)
            ),
            What::Strange => write!(f, "strange"),
        }
    }
}

/// The line of an event, without a newline.
impl fmt::Display for Event {
    ghost output = { λ event. Some (event_line event) };

    fn fmt<W: fmt::Write>(&self, f: &mut fmt::Formatter<W>) -> fmt::Result {
        write!(f, "{} {} {}", self.stamp, self.node, self.what)
    }
}

/// The line of an event, without a newline. That of `Strange`, which no event of a run is, has the word `strange`, and is never read.
pub fn print_event(alloc: Global, event: &Event) -> Result<Bytes, NoMemory>
    ensures { IfOk result (λ line. line ≡ event_line event.now) }
{
    let line = format!(in alloc; "{event}")?;
    Ok(Bytes::from_vec(line.into_bytes()))
}
