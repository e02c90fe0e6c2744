// Lines read as events.
ghost use Rattle.std.specs.Prelude.{◌≡◌, IfSome, Some};
ghost use Rattle.std.specs.Option.{option_map};
ghost use Rattle.node_event.specs.declared.event.Event.{Event};
ghost use Rattle.node_event.specs.Lines.{HasLine, event_line};
ghost use Rattle.node_event.specs.Reading.{at_end, command_at, steps_at, sent_at, heed_at, held_at, served_at, got_at, poked_at, begin_at, keep_at, missed_at, again_at, allow_at, deny_at, depart_at, stay_at, land_at, told_at, refused_at, closed_at, half_at, heard_at, named, applied, move_words, answer_words, what_at, stamp_at, event_of};

use crate::event::{Event, What};
use crate::fields;
use crate::word::{field, first_word, is, number_up_to};

/// `what`, where nothing is left of the line.
fn at_end(rest: &[u8], what: What) -> Option<What>
    ensures { result ≡ at_end what rest.now }
{
    if rest.is_empty() { Some(what) } else { None }
}

#[tactic(auto, unfolding(crate::specs::Reading::command_at))]
fn command(rest: &[u8]) -> Option<What>
    ensures { result ≡ command_at rest.now }
{
    let (line, rest) = fields::number(rest)?;
    let (launched, rest) = fields::maybe_number(rest)?;
    let (unsent, rest) = fields::maybe_unsent(rest)?;
    let (poked, rest) = fields::maybe_number(rest)?;
    at_end(
        rest,
        What::Command {
            line,
            launched,
            unsent,
            poked,
        },
    )
}

#[tactic(auto, unfolding(crate::specs::Reading::steps_at))]
fn steps(rest: &[u8]) -> Option<What>
    ensures { result ≡ steps_at rest.now }
{
    let (pid, rest) = fields::number(rest)?;
    let (k, rest) = fields::number(rest)?;
    at_end(rest, What::Steps { pid, k })
}

#[tactic(auto, unfolding(crate::specs::Reading::sent_at))]
fn sent(rest: &[u8]) -> Option<What>
    ensures { result ≡ sent_at rest.now }
{
    let (pid, rest) = fields::number(rest)?;
    let (number, rest) = fields::number(rest)?;
    at_end(rest, What::Sent { pid, number })
}

#[tactic(auto, unfolding(crate::specs::Reading::heed_at))]
fn heed(rest: &[u8]) -> Option<What>
    ensures { result ≡ heed_at rest.now }
{
    let (pid, rest) = fields::number(rest)?;
    at_end(rest, What::Heed { pid })
}

#[tactic(auto, unfolding(crate::specs::Reading::held_at))]
fn held(rest: &[u8]) -> Option<What>
    ensures { result ≡ held_at rest.now }
{
    let (pid, rest) = fields::number(rest)?;
    let (number, rest) = fields::number(rest)?;
    at_end(rest, What::Held { pid, number })
}

#[tactic(auto, unfolding(crate::specs::Reading::served_at))]
fn served(rest: &[u8]) -> Option<What>
    ensures { result ≡ served_at rest.now }
{
    let (pid, rest) = fields::number(rest)?;
    let (way, rest) = fields::way(rest)?;
    let (number, rest) = fields::maybe_number(rest)?;
    let (value, rest) = fields::maybe_integer(rest)?;
    let (taken, rest) = fields::maybe_small(rest)?;
    let (end, rest) = fields::maybe_end(rest)?;
    let (more, rest) = fields::flag(rest)?;
    let (poked, rest) = fields::maybe_number(rest)?;
    let (poked_too, rest) = fields::maybe_number(rest)?;
    at_end(
        rest,
        What::Served {
            pid,
            way,
            number,
            value,
            taken,
            end,
            more,
            poked,
            poked_too,
        },
    )
}

#[tactic(auto, unfolding(crate::specs::Reading::got_at))]
fn got(rest: &[u8]) -> Option<What>
    ensures { result ≡ got_at rest.now }
{
    let (pid, rest) = fields::number(rest)?;
    let (child, rest) = fields::maybe_number(rest)?;
    let (ended, rest) = fields::flag(rest)?;
    let (kept, rest) = fields::maybe_kept(rest)?;
    let (to, rest) = fields::maybe_small(rest)?;
    at_end(
        rest,
        What::Got {
            pid,
            child,
            ended,
            kept,
            to,
        },
    )
}

#[tactic(auto, unfolding(crate::specs::Reading::poked_at))]
fn poked(rest: &[u8]) -> Option<What>
    ensures { result ≡ poked_at rest.now }
{
    let (pid, rest) = fields::number(rest)?;
    let (used, rest) = fields::flag(rest)?;
    at_end(rest, What::Poked { pid, used })
}

#[tactic(auto, unfolding(crate::specs::Reading::begin_at))]
fn begin(rest: &[u8]) -> Option<What>
    ensures { result ≡ begin_at rest.now }
{
    let (pid, rest) = fields::number(rest)?;
    let (to, rest) = fields::small(rest)?;
    let (line, rest) = fields::number(rest)?;
    at_end(rest, What::Begin { pid, to, line })
}

#[tactic(auto, unfolding(crate::specs::Reading::keep_at))]
fn keep(rest: &[u8]) -> Option<What>
    ensures { result ≡ keep_at rest.now }
{
    let (pid, rest) = fields::number(rest)?;
    let (to, rest) = fields::small(rest)?;
    let (line, rest) = fields::number(rest)?;
    at_end(rest, What::Keep { pid, to, line })
}

#[tactic(auto, unfolding(crate::specs::Reading::missed_at))]
fn missed(rest: &[u8]) -> Option<What>
    ensures { result ≡ missed_at rest.now }
{
    let (pid, rest) = fields::number(rest)?;
    let (to, rest) = fields::small(rest)?;
    let (line, rest) = fields::number(rest)?;
    at_end(rest, What::Missed { pid, to, line })
}

#[tactic(auto, unfolding(crate::specs::Reading::again_at))]
fn again(rest: &[u8]) -> Option<What>
    ensures { result ≡ again_at rest.now }
{
    let (pid, rest) = fields::number(rest)?;
    let (to, rest) = fields::small(rest)?;
    let (place, rest) = fields::small(rest)?;
    let (line, rest) = fields::number(rest)?;
    at_end(
        rest,
        What::Again {
            pid,
            to,
            place,
            line,
        },
    )
}

#[tactic(auto, unfolding(crate::specs::Reading::allow_at))]
fn allow(rest: &[u8]) -> Option<What>
    ensures { result ≡ allow_at rest.now }
{
    let (pid, rest) = fields::number(rest)?;
    let (from, rest) = fields::small(rest)?;
    let (need, rest) = fields::number(rest)?;
    at_end(rest, What::Allow { pid, from, need })
}

#[tactic(auto, unfolding(crate::specs::Reading::deny_at))]
fn deny(rest: &[u8]) -> Option<What>
    ensures { result ≡ deny_at rest.now }
{
    let (pid, rest) = fields::number(rest)?;
    let (from, rest) = fields::small(rest)?;
    let (need, rest) = fields::number(rest)?;
    let (free, rest) = fields::number(rest)?;
    at_end(
        rest,
        What::Deny {
            pid,
            from,
            need,
            free,
        },
    )
}

#[tactic(auto, unfolding(crate::specs::Reading::depart_at))]
fn depart(rest: &[u8]) -> Option<What>
    ensures { result ≡ depart_at rest.now }
{
    let (pid, rest) = fields::number(rest)?;
    let (to, rest) = fields::small(rest)?;
    at_end(rest, What::Depart { pid, to })
}

#[tactic(auto, unfolding(crate::specs::Reading::stay_at))]
fn stay(rest: &[u8]) -> Option<What>
    ensures { result ≡ stay_at rest.now }
{
    let (pid, rest) = fields::number(rest)?;
    let (to, rest) = fields::small(rest)?;
    let (need, rest) = fields::number(rest)?;
    let (free, rest) = fields::number(rest)?;
    at_end(
        rest,
        What::Stay {
            pid,
            to,
            need,
            free,
        },
    )
}

#[tactic(auto, unfolding(crate::specs::Reading::land_at))]
fn land(rest: &[u8]) -> Option<What>
    ensures { result ≡ land_at rest.now }
{
    let (pid, rest) = fields::number(rest)?;
    let (source, rest) = fields::small(rest)?;
    at_end(rest, What::Land { pid, source })
}

#[tactic(auto, unfolding(crate::specs::Reading::told_at))]
fn told(rest: &[u8]) -> Option<What>
    ensures { result ≡ told_at rest.now }
{
    let (pid, rest) = fields::number(rest)?;
    let (at, rest) = fields::small(rest)?;
    let (source, rest) = fields::small(rest)?;
    let (hops, rest) = fields::number(rest)?;
    let (line, rest) = fields::maybe_number(rest)?;
    let (poked, rest) = fields::maybe_number(rest)?;
    at_end(
        rest,
        What::Told {
            pid,
            at,
            source,
            hops,
            line,
            poked,
        },
    )
}

#[tactic(auto, unfolding(crate::specs::Reading::refused_at))]
fn refused(rest: &[u8]) -> Option<What>
    ensures { result ≡ refused_at rest.now }
{
    let (pid, rest) = fields::number(rest)?;
    let (to, rest) = fields::small(rest)?;
    let (why, rest) = fields::refusal(rest)?;
    let (line, rest) = fields::number(rest)?;
    at_end(rest, What::Refused { pid, to, why, line })
}

#[tactic(auto, unfolding(crate::specs::Reading::closed_at))]
fn closed(rest: &[u8]) -> Option<What>
    ensures { result ≡ closed_at rest.now }
{
    let (line, rest) = fields::number(rest)?;
    at_end(rest, What::Closed { line })
}

#[tactic(auto, unfolding(crate::specs::Reading::half_at))]
fn half(rest: &[u8]) -> Option<What>
    ensures { result ≡ half_at rest.now }
{
    let (other, rest) = fields::small(rest)?;
    let (pid, rest) = fields::maybe_number(rest)?;
    let (to, rest) = fields::maybe_small(rest)?;
    at_end(rest, What::Half { other, pid, to })
}

#[tactic(auto, unfolding(crate::specs::Reading::heard_at))]
fn heard(rest: &[u8]) -> Option<What>
    ensures { result ≡ heard_at rest.now }
{
    let (other, rest) = fields::small(rest)?;
    let (pid, rest) = fields::maybe_number(rest)?;
    let (to, rest) = fields::maybe_small(rest)?;
    at_end(rest, What::Heard { other, pid, to })
}

/// What is read behind the last words of moves.
fn answer_event(word: &[u8], rest: &[u8]) -> Option<What>
    ensures { result ≡ applied (named answer_words word.now) rest.now }
{
    if is(word, "land") {
        return land(rest);
    }
    if is(word, "told") {
        return told(rest);
    }
    if is(word, "refused") {
        return refused(rest);
    }
    if is(word, "closed") {
        return closed(rest);
    }
    if is(word, "half") {
        return half(rest);
    }
    if is(word, "heard") {
        return heard(rest);
    }
    None
}

/// What is read behind the words of moves.
fn move_event(word: &[u8], rest: &[u8]) -> Option<What>
    ensures { result ≡ applied (named move_words word.now) rest.now }
{
    if is(word, "begin") {
        return begin(rest);
    }
    if is(word, "keep") {
        return keep(rest);
    }
    if is(word, "missed") {
        return missed(rest);
    }
    if is(word, "again") {
        return again(rest);
    }
    if is(word, "allow") {
        return allow(rest);
    }
    if is(word, "deny") {
        return deny(rest);
    }
    if is(word, "depart") {
        return depart(rest);
    }
    if is(word, "stay") {
        return stay(rest);
    }
    answer_event(word, rest)
}

/// What an event is, by its word.
#[tactic(auto, unfolding(crate::specs::Reading::what_at))]
fn what(rest: &[u8]) -> Option<What>
    ensures { result ≡ what_at rest.now }
{
    let (word, rest) = field(rest)?;
    if is(word, "command") {
        return command(rest);
    }
    if is(word, "steps") {
        return steps(rest);
    }
    if is(word, "sent") {
        return sent(rest);
    }
    if is(word, "heed") {
        return heed(rest);
    }
    if is(word, "held") {
        return held(rest);
    }
    if is(word, "served") {
        return served(rest);
    }
    if is(word, "got") {
        return got(rest);
    }
    if is(word, "poked") {
        return poked(rest);
    }
    move_event(word, rest)
}

/// The stamp, which stands first in a line.
fn stamp(line: &[u8]) -> Option<(u64, &[u8])>
    ensures { option_map (λ x. (x.0, x.1.now)) result ≡ stamp_at line.now }
{
    let (word, rest) = first_word(line);
    let stamp = number_up_to(word, u64::MAX)?;
    Some((stamp, rest))
}

#[tactic(auto, unfolding(crate::specs::Reading::event_of))]
fn event_of(line: &[u8]) -> Option<Event>
    ensures { result ≡ event_of line.now }
{
    let (stamp, rest) = stamp(line)?;
    let (node, rest) = fields::small(rest)?;
    let what = what(rest)?;
    Some(Event { stamp, node, what })
}

/// The event whose line this is, without a newline. None exactly where it is no event's line: a line has one spelling, with single
/// blanks, numbers without leading zeros, and `-` for none. Which fields go together is not looked at.
#[tactic(auto, using(crate::proofs::EventLaws::event_takes, crate::proofs::EventLaws::event_again))]
pub fn read_event(line: &[u8]) -> Option<Event>
    // What is read is spelled so.
    ensures found { IfSome result (λ event. HasLine event × (event_line event ≡ line.now)) }
    // What is spelled so is read.
    ensures only { (event : Event) → HasLine event → event_line event ≡ line.now → result ≡ Some event }
{
    event_of(line)
}
