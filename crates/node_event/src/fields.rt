// The fields of a line: each is a blank and a word, and is read with the rest of the line behind it.
ghost use Rattle.std.specs.Prelude.{◌≡◌};
ghost use Rattle.std.specs.Option.{option_map};
ghost use Rattle.node_event.specs.Reading.{number_at, small_at, flag_at, way_at, refusal_at, maybe_number_at, maybe_small_at, maybe_integer_at, maybe_end_at, maybe_unsent_at, maybe_kept_at};

use crate::event::{Kept, Refusal, Unsent, Way};
use crate::word::{
    end_of, field, flag_of, integer_of, is, kept_of, number_of, refusal_of, small_of, unsent_of,
    way_of,
};
use call_table::End;

/// A number of 32 bits.
#[tactic(auto, unfolding(crate::specs::Reading::field))]
pub(crate) fn number(rest: &[u8]) -> Option<(u32, &[u8])>
    ensures { option_map (λ x. (x.0, x.1.now)) result ≡ number_at rest.now }
{
    let (word, rest) = field(rest)?;
    let value = number_of(word)?;
    Some((value, rest))
}

/// A number of 8 bits, as a node.
#[tactic(auto, unfolding(crate::specs::Reading::field))]
pub(crate) fn small(rest: &[u8]) -> Option<(u8, &[u8])>
    ensures { option_map (λ x. (x.0, x.1.now)) result ≡ small_at rest.now }
{
    let (word, rest) = field(rest)?;
    let value = small_of(word)?;
    Some((value, rest))
}

/// A flag.
#[tactic(auto, unfolding(crate::specs::Reading::field))]
pub(crate) fn flag(rest: &[u8]) -> Option<(bool, &[u8])>
    ensures { option_map (λ x. (x.0, x.1.now)) result ≡ flag_at rest.now }
{
    let (word, rest) = field(rest)?;
    let value = flag_of(word)?;
    Some((value, rest))
}

/// How a call was served.
#[tactic(auto, unfolding(crate::specs::Reading::field))]
pub(crate) fn way(rest: &[u8]) -> Option<(Way, &[u8])>
    ensures { option_map (λ x. (x.0, x.1.now)) result ≡ way_at rest.now }
{
    let (word, rest) = field(rest)?;
    let value = way_of(word)?;
    Some((value, rest))
}

/// Why a move was refused.
#[tactic(auto, unfolding(crate::specs::Reading::field))]
pub(crate) fn refusal(rest: &[u8]) -> Option<(Refusal, &[u8])>
    ensures { option_map (λ x. (x.0, x.1.now)) result ≡ refusal_at rest.now }
{
    let (word, rest) = field(rest)?;
    let value = refusal_of(word)?;
    Some((value, rest))
}

/// A number of 32 bits, or `-` for none.
#[tactic(auto, unfolding(crate::specs::Reading::field))]
pub(crate) fn maybe_number(rest: &[u8]) -> Option<(Option<u32>, &[u8])>
    ensures { option_map (λ x. (x.0, x.1.now)) result ≡ maybe_number_at rest.now }
{
    let (word, rest) = field(rest)?;
    if is(word, "-") {
        return Some((None, rest));
    }
    let value = number_of(word)?;
    Some((Some(value), rest))
}

/// A number of 8 bits, as a node or a signal, or `-` for none.
#[tactic(auto, unfolding(crate::specs::Reading::field))]
pub(crate) fn maybe_small(rest: &[u8]) -> Option<(Option<u8>, &[u8])>
    ensures { option_map (λ x. (x.0, x.1.now)) result ≡ maybe_small_at rest.now }
{
    let (word, rest) = field(rest)?;
    if is(word, "-") {
        return Some((None, rest));
    }
    let value = small_of(word)?;
    Some((Some(value), rest))
}

/// A signed number of 32 bits, or `-` for none.
#[tactic(auto, unfolding(crate::specs::Reading::field))]
pub(crate) fn maybe_integer(rest: &[u8]) -> Option<(Option<i32>, &[u8])>
    ensures { option_map (λ x. (x.0, x.1.now)) result ≡ maybe_integer_at rest.now }
{
    let (word, rest) = field(rest)?;
    if is(word, "-") {
        return Some((None, rest));
    }
    let value = integer_of(word)?;
    Some((Some(value), rest))
}

/// An end, or `-` for none.
#[tactic(auto, unfolding(crate::specs::Reading::field))]
pub(crate) fn maybe_end(rest: &[u8]) -> Option<(Option<End>, &[u8])>
    ensures { option_map (λ x. (x.0, x.1.now)) result ≡ maybe_end_at rest.now }
{
    let (word, rest) = field(rest)?;
    if is(word, "-") {
        return Some((None, rest));
    }
    let value = end_of(word)?;
    Some((Some(value), rest))
}

/// Why a command sent nothing, or `-` for none.
#[tactic(auto, unfolding(crate::specs::Reading::field))]
pub(crate) fn maybe_unsent(rest: &[u8]) -> Option<(Option<Unsent>, &[u8])>
    ensures { option_map (λ x. (x.0, x.1.now)) result ≡ maybe_unsent_at rest.now }
{
    let (word, rest) = field(rest)?;
    if is(word, "-") {
        return Some((None, rest));
    }
    let value = unsent_of(word)?;
    Some((Some(value), rest))
}

/// What came of a move that was kept, or `-` for none.
#[tactic(auto, unfolding(crate::specs::Reading::field))]
pub(crate) fn maybe_kept(rest: &[u8]) -> Option<(Option<Kept>, &[u8])>
    ensures { option_map (λ x. (x.0, x.1.now)) result ≡ maybe_kept_at rest.now }
{
    let (word, rest) = field(rest)?;
    if is(word, "-") {
        return Some((None, rest));
    }
    let value = kept_of(word)?;
    Some((Some(value), rest))
}
