// Which calls on the outside in memory fail.
ghost use Rattle.std.specs.Prelude.{◌≡◌, ◌≤◌, ◌+◌, ◌||◌, if◌then◌else◌, true};
ghost use Rattle.outside.specs.Outside.{Rose};
ghost use Rattle.outside.specs.Fails.{one_more, is_listed, fresh, fails_next, after_call, after_fault};

use call_table::ListOf;

/// The numbers, from 1, of the calls that fail.
pub type Calls = ListOf<u64>;

/// How many calls were made, which of them fail, and how many failed.
#[derive(Debug, Drop)]
pub struct Plan {
    pub made: u64,
    pub fails: Calls,
    pub faults: u64,
}

/// No call was made.
pub fn plan_of(fails: Calls) -> Plan
    ensures { result ≡ fresh fails }
{
    Plan {
        made: 0,
        fails,
        faults: 0,
    }
}

/// A count raised by one; it stands still at its type's end.
pub fn one_more(count: u64) -> u64
    ensures is { result ≡ one_more count }
    ensures rose { Rose count result }
    ensures later { count ≤ result }
{
    count.saturating_add(1)
}

/// Whether a call is one of those that fail.
fn is_listed(fails: &Calls, call: u64) -> bool
    ensures { result ≡ is_listed fails.now call }
{
    fails.as_slice().iter().any(|n| *n == call)
}

/// Whether the next call is one of those that fail.
fn fails_next(plan: &Plan) -> bool
    ensures { result ≡ fails_next plan.now }
{
    plan.made < u64::MAX && is_listed(&plan.fails, plan.made + 1)
}

/// One call more, which fails where it is listed or where `refuses`: whether it does.
pub fn fails(plan: &mut Plan, refuses: bool) -> bool
    ensures is { result ≡ (fails_next plan.old || refuses) }
    ensures plan { plan.new ≡ (if result then after_fault plan.old else after_call plan.old) }
    ensures rose { result ≡ true → Rose plan.old.faults plan.new.faults }
    ensures later { plan.old.faults ≤ plan.new.faults }
{
    let fails = fails_next(plan) || refuses;
    plan.made = one_more(plan.made);
    if fails {
        plan.faults = one_more(plan.faults);
    }
    fails
}
