// The number of earlier conflicting calls still unfinished that each call carries: read for BEGIN, and lowered where a call finishes.
ghost use Rattle.std.specs.Prelude.{◌≡◌, ◌≤◌, ◌<◌, length};
ghost use Rattle.block.specs.Limits.{max_calls};
ghost use Rattle.machine.specs.Run.{fixed_sizes, wait_count, with_wait};
ghost use Rattle.machine.specs.Waits.{named_in, lowered_if, lowerable_if, waits_lowerable, waits_lowered};

use footprint::layout::{FIRST_ROW_WORD, PLAN_WORDS};
use machine::layout::{STATUS_WORDS, WAIT_WORD};
use wire::WORD_BITS;

// The number that a call carries.
pub(crate) fn wait_of(status: &[u64], call: usize) -> u64
    requires { call < max_calls }
    ensures { result ≡ wait_count status.now call }
{
    wire::get_or(status, STATUS_WORDS * call + WAIT_WORD, 0)
}

// Whether the row of a call names another.
fn names(plan: &[u64], later: usize, call: usize) -> bool
    requires later_lt_max_calls { later < max_calls }
    requires call_lt_max_calls { call < max_calls }
    requires plan_in_bounds { fixed_sizes.plan ≤ length plan.now }
    ensures { result ≡ named_in plan.now call later }
{
    let row = PLAN_WORDS * later + FIRST_ROW_WORD;
    wire::word_test(plan[row + call / WORD_BITS], call)
}

// Whether the number of a call can be lowered, where its row names the other: it is not 0 and at most the call's index.
fn can_lower_one(plan: &[u64], status: &[u64], call: usize, later: usize) -> bool
    requires later_lt_max_calls { later < max_calls }
    requires call_lt_max_calls { call < max_calls }
    requires plan_in_bounds { fixed_sizes.plan ≤ length plan.now }
    ensures { result ≡ lowerable_if (named_in plan.now call later) later (wait_count status.now later) }
{
    !names(plan, later, call) || (1..=later as u64).contains(&wait_of(status, later))
}

// Whether the number of each later call whose row names this one can be lowered.
pub(crate) fn can_lower(plan: &[u64], status: &[u64], call: usize, calls: usize) -> bool
    requires call_lt_calls { call < calls }
    requires calls_le_max_calls { calls ≤ max_calls }
    requires plan_in_bounds { fixed_sizes.plan ≤ length plan.now }
    ensures { result ≡ waits_lowerable plan.now status.now call calls }
{
    (call + 1..calls).all(|later| can_lower_one(plan, status, call, later))
}

// The number of a call, lowered where its row names the other.
fn lower_one(plan: &[u64], status: &mut [u64], call: usize, later: usize)
    requires later_lt_max_calls { later < max_calls }
    requires call_lt_max_calls { call < max_calls }
    requires plan_in_bounds { fixed_sizes.plan ≤ length plan.now }
    ensures { status.new
        ≡ with_wait status.old later (lowered_if (named_in plan.now call later) (wait_count status.old later)) }
{
    if names(plan, later, call) {
        let waits = wait_of(status, later);
        wire::put(
            status,
            STATUS_WORDS * later + WAIT_WORD,
            waits.saturating_sub(1),
        );
    }
}

// The number of each later call whose row names this one, lowered.
pub(crate) fn lower(plan: &[u64], status: &mut [u64], call: usize, calls: usize)
    requires call_lt_calls { call < calls }
    requires calls_le_max_calls { calls ≤ max_calls }
    requires plan_in_bounds { fixed_sizes.plan ≤ length plan.now }
    ensures { status.new ≡ waits_lowered plan.now call calls status.old }
{
    for later in call + 1..calls {
        lower_one(plan, status, call, later);
    }
}
