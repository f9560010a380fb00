// What is due at a place of a call: an action with the keys that it uses, before any cell is looked at.
ghost use Rattle.std.specs.Prelude.{◌≡◌, List, ℕ, ◌+◌, ◌-◌, ◌*◌, ◌≤◌, ◌<◌, ℤ, drop, length};
ghost use Rattle.block.specs.Instruction.{decode, instr_bytes};
ghost use Rattle.block.specs.Limits.{max_calls, max_code};
ghost use Rattle.block.specs.Outcomes.{max_count};
ghost use Rattle.block.specs.declared.Call.{Call};
ghost use Rattle.footprint.specs.Access.{accesses};
ghost use Rattle.footprint.specs.Plan.{code_length, plan_words};
ghost use Rattle.key_uses.specs.Uses.{uses_of};
ghost use Rattle.machine.specs.Run.{plan_word};
ghost use Rattle.machine.specs.Step.{step_body, step_decoded, step_entry, step_instr, step_place};
ghost use Rattle.moves.specs.Turn.{cell_view, due_done, end_due, view_in, DueDoable, SiteInRange};

use crate::lookup::plan_word;
use crate::{Due, Site};
use action::{act_at, enter};
use block::format::INSTR_BYTES;
use block::outcomes::{ENDED, OUT_OF_FUEL, UNKNOWN_FUNCTION};
use block::{Call, Instr};
use decoder::record::code_at;
use footprint::layout::{CODE_LENGTH, CODE_START};
use key_uses::{Uses, bal_uses, entry_uses, get_uses, no_uses, pay_uses, put_uses};
use machine::layout::REGISTERS;
use machine::{Action, Next};

// The call ends with an outcome.
fn end_due(outcome: u64, count: u64) -> Due
    ensures { result ≡ end_due outcome count }
{
    Due {
        count,
        uses: no_uses(),
        action: Action {
            next: Next::End(outcome),
            regs: [0; REGISTERS],
        },
    }
}

// "STEP(worker), at entry: unknown function, outcome 1". Neither fuel nor count is looked at there; behind it the count is 0.
#[tactic(auto, unfolding(machine::specs::Step::step_entry, machine::specs::Step::perform))]
fn due_at_entry(plan: &[u64], site: Site, regs: [i64; REGISTERS], body: Call) -> Option<Due>
    requires plan_words_in_bounds { max_calls * plan_words ≤ length plan.now }
    requires call_lt_max_calls { site.call < max_calls }
    requires place_le_max_code { site.place ≤ max_code }
    ensures by_index { (block keys : List ℕ) (cells : List ℤ)
        → due_done (cell_view plan.now keys site.call) site.place result cells
        ≡ step_entry (view_in block plan.now keys site.call body) site.place regs cells }
    ensures due_doable { DueDoable site.place result }
{
    let count = 0;
    if plan_word(plan, site.call, CODE_LENGTH) == 0 {
        return Some(end_due(UNKNOWN_FUNCTION, count));
    }
    Some(Due {
        count,
        uses: entry_uses(body),
        action: enter(body, regs),
    })
}

// The uses of an instruction, as the set analysis has them by `instr_uses`. Of all callers a step asks most often: a function that it alone
// calls is compiled into it.
fn step_uses(c: Call, i: Instr) -> Uses
    ensures { result ≡ uses_of (accesses c i) }
{
    match i {
        Instr::Get { x: _, field, a, b } => get_uses(c, field, a, b),
        Instr::Put { x: _, field, a, b } => put_uses(c, field, a, b),
        Instr::Bal { x: _ } => bal_uses(c),
        Instr::Pay { x: _, target } => pay_uses(c, target),
        _ => no_uses(),
    }
}

// "Else one instruction runs and counts 1, also the one that fails." The instruction is the one of the code at the site's place.
#[tactic(auto, unfolding(machine::specs::Step::step_decoded))]
fn due_decoded(
    code: &[u8],
    size: u16,
    site: Site,
    regs: [i64; REGISTERS],
    body: Call,
) -> Option<Due>
    requires place_nonzero { (0 < site.place) × (site.place ≤ max_code) }
    requires count_le_max_count { site.count ≤ max_count }
    ensures by_index { (block plan keys : List ℕ) (cells : List ℤ)
        → due_done (cell_view plan keys site.call) site.place result cells
        ≡ step_decoded (view_in block plan keys site.call body) site.place site.count regs cells
        (decode size (drop (instr_bytes * (site.place - 1)) code.now)) }
    ensures due_doable { DueDoable site.place result }
{
    let index = site.place - 1;
    let acted = act_at(code, INSTR_BYTES * index, index as u16, size, body, regs);
    let i = acted.decoded?;
    Some(Due {
        count: site.count + 1,
        uses: step_uses(body, i),
        action: acted.action,
    })
}

// The code stretch lies in the lent block; the instruction is decoded there.
#[tactic(auto, unfolding(machine::specs::Step::step_instr))]
fn due_at_instr(
    block: &[u8],
    plan: &[u64],
    site: Site,
    regs: [i64; REGISTERS],
    body: Call,
) -> Option<Due>
    requires plan_words_in_bounds { max_calls * plan_words ≤ length plan.now }
    requires call_lt_max_calls { site.call < max_calls }
    requires place_nonzero { (0 < site.place) × (site.place < plan_word plan.now site.call code_length) }
    requires code_length_bound { plan_word plan.now site.call code_length ≤ max_code + 1 }
    requires count_le_max_count { site.count ≤ max_count }
    ensures by_index { (keys : List ℕ) (cells : List ℤ)
        → due_done (cell_view plan.now keys site.call) site.place result cells
        ≡ step_instr (view_in block.now plan.now keys site.call body) site.place site.count regs cells }
    ensures due_doable { DueDoable site.place result }
{
    let start = plan_word(plan, site.call, CODE_START) as usize;
    let size = plan_word(plan, site.call, CODE_LENGTH) as usize - 1;
    let len = INSTR_BYTES * size;
    let rest = block.len().checked_sub(len)?;
    if rest < start {
        return None;
    }
    let code = code_at(block, start, size);
    due_decoded(code, size as u16, site, regs, body)
}

// Behind the entry, without fuel left. M-104: "a lent fuel of zero or a count above the fuel is 20"; an instruction that is due "doesn't run, all is restored and the
// outcome is 7, in a step of its own that counts nothing"; "Reaching the end needs no fuel."
#[tactic(auto, unfolding(machine::specs::Step::step_body, machine::specs::Step::perform))]
fn due_unfuelled(plan: &[u64], site: Site, fuel: u16) -> Option<Due>
    requires plan_words_in_bounds { max_calls * plan_words ≤ length plan.now }
    requires call_lt_max_calls { site.call < max_calls }
    requires place_bound { site.place ≤ max_code + 1 }
    requires fuel_le_count { fuel ≤ site.count }
    ensures by_index { (block keys : List ℕ) (body : Call) (regs cells : List ℤ) → fuel ≡ body.fuel
        → due_done (cell_view plan.now keys site.call) site.place result cells
        ≡ step_body (view_in block plan.now keys site.call body) site.place site.count regs cells }
    ensures due_doable { DueDoable site.place result }
{
    if fuel == 0 {
        return None;
    }
    if (fuel as u64) < site.count {
        return None;
    }
    if site.place as u64 != plan_word(plan, site.call, CODE_LENGTH) {
        return Some(end_due(OUT_OF_FUEL, site.count));
    }
    Some(end_due(ENDED, site.count))
}

// What is due at a place. "At place = length: outcome 0." Where fuel is left, every test of it passes: so one test stands before the others, and they are made
// only where none is left.
#[tactic(auto, unfolding(machine::specs::Step::step_place, machine::specs::Step::step_body))]
pub(crate) fn due(
    block: &[u8],
    plan: &[u64],
    site: Site,
    regs: [i64; REGISTERS],
    body: Call,
) -> Option<Due>
    requires plan_words_in_bounds { max_calls * plan_words ≤ length plan.now }
    requires call_lt_max_calls { site.call < max_calls }
    requires site_in_range { SiteInRange plan.now site }
    ensures by_index { (keys : List ℕ) (cells : List ℤ)
        → due_done (cell_view plan.now keys site.call) site.place result cells
        ≡ step_place (view_in block.now plan.now keys site.call body) site.place site.count regs cells }
    ensures due_doable { DueDoable site.place result }
{
    if site.place == 0 {
        return due_at_entry(plan, site, regs, body);
    }
    if body.fuel as u64 <= site.count {
        return due_unfuelled(plan, site, body.fuel);
    }
    if site.place as u64 == plan_word(plan, site.call, CODE_LENGTH) {
        return Some(end_due(ENDED, site.count));
    }
    due_at_instr(block, plan, site, regs, body)
}
