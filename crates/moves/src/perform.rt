// An action done on the cells that a place accesses. Every test stands before the first store, so that a damaged run is left as it was.
ghost use Rattle.std.specs.Prelude.{◌≡◌, true, false, ◌+◌, ◌≤◌};
ghost use Rattle.std.specs.Int.Signed.{lt_z, non_neg};
ghost use Rattle.block.specs.Key.{is_balance};
ghost use Rattle.block.specs.Limits.{max_code};
ghost use Rattle.machine.specs.Step.{cell_at, deposit_cell, load_cell, perform, store_cell, transfer_cells};
ghost use Rattle.moves.specs.Turn.{access_of, accesses_of, cell_view, lookup_in, turned, Doable, EntriesReady, KeyWorded};

use crate::lookup::lookup;
use crate::{Due, Site, Turn};
use action::loaded;
use arith::LARGEST;
use block::format::{FIELD_BASE, FIELDS};
use key_uses::{KeyUse, Uses};
use machine::layout::REGISTERS;
use machine::{Action, Next};

impl Site {
    // The call goes on at the next place.
    fn next(self, regs: [i64; REGISTERS]) -> Turn
        requires { self.place ≤ max_code + 1 }
        ensures { result ≡ Turn.Going (self.place + 1) self.count regs }
    {
        Turn::Going {
            place: self.place + 1,
            count: self.count,
            regs,
        }
    }
}

// "Field 0 .. is the balance."
fn is_balance(u: KeyUse) -> bool
    requires { KeyWorded u }
    ensures { result ≡ is_balance (access_of u).key }
{
    u.high / FIELD_BASE % FIELDS == 0
}

// A loaded value goes to its instruction; of a balance, "below zero" is damage.
#[tactic(auto, unfolding(machine::specs::Step::load_cell))]
fn load(
    plan: &[u64],
    keys: &[u64],
    cells: &[i64],
    site: Site,
    regs: [i64; REGISTERS],
    x: usize,
    u: KeyUse,
) -> Option<Turn>
    requires entries_ready { EntriesReady plan.now keys.now site.call }
    requires place_bound { site.place ≤ max_code + 1 }
    requires key_worded { KeyWorded u }
    ensures { record { turn = result; cells = cells.now }
        ≡ turned cells.now
        (load_cell site.place site.count regs x (access_of u) cells.now
        (lookup_in plan.now keys.now site.call (access_of u))) }
{
    let n = lookup(plan, keys, site.call, u)?;
    let v = wire::get_or(cells, n, 0);
    let balance = is_balance(u);
    if balance & (v < 0) {
        return None;
    }
    Some(site.next(loaded(balance, regs, x, v)))
}

// A stored value.
#[tactic(auto, unfolding(machine::specs::Step::store_cell))]
fn store(
    plan: &[u64],
    keys: &[u64],
    cells: &mut [i64],
    site: Site,
    regs: [i64; REGISTERS],
    v: i64,
    u: KeyUse,
) -> Option<Turn>
    requires entries_ready { EntriesReady plan.now keys.now site.call }
    requires place_bound { site.place ≤ max_code + 1 }
    requires key_worded { KeyWorded u }
    ensures { record { turn = result; cells = cells.new }
        ≡ turned cells.old
        (store_cell site.place site.count regs v cells.old
        (lookup_in plan.now keys.now site.call (access_of u))) }
{
    let n = lookup(plan, keys, site.call, u)?;
    wire::put(cells, n, v);
    Some(site.next(regs))
}

// The amount leaves cell n, which holds it, and reaches cell m; there "a balance .. below zero or passing 2^63 - 1" is damage.
#[tactic(auto, unfolding(machine::specs::Step::deposit_cell))]
fn pay_into(
    cells: &mut [i64],
    site: Site,
    regs: [i64; REGISTERS],
    amount: i64,
    n: usize,
    m: usize,
) -> Option<Turn>
    requires place_bound { site.place ≤ max_code + 1 }
    requires amount_value { non_neg amount ≡ true }
    requires amount_value_2 { lt_z (cell_at cells.old n) amount ≡ false }
    ensures { record { turn = result; cells = cells.new }
        ≡ turned cells.old (deposit_cell site.place site.count regs amount n cells.old (Some m)) }
{
    let held = wire::get_or(cells, n, 0);
    let there = wire::get_or(cells, m, 0);
    if there < 0 {
        return None;
    }
    if LARGEST - there < amount {
        return None;
    }
    wire::put(cells, n, held - amount);
    wire::put(cells, m, there + amount);
    Some(site.next(regs))
}

// The same, where the second cell is found.
#[tactic(auto, unfolding(machine::specs::Step::deposit_cell))]
fn deposit(
    plan: &[u64],
    keys: &[u64],
    cells: &mut [i64],
    site: Site,
    regs: [i64; REGISTERS],
    amount: i64,
    n: usize,
    u: KeyUse,
) -> Option<Turn>
    requires entries_ready { EntriesReady plan.now keys.now site.call }
    requires place_bound { site.place ≤ max_code + 1 }
    requires key_worded { KeyWorded u }
    requires amount_value { non_neg amount ≡ true }
    requires amount_value_2 { lt_z (cell_at cells.old n) amount ≡ false }
    ensures { record { turn = result; cells = cells.new }
        ≡ turned cells.old
        (deposit_cell site.place site.count regs amount n cells.old
        (lookup_in plan.now keys.now site.call (access_of u))) }
{
    let m = lookup(plan, keys, site.call, u)?;
    pay_into(cells, site, regs, amount, n, m)
}

// An amount moves from the first cell to the second, which is looked at only where the first holds enough.
#[tactic(auto, unfolding(machine::specs::Step::transfer_cells))]
fn transfer(
    plan: &[u64],
    keys: &[u64],
    cells: &mut [i64],
    site: Site,
    regs: [i64; REGISTERS],
    amount: i64,
    short: u64,
    uses: Uses,
) -> Option<Turn>
    requires entries_ready { EntriesReady plan.now keys.now site.call }
    requires place_bound { site.place ≤ max_code + 1 }
    requires key_worded { KeyWorded uses.first }
    requires key_worded_2 { KeyWorded uses.second }
    requires amount_value { non_neg amount ≡ true }
    ensures { record { turn = result; cells = cells.new }
        ≡ turned cells.old
        (transfer_cells (cell_view plan.now keys.now site.call) site.place site.count regs amount short
        (access_of uses.second) cells.old
        (lookup_in plan.now keys.now site.call (access_of uses.first))) }
{
    let to = uses.second;
    let n = lookup(plan, keys, site.call, uses.first)?;
    let held = wire::get_or(cells, n, 0);
    if held < 0 {
        return None;
    }
    if held < amount {
        return Some(Turn::Over {
            outcome: short,
            count: site.count,
        });
    }
    deposit(plan, keys, cells, site, regs, amount, n, to)
}

// What is due is done on the cells that the place accesses.
#[tactic(auto, unfolding(machine::specs::Step::perform, machine::specs::Step::lookup))]
pub(crate) fn perform(
    plan: &[u64],
    keys: &[u64],
    cells: &mut [i64],
    at: Site,
    due: Due,
) -> Option<Turn>
    requires entries_ready { EntriesReady plan.now keys.now at.call }
    requires doable { Doable at.place due.uses due.action.next }
    ensures { record { turn = result; cells = cells.new }
        ≡ turned cells.old
        (perform (cell_view plan.now keys.now at.call) at.place due.count (accesses_of due.uses) due.action.regs
        due.action.next cells.old) }
{
    let Due {
        count,
        uses,
        action,
    } = due;
    let Action { next, regs } = action;
    let site = Site { count, ..at };
    match next {
        Next::Go(place) => Some(Turn::Going { place, count, regs }),
        Next::End(outcome) => Some(Turn::Over { outcome, count }),
        Next::Load(x) => load(plan, keys, cells, site, regs, x, uses.first),
        Next::Store(v) => store(plan, keys, cells, site, regs, v, uses.first),
        Next::Transfer { amount, short } => {
            transfer(plan, keys, cells, site, regs, amount, short, uses)
        }
    }
}
