// Prepares a block in buffers of their fixed sizes, and in such of which one is too short, which `open` refuses before it prepares. A line
// for each: `p`, the lengths, the verdict, the numbers of calls and of cells, the first call's offset, and the first words and value.
#![tactic(auto)]

use analysis::{Prepared, prepare};
use block::Refusal;
use decoder::numbers::{number_of, offset_of};

fn text(rt: &impl Print, s: &str) {
    let _ = rt.print(s);
}

fn number(rt: &impl Print, n: u64) {
    text(rt, " ");
    let _ = rt.print(n);
}

fn verdict(rt: &impl Print, answer: Result<Prepared, Refusal>) {
    match answer {
        Ok(p) => {
            number(rt, 0);
            number(rt, 0);
            number(rt, p.calls as u64);
            number(rt, p.cells as u64);
            number(rt, p.first_call as u64);
        }
        Err(why) => {
            number(rt, number_of(why));
            number(rt, offset_of(why));
            text(rt, " 0 0 0");
        }
    }
}

// A function of one PUT, a cell of value 2 and a call of value 1: three keys.
fn prepared(rt: &impl Print, plan: &mut [u64], keys: &mut [u64], values: &mut [i64]) {
    let file = b"\
\x0c\x00\x01\x00\x00\x80\x00\x00\x0b\x00\x00\x00\x01\x00\x00\x00\
\x14\x00\x02\x00\x05\x00\x00\x00\x00\x00\x00\x00\x00\x00\x00\x00\x02\x00\x00\x00\x00\x00\x00\x00\
\x20\x00\x03\x00\x05\x00\x00\x80\x00\x00\x01\x00\x00\x00\x00\x00\x00\x00\
\x00\x00\x00\x00\x00\x00\x00\x00\x00\x00\x00\x00\x00\x00\x00\x00\x40\x00\
\x00\x00\x04\x00";
    let r = prepare(file, plan, keys, values);
    text(rt, "p");
    number(rt, plan.len() as u64);
    number(rt, keys.len() as u64);
    number(rt, values.len() as u64);
    verdict(rt, r);
    number(rt, wire::get_or(plan, 0, 0));
    number(rt, wire::get_or(keys, 0, 0));
    number(rt, arith::unsigned64(wire::get_or(values, 0, 0)));
    text(rt, "\n");
}

fn large_enough(rt: &impl Print) {
    let mut plan = [7u64; 8192];
    let mut keys = [7u64; 2048];
    let mut values = [7i64; 1024];
    prepared(rt, &mut plan, &mut keys, &mut values);
}

fn plan_short(rt: &impl Print) {
    let mut plan = [7u64; 8191];
    let mut keys = [7u64; 2048];
    let mut values = [7i64; 1024];
    prepared(rt, &mut plan, &mut keys, &mut values);
}

fn keys_short(rt: &impl Print) {
    let mut plan = [7u64; 8192];
    let mut keys = [7u64; 2047];
    let mut values = [7i64; 1024];
    prepared(rt, &mut plan, &mut keys, &mut values);
}

fn values_short(rt: &impl Print) {
    let mut plan = [7u64; 8192];
    let mut keys = [7u64; 2048];
    let mut values = [7i64; 1023];
    prepared(rt, &mut plan, &mut keys, &mut values);
}

fn main(rt: HostRuntime) {
    large_enough(&rt);
    plan_short(&rt);
    keys_short(&rt);
    values_short(&rt);
}
