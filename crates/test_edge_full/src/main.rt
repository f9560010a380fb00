// REGISTER on an edge: a block of exactly 65,536 bytes, an input of several pieces, and a last line without a line feed.
#![tactic(auto)]

fn main(rt: HostRuntime) {
    let mut transcript = [0u8; 0];
    register_run::register(&rt, &mut transcript);
}
