// REGISTER on an edge: a block.bin of 65,537 bytes, which is refused.
#![tactic(auto)]

fn main(rt: HostRuntime) {
    let mut transcript = [0u8; 0];
    register_run::register(&rt, &mut transcript);
}
