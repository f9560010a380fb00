// REGISTER on an edge: no block.bin, which is read as empty.
#![tactic(auto)]

fn main(rt: HostRuntime) {
    let mut transcript = [0u8; 0];
    register_run::register(&rt, &mut transcript);
}
