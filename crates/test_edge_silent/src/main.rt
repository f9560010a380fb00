// REGISTER on an edge: no input.
#![tactic(auto)]

fn main(rt: HostRuntime) {
    let mut transcript = [0u8; 0];
    register_run::register(&rt, &mut transcript);
}
