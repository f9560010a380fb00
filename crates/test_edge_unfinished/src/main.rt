// `write_sheet` on an edge: a run that is not finished, with refused lines. No byte is printed.
#![tactic(auto)]

fn main(rt: HostRuntime) {
    let mut transcript = [0u8; 0];
    register_run::write_sheet(&rt, &mut transcript);
}
