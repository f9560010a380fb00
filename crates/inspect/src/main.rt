// Lists block.bin of the current folder: `e NUMBER OFFSET` for a refused block; else `n FUNCTIONS CELLS CALLS KEYS`, and `w CALL` with the
// earlier conflicting calls for each call. A missing file is read as empty. With an argument it only says on standard error what it reads
// and writes.
#![tactic(auto)]

fn main(rt: HostRuntime) {
    let usage: &[u8] = b"\
usage: inspect
Reads block.bin of the current folder, and no standard input.
Prints its counts, and for each call the earlier calls that it waits for.
The manual is docs/MANUAL.md.
";
    if host::explains(&rt, host::argument_count(&rt, 2), usage) {
        return;
    }
    let mut transcript = [0u8; 0];
    inspect_run::inspect(&rt, &mut transcript);
}
