// Runs block.bin of the current folder as REGISTER does, and writes the bytes of the closing sheet to standard output; refusals are told on
// standard error. With an argument it only says there what it reads and writes.
#![tactic(auto)]

fn main(rt: HostRuntime) {
    let usage: &[u8] = b"\
usage: write_sheet < MOVES > SHEET
Reads block.bin of the current folder and, on standard input, lines of moves:
  b W C    begins call C on worker W
  s W      steps it
  c W      cancels it
Writes the closing sheet, in bytes, to standard output, and a line for each
refusal to standard error; of a refused block or sheet no byte is written.
The manual is docs/MANUAL.md.
";
    if host::explains(&rt, host::argument_count(&rt, 2), usage) {
        return;
    }
    let mut transcript = [0u8; 0];
    register_run::write_sheet(&rt, &mut transcript);
}
