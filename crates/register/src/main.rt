// REGISTER: opens block.bin of the current folder for 8 workers, plays the move lines of standard input, and prints the closing sheet. A
// missing file is read as empty. With an argument it only says on standard error what it reads and writes.
#![tactic(auto)]

fn main(rt: HostRuntime) {
    let usage: &[u8] = b"\
usage: register < MOVES
Reads block.bin of the current folder and, on standard input, lines of moves:
  b W C    begins call C on worker W
  s W      steps it
  c W      cancels it
Prints a line for each refused move, then the closing sheet as text.
The manual is docs/MANUAL.md.
";
    if host::explains(&rt, host::argument_count(&rt, 2), usage) {
        return;
    }
    let mut transcript = [0u8; 0];
    register_run::register(&rt, &mut transcript);
}
