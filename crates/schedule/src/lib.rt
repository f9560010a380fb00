#![tactic(auto)]

// One line of the list that a member plays: a worker begins a call, makes one step of its call, or cancels it.
#[derive(Clone, Copy)]
pub enum Move {
    Begin(usize, usize), // worker, call
    Step(usize),
    Cancel(usize),
}
