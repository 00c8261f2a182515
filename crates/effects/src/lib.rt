// The effects of a step: one leaf each, done in place on the lent state, and where the run goes on. An effect is never a value: the
// kind is the only thing that a step jumps on.
#![tactic(auto)]

use state::Machine;

pub mod apply;
pub mod parts;
pub mod registers;

// Where the run goes on, and what is left to do before. The new value of a register is written by the loop, in one place for all
// instructions: each instruction's own code jumps there, and from there to the next instruction's.
#[derive(Clone, Copy)]
pub enum Next {
    // behind, where register a of the instruction has become this
    Put(u32),
    // at other words of the same function
    To(usize),
    // in another frame
    In(Machine),
    Over,
}
