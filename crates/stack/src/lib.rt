// The live regions of a state that nobody has tested, for any bytes: whose local regions they are, and whether a frame's are fresh. Each
// answer tells a fact of rules' StateTest.
#![tactic(auto)]

pub mod regions;
pub mod untested;
