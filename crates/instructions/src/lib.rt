// Refusal 7 over a file: kinds 23 to 28, whose rules ask for runs of primitives, and 36 to 39, which ask for untyped regions; the choice
// of the rule by the kind; and the first instruction that breaks its rule. What is asked of the file is what refusals 1 to 6 have
// established.
#![tactic(auto)]

pub mod code;
pub mod known;
pub mod memory;
pub mod scan;
pub mod untyped;
