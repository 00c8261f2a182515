// Refusal 7: the typing rules in code, document 01, "Typing the instructions". Each contract is an equation with the decision of rules'
// specs/Decision.antt or a test of specs/; what is asked of the file is what refusals 1 to 4 have established.
#![tactic(auto)]

pub mod arithmetic;
pub mod calls;
pub mod control;
pub mod function;
pub mod registers;
pub mod types;
