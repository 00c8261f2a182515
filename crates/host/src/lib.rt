// What a host calls: going on, once or twice, the state test and the reader of states, for all inputs. Each contract gives the
// answer and the bytes left by a definition of rules' Host.
#![tactic(auto)]

pub mod go;
pub mod object;
mod tables;
pub mod test;
pub mod twice;
