// The types that the definitions of specs/ and the code share, document 01's numbers (limits), the kinds of instructions (kind), why a
// file or a call is refused (refusal), and why a module stops (stop).
#![tactic(auto)]

pub mod kind;
pub mod limits;
pub mod refusal;
pub mod stop;

pub use refusal::Refusal;

// What an accepted module file has: so many terms, names, functions and instructions.
#[derive(Clone, Copy, PartialEq, Eq)]
pub struct Counts {
    pub terms: usize,
    pub names: usize,
    pub functions: usize,
    pub instructions: usize,
}

// A record of the file: byte 0, bytes 1 to 3, bytes 4 to 7.
#[derive(Clone, Copy, PartialEq, Eq, Default)]
pub struct Record {
    pub kind: u8,
    pub a: u8,
    pub b: u8,
    pub c: u8,
    pub d: u32,
}

// The pages that a machine may own: of pages 1 to 63 all but so many at the low end and so many at the high end.
#[derive(Clone, Copy, Default)]
pub struct PageRange {
    pub below: u8,
    pub above: u8,
}

// The instructions by their kinds: "the ranges above" of document 01, by which typing rule and step are chosen.
#[derive(Clone, Copy)]
pub enum Group {
    Arithmetic,
    Memory,
    Control,
}

// What the next record of the file is to be.
#[derive(Clone, Copy)]
pub enum Phase {
    // a term, or the first name or function
    Terms,
    // a name, or the first function
    Names,
    // the record 6 of the last name
    Fields,
    // a function, or filler
    Functions,
    // the record 8 of the last function
    Regions,
    // a record 9 of the last function
    Registers,
    // an instruction
    Code,
    // the record 35 of the last instruction
    Arguments,
    // filler, to the end
    Filler,
    // nothing is known: a record before was of a kind that could not stand there
    Broken,
}

// What is known before a record: what it is to be; how many terms, names and functions came before; of the
// last function its record 7, regions, registers and instructions; how many fields, regions, registers or instructions
// are still to come; and the function that the last instruction calls.
#[derive(Clone, Copy)]
pub struct Walk {
    pub phase: Phase,
    pub terms: usize,
    pub names: usize,
    pub functions: usize,
    pub head: usize,
    pub regions: usize,
    pub registers: usize,
    pub instructions: usize,
    pub left: usize,
    pub callee: usize,
}
