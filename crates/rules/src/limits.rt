// The numbers of document 01 that the code shares, each once: those of the module file; those of instructions and of stops by their
// enums. What the definitions name has its name of specs/Limits.antt and specs/File.antt here. The machine's own, pages, frames, sizes
// and the state's layout, are constants of state's Machine.

use crate::kind::Kind;
use crate::stop::Stop;

// ---- the module file

// "1 to 64 blocks of 512 bytes"
pub const BLOCK_BYTES: usize = 512;

pub const MOST_BLOCKS: usize = 64;

// "bytes 2-3 the number of blocks, bytes 4-507 63 records of 8 bytes, bytes 508-511 the block's check"
pub const COUNT_IN: usize = 2;

pub const RECORDS_IN: usize = 4;

pub const BLOCK_RECORDS: usize = 63;

pub const RECORD_BYTES: usize = 8;

pub const CHECK_AT: usize = 508;

// "At most 128 terms, 32 names and 1 to 32 functions"
pub const MOST_TERMS: usize = 128;

pub const MOST_STRUCTS: usize = 32;

pub const MOST_FUNCTIONS: usize = 32;

// "region variable b (0-6)", "a + b ≤ 7"; "region parameters (0-4)"
pub const MOST_REGIONS: usize = 7;

pub const MOST_REGION_PARAMS: u8 = 4;

// "fields (1-7)", "parameters (0-7)": the bytes 1 to 7 of a record
pub const MOST_ENTRIES: usize = 7;

// "registers (1-28)", "instructions (1-1,024)"
pub const MOST_REGISTERS: u8 = 28;

pub const MOST_INSTRUCTIONS: usize = 1024;

// "over 256 bytes", "array of d (1-256)": the size of an object and the count of an array
pub const SIZE_LIMIT: usize = 256;

// The functions that a call can name: a callee is a byte.
pub const CALLEES: usize = 256;

// ---- the kinds of records

// Constants, not an enum: the walk and the tests of records compare a byte with one of them, or with a range.

pub const FILLER: u8 = 0;

pub const INTEGER: u8 = 1;

pub const POINTER: u8 = 2;

pub const ARRAY: u8 = 3;

pub const STRUCT: u8 = 4;

pub const NAME: u8 = 5;

pub const FIELDS: u8 = 6;

pub const FUNCTION: u8 = 7;

pub const REGIONS: u8 = 8;

pub const REGISTERS: u8 = 9;

// The ranges of instructions, whose kinds are kind::Kind: arithmetic 16 to 22, memory 23 to 28, control 29 to 34; of untyped memory 36 to 39.
pub const FIRST_ARITHMETIC: u8 = Kind::Constant as u8;

pub const LAST_ARITHMETIC: u8 = Kind::Check as u8;

pub const FIRST_MEMORY: u8 = Kind::Field as u8;

pub const LAST_MEMORY: u8 = Kind::Free as u8;

pub const FIRST_CONTROL: u8 = Kind::Input as u8;

pub const LAST_CONTROL: u8 = Kind::Return as u8;

pub const FIRST_UNTYPED: u8 = Kind::NewBytes as u8;

pub const LAST_UNTYPED: u8 = Kind::CheckBytes as u8;

// "31 jump", "33 calls", "34 returns", "record 35 follows"
pub const JUMP: u8 = Kind::Jump as u8;

pub const CALL: u8 = Kind::Call as u8;

pub const RETURN: u8 = Kind::Return as u8;

pub const ARGUMENTS: u8 = 35;

// ---- stops

// The lowest and the highest number of a stop; each has its name and its sentence in `stop::Stop`.
pub const ZERO_ADDRESS: u8 = Stop::ZeroAddress as u8;

pub const OUTPUT_FULL: u8 = Stop::OutputFull as u8;
