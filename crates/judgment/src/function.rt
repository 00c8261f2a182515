// A function as the typing rules ask about it.
ghost use Rattle.judgment.specs.Types.{IsFunction, is_function_prop};

use crate::types::{OPERANDS, RegisterType};

// The file, how many terms it has, the place of the function's record 7, and the types of its registers.
#[derive(Clone, Copy)]
pub struct Function<'a> {
    pub file: &'a [u8],
    pub terms: usize,
    pub head: usize,
    pub types: &'a [RegisterType; OPERANDS],
    pub ghost known: { IsFunction file.now terms head types.now } by { is_function_prop file.now head terms types.now },
}
