// A function's code as the typing rules of kinds 23 to 28 and 36 to 39 ask about it.
ghost use Rattle.functions.specs.Functions.{function_at};
ghost use Rattle.positions.specs.Table.{Table};
ghost use Rattle.instructions.specs.Plain.{Tight};
ghost use Rattle.instructions.specs.Props.{table_prop, tight_prop};

use judgment::function::Function;

// The function, how many structs its file has, and the table of extents of the file's terms; and what refusals 4 and 6 have established of
// the function.
#[derive(Clone, Copy)]
pub struct Code<'f, 't> {
    pub function: Function<'f>,
    pub structs: usize,
    pub table: &'t [u64],
    pub ghost tabled: { Table function.file.now function.terms structs table.now } by { table_prop function.file.now function.terms structs table.now },
    pub ghost tight: { Tight (function_at function.file.now function.head) } by { tight_prop (function_at function.file.now function.head) },
}
