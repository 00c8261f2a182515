// The operands of an instruction, by one table, and the entries of a record. Each test is the definition of the same name in rules'
// specs/Operands.antt and specs/Records.antt.
#![tactic(auto)]

ghost use Rattle.std.specs.Prelude.{◌≡◌, ◌-◌, map};
ghost use Rattle.std.specs.List.{list_all, enumerate_from};
ghost use Rattle.rules.specs.File.{first_arithmetic};
ghost use Rattle.rules.specs.Operands.{classes_of, operand_fits};
ghost use Rattle.rules.specs.Records.{slot, four, seven, loose, four_loose, seven_loose};
ghost use Rattle.operands.specs.Classes.{number_of, numbers_of};
ghost use Rattle.operands.specs.Limits.{limits_of, limit_in, below_limits};

use rules::limits::FIRST_ARITHMETIC;
use rules::{Record, Walk};
use walk::file::entries;

// The classes of an operand, in the order of the definition's numbers.
#[derive(Clone, Copy)]
pub enum Class {
    Unused,
    Register,
    Function,
    Target,
    Operation,
    Any,
    Regions,
}

use Class::{Any, Function, Operation, Regions, Register, Target, Unused};

// The last operation of kind 18.
const LAST_OPERATION: usize = 13;

// The operands of a record: a, b, c and d.
pub const OPERANDS: usize = 4;

// "The operand classes of kinds 16 to 34 stand in one table": for each kind from 16 on the classes of a, b, c and d.
const KINDS: usize = 19;

const CLASSES: [[Class; OPERANDS]; KINDS] = [
    [Register, Unused, Unused, Any], // 16
    [Register, Register, Unused, Unused], // 17
    [Register, Register, Register, Operation], // 18
    [Register, Register, Unused, Unused], // 19
    [Register, Register, Unused, Unused], // 20
    [Register, Register, Unused, Unused], // 21
    [Register, Register, Unused, Unused], // 22
    [Register, Register, Unused, Any], // 23
    [Register, Register, Register, Unused], // 24
    [Register, Register, Unused, Unused], // 25
    [Register, Register, Unused, Unused], // 26
    [Register, Unused, Unused, Unused], // 27
    [Register, Unused, Unused, Unused], // 28
    [Register, Unused, Register, Unused], // 29
    [Unused, Register, Unused, Unused], // 30
    [Unused, Unused, Unused, Target], // 31
    [Register, Unused, Unused, Target], // 32
    [Register, Function, Unused, Regions], // 33
    [Register, Unused, Unused, Unused], // 34
];

// The classes of a kind's operands. (A kind below 16 has those of 16, as in the definition; above 34 all are unused.)
pub fn classes(kind: u8) -> [Class; OPERANDS]
    ensures { map number_of result ≡ numbers_of (classes_of kind) }
{
    let row = usize::from(kind.saturating_sub(FIRST_ARITHMETIC));
    if row < KINDS {
        CLASSES[row]
    } else {
        [Unused; OPERANDS]
    }
}

// Operand v of a class, in the function that the walk is in.
pub fn operand_fits(
    class: Class,
    v: usize,
    w: Walk,
    function_there: bool,
    regions_right: bool,
) -> bool
    ensures { result ≡ operand_fits (number_of class) v w.registers w.instructions function_there regions_right }
{
    match class {
        Unused => v == 0,
        Register => v < w.registers,
        Function => function_there,
        Target => v < w.instructions,
        Operation => v <= LAST_OPERATION,
        Any => true,
        Regions => regions_right,
    }
}

// For each class the number that its values are below. 0 for those that need another test.
pub const CLASS_COUNT: usize = 8;

pub fn limits(registers: usize, instructions: usize) -> [usize; CLASS_COUNT]
    ensures { result ≡ limits_of registers instructions }
{
    [
        1,
        registers,
        0,
        instructions,
        LAST_OPERATION + 1,
        4294967296,
        0,
        0,
    ]
}

fn limit(limits: &[usize; CLASS_COUNT], class: Class) -> usize
    ensures { result ≡ limit_in limits.now (number_of class) }
{
    limits[class as usize]
}

// The operands of x are below the limits of their classes: where they are, they fit.
pub fn below_limits(limits: &[usize; CLASS_COUNT], x: Record) -> bool
    ensures { result ≡ below_limits limits.now x }
{
    let [a, b, c, d] = classes(x.kind);
    ((usize::from(x.a) < limit(limits, a)) & (usize::from(x.b) < limit(limits, b)))
        & ((usize::from(x.c) < limit(limits, c)) & ((x.d as usize) < limit(limits, d)))
}

// ---- entries: the first n are below a limit and the others zero; or, where n is not known, each is one or the other

pub fn slot(v: usize, j: usize, n: usize, lim: usize) -> bool
    ensures { result ≡ slot v j n lim }
{
    if j < n { v < lim } else { v == 0 }
}

pub fn loose(v: usize, lim: usize) -> bool
    ensures { result ≡ loose v lim }
{
    (v < lim) | (v == 0)
}

fn slots(entries: &[u8], n: usize, lim: usize) -> bool
    ensures { result ≡ list_all (λ e. slot e.1 e.0 n lim) (enumerate_from 0 entries.now) }
{
    entries
        .iter()
        .enumerate()
        .all(|(j, v)| slot(usize::from(*v), j, n, lim))
}

fn all_loose(entries: &[u8], lim: usize) -> bool
    ensures { result ≡ list_all (λ v. loose v lim) entries.now }
{
    entries.iter().all(|v| loose(usize::from(*v), lim))
}

pub fn four(x: Record, n: usize, lim: usize) -> bool
    ensures { result ≡ four x n lim }
{
    slots(&x.d.to_le_bytes(), n, lim)
}

pub fn seven(x: Record, n: usize, lim: usize) -> bool
    ensures { result ≡ seven x n lim }
{
    slots(&entries(x), n, lim)
}

pub fn four_loose(x: Record, lim: usize) -> bool
    ensures { result ≡ four_loose x lim }
{
    all_loose(&x.d.to_le_bytes(), lim)
}

pub fn seven_loose(x: Record, lim: usize) -> bool
    ensures { result ≡ seven_loose x lim }
{
    all_loose(&entries(x), lim)
}
