// The walk over the records, record by record. Each function is the definition of the same name in rules' specs/Walk.antt; those called
// `in_..` are its `step` in one phase.
ghost use Rattle.std.specs.Prelude.{◌≡◌};
ghost use Rattle.rules.specs.File.{is_term, is_instruction};
ghost use Rattle.rules.specs.Walk.{to, start, to_code, to_registers, headed, opened, to_term, named, done, called, to_function, to_name, step, next};
ghost use Rattle.rules.specs.declared.Phase.TheVariants.{Terms, Fields, Regions, Registers, Code, Arguments};
ghost use Rattle.walk.specs.Scan.{Room, in_filler};

use crate::file::{instructions_of, regions_of};
use rules::limits::{
    ARGUMENTS, CALL, FIELDS, FILLER, FIRST_ARITHMETIC, FUNCTION, INTEGER, LAST_CONTROL,
    MOST_ENTRIES, NAME, REGIONS, REGISTERS, STRUCT,
};
use rules::{Phase, Record, Walk};

pub fn is_term(kind: u8) -> bool
    ensures { result ≡ is_term kind }
{
    matches!(kind, INTEGER..=STRUCT)
}

pub fn is_instruction(kind: u8) -> bool
    ensures { result ≡ is_instruction kind }
{
    matches!(kind, FIRST_ARITHMETIC..=LAST_CONTROL)
}

// The same counts, waiting for p, of which n are to come.
pub fn to(w: Walk, p: Phase, n: usize) -> Walk
    ensures { result ≡ to w p n }
{
    Walk {
        phase: p,
        left: n,
        ..w
    }
}

pub fn start() -> Walk
    ensures { result ≡ start }
{
    Walk {
        phase: Phase::Terms,
        terms: 0,
        names: 0,
        functions: 0,
        head: 0,
        regions: 0,
        registers: 0,
        instructions: 0,
        left: 0,
        callee: 0,
    }
}

fn to_code(w: Walk) -> Walk
    ensures { result ≡ to_code w }
{
    if 0 < w.instructions {
        to(w, Phase::Code, w.instructions)
    } else {
        to(w, Phase::Functions, 0)
    }
}

fn to_registers(w: Walk) -> Walk
    ensures { result ≡ to_registers w }
{
    if 0 < w.registers {
        to(w, Phase::Registers, w.registers)
    } else {
        to_code(w)
    }
}

fn headed(w: Walk, x: Record, r: usize) -> Walk
    requires { Room w }
    ensures { result ≡ headed w x r }
{
    let regions = regions_of(x);
    Walk {
        phase: Phase::Regions,
        functions: w.functions + 1,
        head: r,
        regions,
        registers: usize::from(x.c),
        instructions: instructions_of(x),
        left: regions,
        callee: 0,
        ..w
    }
}

fn opened(w: Walk, x: Record, r: usize) -> Walk
    requires { Room w }
    ensures { result ≡ opened w x r }
{
    let v = headed(w, x, r);
    let n = regions_of(x);
    if 0 < n { v } else { to_registers(v) }
}

fn to_term(w: Walk) -> Walk
    requires { Room w }
    ensures { result ≡ to_term w }
{
    Walk {
        phase: Phase::Terms,
        terms: w.terms + 1,
        left: 0,
        ..w
    }
}

fn named(w: Walk, x: Record) -> Walk
    requires { Room w }
    ensures { result ≡ named w x }
{
    Walk {
        phase: Phase::Fields,
        names: w.names + 1,
        left: usize::from(x.b),
        ..w
    }
}

fn done(w: Walk) -> Walk
    ensures { result ≡ done w }
{
    let left = w.left;
    if left <= 1 {
        to(w, Phase::Functions, 0)
    } else {
        to(w, Phase::Code, left - 1)
    }
}

fn called(w: Walk, x: Record) -> Walk
    ensures { result ≡ called w x }
{
    Walk {
        phase: Phase::Arguments,
        callee: usize::from(x.b),
        ..w
    }
}

fn to_function(w: Walk, x: Record, r: usize) -> Walk
    requires { Room w }
    ensures { result ≡ to_function w x r }
{
    if x.kind == FUNCTION {
        opened(w, x, r)
    } else if x.kind == FILLER {
        to(w, Phase::Filler, 0)
    } else {
        to(w, Phase::Broken, 0)
    }
}

fn to_name(w: Walk, x: Record, r: usize) -> Walk
    requires { Room w }
    ensures { result ≡ to_name w x r }
{
    if x.kind == NAME {
        named(w, x)
    } else {
        to_function(w, x, r)
    }
}

fn in_terms(w: Walk, x: Record, r: usize) -> Walk
    requires { Room w }
    ensures { result ≡ step Terms w x r }
{
    if is_term(x.kind) {
        to_term(w)
    } else {
        to_name(w, x, r)
    }
}

fn in_fields(w: Walk, x: Record, r: usize) -> Walk
    ensures { result ≡ step Fields w x r }
{
    if x.kind == FIELDS {
        to(w, Phase::Names, 0)
    } else {
        to(w, Phase::Broken, 0)
    }
}

fn in_regions(w: Walk, x: Record, r: usize) -> Walk
    ensures { result ≡ step Regions w x r }
{
    if x.kind == REGIONS {
        to_registers(w)
    } else {
        to(w, Phase::Broken, 0)
    }
}

fn in_registers(w: Walk, x: Record, r: usize) -> Walk
    ensures { result ≡ step Registers w x r }
{
    let left = w.left;
    if x.kind == REGISTERS {
        if left <= MOST_ENTRIES {
            to_code(w)
        } else {
            to(w, Phase::Registers, left - MOST_ENTRIES)
        }
    } else {
        to(w, Phase::Broken, 0)
    }
}

fn in_code(w: Walk, x: Record, r: usize) -> Walk
    ensures { result ≡ step Code w x r }
{
    if x.kind == CALL {
        called(w, x)
    } else if is_instruction(x.kind) {
        done(w)
    } else {
        to(w, Phase::Broken, 0)
    }
}

fn in_arguments(w: Walk, x: Record, r: usize) -> Walk
    ensures { result ≡ step Arguments w x r }
{
    if x.kind == ARGUMENTS {
        done(w)
    } else {
        to(w, Phase::Broken, 0)
    }
}

// The walk is in the filler, and stays as it is.
pub fn in_filler(p: Phase) -> bool
    ensures { result ≡ in_filler p }
{
    matches!(p, Phase::Filler)
}

// Record r, which is x, is read.
pub fn next(w: Walk, x: Record, r: usize) -> Walk
    requires { Room w }
    ensures { result ≡ next w x r }
{
    match w.phase {
        Phase::Terms => in_terms(w, x, r),
        Phase::Names => to_name(w, x, r),
        Phase::Fields => in_fields(w, x, r),
        Phase::Functions => to_function(w, x, r),
        Phase::Regions => in_regions(w, x, r),
        Phase::Registers => in_registers(w, x, r),
        Phase::Code => in_code(w, x, r),
        Phase::Arguments => in_arguments(w, x, r),
        Phase::Filler | Phase::Broken => w,
    }
}
