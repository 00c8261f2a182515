// Refusal 4, record by record: what a record of each kind may hold. Each function is the definition of the same name in rules'
// specs/Records.antt, where w is the walk before the record, and end and starts are what is known of the whole file.
#![tactic(auto)]

ghost use Rattle.std.specs.Prelude.{◌≡◌, cond, ◌&&◌, ◌<◌, eqb};
ghost use Rattle.std.proofs.Props.{props};
ghost use Rattle.rules.specs.File.{is_term, kind_name, kind_function};
ghost use Rattle.rules.specs.Walk.{whole, names_end, is_end};
ghost use Rattle.rules.specs.Records.{is_filler, integer_fits, pointer_fits, array_fits, struct_fits, term_fits, name_fits, head_ranges, function_fits, list_fits, region_bytes_fit, callee_fits, instruction_fits, arguments_fit, fits, end_fits};
ghost use Rattle.operands.specs.Limits.{below_limits};
ghost use Rattle.walk.specs.Run.{counted_only};
ghost use Rattle.walk.specs.Scan.{callees};
ghost use Rattle.walk.specs.Tables.{starts_of};

use operands::{
    CLASS_COUNT, below_limits, classes, four, four_loose, operand_fits, seven, seven_loose,
};
use rules::limits::{
    ARGUMENTS, ARRAY, CALLEES, FIELDS, FUNCTION, INTEGER, MOST_ENTRIES, MOST_FUNCTIONS,
    MOST_INSTRUCTIONS, MOST_REGION_PARAMS, MOST_REGIONS, MOST_REGISTERS, MOST_STRUCTS, MOST_TERMS,
    NAME, POINTER, REGIONS, REGISTERS, SIZE_LIMIT, STRUCT,
};
use rules::{Phase, Record, Walk};
use walk::file::{instructions_of, parameters_of, regions_of, return_of};
use walk::run::counted_only;
use walk::step::{is_instruction, is_term};
use walk::tables::head_of;

// ---- where a table ends

fn names_end(t: Walk) -> bool
    ensures { result ≡ names_end t }
{
    (0 < t.functions) | !matches!(t.phase, Phase::Fields | Phase::Broken)
}

fn is_end(p: Phase) -> bool
    ensures { result ≡ is_end p }
{
    matches!(p, Phase::Functions | Phase::Filler)
}

// A file may end here, or nothing is known.
pub fn end_fits(p: Phase) -> bool
    ensures { result ≡ end_fits p }
{
    matches!(p, Phase::Functions | Phase::Filler | Phase::Broken)
}

// ---- terms, names and functions

pub fn is_filler(x: Record) -> bool
    ensures { result ≡ is_filler x }
{
    x == Record::default()
}

fn integer_fits(x: Record) -> bool
    ensures { result ≡ integer_fits x }
{
    matches!(x.a, 1 | 2 | 4) & (((x.b == 0) & (x.c == 0)) & (x.d == 0))
}

fn pointer_fits(w: Walk, x: Record) -> bool
    ensures { result ≡ pointer_fits w x }
{
    ((usize::from(x.a) < w.terms) & (usize::from(x.b) < MOST_REGIONS)) & ((x.c == 0) & (x.d == 0))
}

fn array_fits(w: Walk, x: Record) -> bool
    ensures { result ≡ array_fits w x }
{
    ((usize::from(x.a) < w.terms) & ((1 <= x.d) & (x.d <= SIZE_LIMIT as u32)))
        & ((x.b == 0) & (x.c == 0))
}

fn struct_fits(end: Walk, x: Record) -> bool
    ensures { result ≡ struct_fits end x }
{
    (((usize::from(x.a) < end.names) | !names_end(end)) & (x.b <= MOST_REGION_PARAMS))
        & ((x.c == 0) & four(x, usize::from(x.b), MOST_REGIONS))
}

fn term_fits(end: Walk, w: Walk, x: Record) -> bool
    ensures { result ≡ term_fits end w x }
{
    (w.terms < MOST_TERMS)
        & match x.kind {
            INTEGER => integer_fits(x),
            POINTER => pointer_fits(w, x),
            ARRAY => array_fits(w, x),
            STRUCT => struct_fits(end, x),
            _ => false,
        }
}

fn name_fits(w: Walk, x: Record) -> bool
    ensures { result ≡ name_fits w x }
{
    ((w.names < MOST_STRUCTS) & (x.kind == NAME))
        & (((x.a <= MOST_REGION_PARAMS) & ((1 <= x.b) & (usize::from(x.b) <= MOST_ENTRIES)))
            & ((x.c == 0) & (x.d == 0)))
}

fn head_ranges(x: Record) -> bool
    ensures { result ≡ head_ranges x }
{
    let parameters = parameters_of(x);
    let instructions = instructions_of(x);
    (((x.a <= MOST_REGION_PARAMS) & (regions_of(x) <= MOST_REGIONS))
        & ((1 <= x.c) & (x.c <= MOST_REGISTERS)))
        & (((parameters <= MOST_ENTRIES) & (parameters <= usize::from(x.c)))
            & ((1 <= instructions) & (instructions <= MOST_INSTRUCTIONS)))
}

fn function_fits(w: Walk, x: Record) -> bool
    ensures { result ≡ function_fits w x }
{
    ((w.functions < MOST_FUNCTIONS) & ((x.kind == FUNCTION) & (return_of(x) < w.terms)))
        & head_ranges(x)
}

// A record of kind k with the terms still to come.
fn list_fits(k: u8, w: Walk, x: Record) -> bool
    ensures { result ≡ list_fits k w x }
{
    (x.kind == k) & seven(x, w.left, w.terms)
}

// ---- code

// What is known of the whole file: where its functions start, and the walk over all of its records.
#[derive(Clone, Copy)]
struct Known<'a> {
    f: &'a [u8],
    starts: &'a [usize; CALLEES],
    end: Walk,
    ghost starts_right: { starts.now ≡ starts_of f.now } by { Prim.hlevel props },
    ghost end_right: { end ≡ (whole f.now).walk } by { Prim.hlevel props },
}

impl Known<'_> {
    fn region_bytes_fit(&self, w: Walk, x: Record) -> bool
        ensures { result ≡ region_bytes_fit self.now.f.now (whole self.now.f.now) w x }
    {
        if usize::from(x.b) < self.end.functions {
            let h = head_of(self.f, self.starts, usize::from(x.b));
            four(x, usize::from(h.a), w.regions)
        } else {
            four_loose(x, w.regions)
        }
    }

    fn callee_fits(&self, x: Record) -> bool
        ensures { result ≡ callee_fits (whole self.now.f.now) x }
    {
        (usize::from(x.b) < self.end.functions) | !is_end(self.end.phase)
    }

    fn instruction_fits(&self, w: Walk, x: Record) -> bool
        ensures { result ≡ instruction_fits self.now.f.now (whole self.now.f.now) w x }
    {
        let [a, b, c, d] = classes(x.kind);
        let callee = self.callee_fits(x);
        let regions = self.region_bytes_fit(w, x);
        let a = operand_fits(a, usize::from(x.a), w, false, false);
        let b = operand_fits(b, usize::from(x.b), w, callee, false);
        let c = operand_fits(c, usize::from(x.c), w, false, false);
        let d = operand_fits(d, x.d as usize, w, false, regions);
        is_instruction(x.kind) & ((a & b) & (c & d))
    }

    fn arguments_fit(&self, w: Walk, x: Record) -> bool
        requires { w.callee < callees }
        ensures { result ≡ arguments_fit self.now.f.now (whole self.now.f.now) w x }
    {
        let g = w.callee;
        (x.kind == ARGUMENTS)
            & if g < self.end.functions {
                let h = head_of(self.f, self.starts, g);
                seven(x, parameters_of(h), w.registers)
            } else {
                seven_loose(x, w.registers)
            }
    }
}

// An instruction that the walk counts and no more, with so many to come, whose operands are below their limits.
pub fn plainly_fits(limits: &[usize; CLASS_COUNT], left: usize, x: Record) -> bool
    ensures { result ≡ counted_only x.kind left && below_limits limits.now x }
{
    counted_only(x.kind, left) & below_limits(limits, x)
}

// ---- by the walk's phase

fn name_or_function_fits(w: Walk, x: Record) -> bool
    ensures { result ≡ cond (eqb x.kind kind_name) (name_fits w x) (function_fits w x) }
{
    if x.kind == NAME {
        name_fits(w, x)
    } else {
        function_fits(w, x)
    }
}

fn first_fits(end: Walk, w: Walk, x: Record) -> bool
    ensures { result ≡ cond (is_term x.kind) (term_fits end w x) (cond (eqb x.kind kind_name) (name_fits w x) (function_fits w x)) }
{
    if is_term(x.kind) {
        term_fits(end, w, x)
    } else {
        name_or_function_fits(w, x)
    }
}

fn function_or_filler_fits(w: Walk, x: Record) -> bool
    ensures { result ≡ cond (eqb x.kind kind_function) (function_fits w x) (is_filler x) }
{
    if x.kind == FUNCTION {
        function_fits(w, x)
    } else {
        is_filler(x)
    }
}

// Record x is of a kind that may stand after the walk w, and its bytes are what the kind asks.
pub fn fits(f: &[u8], starts: &[usize; CALLEES], end: Walk, w: Walk, x: Record) -> bool
    requires fact_1 { starts.now ≡ starts_of f.now }
    requires fact_2 { end ≡ (whole f.now).walk }
    requires fact_3 { w.callee < callees }
    ensures { result ≡ fits f.now (whole f.now) w x }
{
    let known = Known { f, starts, end };
    match w.phase {
        Phase::Terms => first_fits(end, w, x),
        Phase::Names => name_or_function_fits(w, x),
        Phase::Fields => list_fits(FIELDS, w, x),
        Phase::Functions => function_or_filler_fits(w, x),
        Phase::Regions => list_fits(REGIONS, w, x),
        Phase::Registers => list_fits(REGISTERS, w, x),
        Phase::Code => known.instruction_fits(w, x),
        Phase::Arguments => known.arguments_fit(w, x),
        Phase::Filler => is_filler(x),
        Phase::Broken => true,
    }
}
