// What the checker keeps of the types of a function's registers, read from the file once a function. The function's record 7 is at h.
ghost use Rattle.std.specs.Prelude.{◌≡◌, ◌<◌, ◌≤◌};
ghost use Rattle.terms.specs.Heads.{place_of};
ghost use Rattle.terms.specs.Extents.{Terms};
ghost use Rattle.functions.specs.Functions.{place_limit, function_at};
ghost use Rattle.judgment.specs.Registers.{is_register};
ghost use Rattle.judgment.specs.Types.{Describes, Described};

use functions::readers::register_term;

// An operand is a byte.
pub const OPERANDS: usize = 256;

// The type of a register: its form, by the number that the definition `form` gives it, and 0 where there is no such register, so that a
// table of 256 is 2 KiB, cleared at once; the region of a pointer, typed or untyped; the term, by number,
// and the term inside a pointer; the width of an integer, the bytes of an untyped pointer.
#[derive(Clone, Copy)]
pub struct RegisterType {
    pub form: u8,
    pub region: u8,
    pub term: u8,
    pub target: u8,
    pub number: u32,
}

impl RegisterType {
    pub const UNKNOWN: RegisterType = RegisterType {
        form: 0,
        region: 0,
        term: 0,
        target: 0,
        number: 0,
    };
}

// ---- from the file

// The term at place p, by number: n, which names nothing, at place 0, as for `place_of`, of which this is the inverse.
fn term_at(n: usize, p: usize) -> usize
    requires { p ≤ n }
    ensures { (place_of n result ≡ p) × (result ≤ n) }
{
    if p > 0 { p - 1 } else { n }
}

// a is a register.
pub fn is_register(f: &[u8], h: usize, a: usize) -> bool
    ensures { result ≡ is_register (function_at f.now h) a }
{
    let c = walk::file::byte_at(f, h, 3);
    a < usize::from(c)
}

// The type of register a.
pub(crate) fn description(f: &[u8], n: usize, h: usize, a: usize) -> RegisterType
    requires fact_1 { Terms f.now n }
    requires fact_2 { h < place_limit }
    ensures { Describes f.now h a result }
{
    let t = register_term(f, h, a);
    let x = terms::head_term(f, n, t);
    let form = if is_register(f, h, a) {
        terms::form_no(x)
    } else {
        0
    };
    RegisterType {
        form: form as u8,
        region: terms::region_no(x) as u8,
        term: term_at(n, terms::place_of(n, t)) as u8,
        target: term_at(n, terms::inner_no(x)) as u8,
        number: terms::main_no(x) as u32,
    }
}

// ---- once a function

// The types of its registers; unknown where there is none.
pub fn types_of(f: &[u8], n: usize, h: usize) -> [RegisterType; OPERANDS]
    requires fact_1 { Terms f.now n }
    requires fact_2 { h < place_limit }
    ensures { Described f.now h result }
{
    let mut types = [RegisterType::UNKNOWN; OPERANDS];
    let x = walk::file::record_at(f, h);
    for a in 0..usize::from(x.c) {
        types[a] = description(f, n, h, a);
    }
    types
}

// The type of register a, from the table where it is there.
pub fn entry(
    f: &[u8],
    n: usize,
    h: usize,
    types: &[RegisterType; OPERANDS],
    a: usize,
) -> RegisterType
    requires fact_1 { Terms f.now n }
    requires fact_2 { h < place_limit }
    requires fact_3 { Described f.now h types.now }
    ensures { Describes f.now h a result }
{
    if a < OPERANDS {
        let e = types[a];
        if e.form != 0 {
            return e;
        }
    }
    description(f, n, h, a)
}
