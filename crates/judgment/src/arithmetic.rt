// Kinds 16 to 22.
ghost use Rattle.std.specs.Prelude.{◌≡◌, ◌^◌, ltb};
ghost use Rattle.rules.specs.Module.{constant, copy, operate, zero_extend, sign_extend, address, check};
ghost use Rattle.rules.specs.Decode.{arithmetic_of};
ghost use Rattle.judgment.specs.Rules.{operated};
ghost use Rattle.judgment.specs.Function.{in_file, keeps_rule};

use crate::function::Function;
use rules::Record;
use rules::kind::Kind;

// d fits w bytes.
pub fn fits(d: u32, w: usize) -> bool
    ensures { result ≡ ltb d (256 ^ w) }
{
    match w {
        0 => d < 1,
        1 => d < 256,
        2 => d < 65536,
        3 => d < 16777216,
        _ => true,
    }
}

impl Function<'_> {
    // 16: a becomes d.
    pub fn constant(&self, a: usize, d: u32) -> bool
        ensures { result ≡ keeps_rule self.now (constant a d) }
    {
        let e = self.entry(a);
        (e.form == 1) & fits(d, e.number as usize)
    }

    // 17: a copy of b.
    pub fn copy(&self, a: usize, b: usize) -> bool
        ensures { result ≡ keeps_rule self.now (copy a b) }
    {
        self.same_types(a, b)
    }

    // Operation o on b gives the type of a.
    fn operated(&self, o: u32, a: usize, b: usize) -> bool
        ensures { result ≡ operated (in_file self.now) o a b }
    {
        if o < 10 {
            self.same_types(a, b)
        } else if o == 10 {
            self.has_width(4, b) & self.has_width(4, a)
        } else {
            (o <= 13) & self.has_width(1, a)
        }
    }

    // 18: operation o on b and c.
    pub fn operate(&self, o: u32, a: usize, b: usize, c: usize) -> bool
        ensures { result ≡ keeps_rule self.now (operate o a b c) }
    {
        (self.is_integer(b) & self.same_types(c, b)) & self.operated(o, a, b)
    }

    // 19 and 20: integer b to integer a, zero-extended or sign-extended.
    pub fn extend(&self, a: usize, b: usize) -> bool
        ensures zero { result ≡ keeps_rule self.now (zero_extend a b) }
        ensures sign { result ≡ keeps_rule self.now (sign_extend a b) }
    {
        self.is_integer(a) & self.is_integer(b)
    }

    // 21: pointer b, typed or untyped, to i32 a.
    pub fn address(&self, a: usize, b: usize) -> bool
        ensures { result ≡ keeps_rule self.now (address a b) }
    {
        (self.is_pointer(b) | self.is_untyped(b)) & self.has_width(4, a)
    }

    // 22: i32 or pointer b becomes pointer a.
    pub fn check(&self, a: usize, b: usize) -> bool
        ensures { result ≡ keeps_rule self.now (check a b) }
    {
        self.is_pointer(a) & (self.has_width(4, b) | self.is_pointer(b))
    }

    // The instruction with record x keeps the rule of its kind.
    pub fn arithmetic(&self, x: Record) -> bool
        ensures { result ≡ keeps_rule self.now (arithmetic_of x) }
    {
        let a = usize::from(x.a);
        let b = usize::from(x.b);
        let c = usize::from(x.c);
        match Kind::of(x.kind).unwrap_or(Kind::Check) {
            Kind::Constant => self.constant(a, x.d),
            Kind::Copy => self.copy(a, b),
            Kind::Operate => self.operate(x.d, a, b, c),
            Kind::ZeroExtend | Kind::SignExtend => self.extend(a, b),
            Kind::Address => self.address(a, b),
            _ => self.check(a, b),
        }
    }
}
