// What the rules ask of a function's registers.
ghost use Rattle.std.specs.Prelude.{◌≡◌, ◌<◌, ltb};
ghost use Rattle.rules.specs.Module.{regions};
ghost use Rattle.words.specs.Decide.{does};
ghost use Rattle.rules.specs.Types.{region_of, dec_tree};
ghost use Rattle.rules.specs.Decode.{module_of};
ghost use Rattle.terms.specs.Extents.{Terms};
ghost use Rattle.functions.specs.Functions.{place_limit, function_at};
ghost use Rattle.judgment.specs.Types.{Describes};
ghost use Rattle.judgment.specs.Registers.{is_register, is_integer, is_pointer, is_untyped, has_width, same_types, points_to, together};
ghost use Rattle.judgment.specs.Function.{in_file};

use crate::function::Function;
use crate::types::{RegisterType, entry};
use functions::readers::register_term;

// The region of the type of register a, where it is a pointer.
pub fn region_of(f: &[u8], n: usize, h: usize, a: usize) -> u8
    requires fact_1 { Terms f.now n }
    requires fact_2 { h < place_limit }
    ensures { result ≡ (region_of ((function_at f.now h).register_type a)).number }
{
    let t = register_term(f, h, a);
    let v = terms::target_region(f, n, t);
    v.0
}

impl Function<'_> {
    // The type of register a.
    pub fn entry(&self, a: usize) -> RegisterType
        ensures { Describes self.now.file.now self.now.head a result }
    {
        entry(self.file, self.terms, self.head, self.types, a)
    }

    pub fn is_integer(&self, a: usize) -> bool
        ensures { result ≡ is_integer (in_file self.now) a }
    {
        self.entry(a).form == 1
    }

    pub fn is_pointer(&self, a: usize) -> bool
        ensures { result ≡ is_pointer (in_file self.now) a }
    {
        self.entry(a).form == 2
    }

    pub fn is_untyped(&self, a: usize) -> bool
        ensures { result ≡ is_untyped (in_file self.now) a }
    {
        self.entry(a).form == 11
    }

    // a is the integer of w bytes.
    pub fn has_width(&self, w: usize, a: usize) -> bool
        ensures { result ≡ has_width (in_file self.now) w a }
    {
        let e = self.entry(a);
        (e.form == 1) & (e.number as usize == w)
    }

    // Terms t and u are equal.
    fn equal(&self, t: u8, u: u8) -> bool
        ensures { let m = module_of self.now.file.now in result ≡ does (dec_tree (m.term t) (m.term u)) }
    {
        equality::equal(self.file, self.terms, usize::from(t), usize::from(u))
    }

    // a and b have equal types.
    pub fn same_types(&self, a: usize, b: usize) -> bool
        ensures { result ≡ same_types (in_file self.now) a b }
    {
        let d = self.entry(a);
        let e = self.entry(b);
        (d.form != 0) & ((e.form != 0) & self.equal(d.term, e.term))
    }

    // p points to the type of v.
    pub fn points_to(&self, p: usize, v: usize) -> bool
        ensures { result ≡ points_to (in_file self.now) p v }
    {
        let d = self.entry(p);
        let e = self.entry(v);
        ((d.form == 2) & (e.form != 0)) & self.equal(d.target, e.term)
    }

    // a and b are pointers into one region.
    pub fn together(&self, a: usize, b: usize) -> bool
        ensures { result ≡ together (in_file self.now) a b }
    {
        let d = self.entry(a);
        let e = self.entry(b);
        ((d.form == 2) & (e.form == 2)) & (d.region == e.region)
    }

    // Region v is the function's.
    pub fn in_scope(&self, v: usize) -> bool
        ensures { result ≡ ltb v (regions (in_file self.now)) }
    {
        let x = walk::file::record_at(self.file, self.head);
        v < walk::file::regions_of(x)
    }
}
