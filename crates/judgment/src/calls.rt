// Kind 33: a call, with its record 35. The callee's record 7 is at e; x is the call, y its record 35, and `to` has for each region of the
// callee the caller's.
ghost use Rattle.std.specs.Prelude.{◌≡◌, ◌<◌, ◌≤◌, ◌^◌};
ghost use Rattle.functions.specs.Functions.{place_limit, Known};
ghost use Rattle.judgment.specs.Kinds.{call_at};
ghost use Rattle.judgment.specs.Calls.{word_limit, most_given, Given, call_region, call_regions, call_argument, call_arguments, call_result, call_parts};
ghost use Rattle.judgment.specs.Function.{keeps_rule};

use crate::function::Function;
use functions::readers::{region_term, register_term};
use rules::Record;
use rules::limits::CALLEES;

// The regions that a call gives: byte j of d for region j, of p.
fn given(d: usize, p: usize) -> [u8; 256]
    requires fact_1 { p ≤ most_given }
    requires fact_2 { d < word_limit }
    ensures { Given d p result }
{
    let mut r = [0u8; 256];
    for j in 0..p {
        r[j] = terms::digit(d, j) as u8;
    }
    r
}

impl Function<'_> {
    // The region given for region i is the caller's, and its type is that of region i.
    fn call_region(&self, e: usize, to: &[u8], x: Record, i: usize) -> bool
        requires { e < place_limit }
        ensures { result ≡ call_region self.now.file.now self.now.head e to.now x i }
    {
        let v = terms::digit(x.d as usize, i);
        let s = region_term(self.file, self.head, v);
        let t = region_term(self.file, e, i);
        self.in_scope(v) & equality::types_equal(self.file, self.terms, s, t, to)
    }

    fn call_regions(&self, e: usize, to: &[u8], x: Record) -> bool
        requires { e < place_limit }
        ensures { result ≡ call_regions self.now.file.now self.now.head e to.now x }
    {
        let z = walk::file::record_at(self.file, e);
        (0..usize::from(z.a)).all(|i| self.call_region(e, to, x, i))
    }

    // Argument i is a register of the type of the callee's register i.
    fn call_argument(&self, e: usize, to: &[u8], y: Record, i: usize) -> bool
        requires { e < place_limit }
        ensures { result ≡ call_argument self.now.file.now self.now.head e to.now y i }
    {
        let a = walk::file::entry_of(y, i);
        let v = self.entry(a);
        let t = register_term(self.file, e, i);
        (v.form != 0) & equality::equal_under(self.file, self.terms, usize::from(v.term), t, to)
    }

    fn call_arguments(&self, e: usize, to: &[u8], y: Record) -> bool
        requires { e < place_limit }
        ensures { result ≡ call_arguments self.now.file.now self.now.head e to.now y }
    {
        let z = walk::file::record_at(self.file, e);
        (0..walk::file::parameters_of(z)).all(|i| self.call_argument(e, to, y, i))
    }

    // The result goes into a register of the return type.
    fn call_result(&self, e: usize, to: &[u8], x: Record) -> bool
        requires { e < place_limit }
        ensures { result ≡ call_result self.now.file.now self.now.head e to.now x }
    {
        let z = walk::file::record_at(self.file, e);
        let u = walk::file::return_of(z);
        let v = self.entry(usize::from(x.a));
        (v.form != 0) & equality::equal_under(self.file, self.terms, usize::from(v.term), u, to)
    }

    // What a call asks of its result, its regions and its arguments.
    fn call_parts(&self, e: usize, to: &[u8], x: Record, y: Record) -> bool
        requires { e < place_limit }
        ensures { result ≡ call_parts self.now.file.now self.now.head e to.now x y }
    {
        self.call_result(e, to, x) & (self.call_regions(e, to, x) & self.call_arguments(e, to, y))
    }

    // 33: the call at record r.
    pub fn call(&self, k: usize, c: usize, starts: &[usize; CALLEES], r: usize) -> bool
        requires known { Known self.now.file.now self.now.terms k c starts.now }
        requires near { r < 2 ^ 32 }
        ensures { result ≡ keeps_rule self.now (call_at self.now.file.now r) }
    {
        let x = walk::file::record_at(self.file, r);
        let y = walk::file::record_at(self.file, r + 1);
        let g = usize::from(x.b);
        let e = walk::tables::start_of(self.file, starts, g);
        let z = walk::file::record_at(self.file, e);
        let p = usize::from(z.a);
        let bytes = given(x.d as usize, p);
        (g < c) & self.call_parts(e, &bytes[..p], x, y)
    }
}
