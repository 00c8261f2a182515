// Refusal 6: what a function declares.
ghost use Rattle.std.specs.Prelude.{◌≡◌, ◌<◌};
ghost use Rattle.words.specs.First.{first};
ghost use Rattle.rules.specs.Decode.{module_of};
ghost use Rattle.rules.specs.Verdict.{function_test};
ghost use Rattle.functions.specs.Functions.{Known, function_at, scope_in};
ghost use Rattle.functions.specs.Declares.{region_fits, register_fits, regions_fit, registers_fit, result_fits, declared, parameter_fits, parameters_fit, entry};

use crate::head::Head;
use crate::readers::{region_term, register_term};
use rules::Record;
use rules::limits::CALLEES;
use terms::UNTYPED;

// The regions that entry j of a list may use, whose first n may use the region parameters only.
fn scope_in(x: Record, n: usize, j: usize) -> usize
    ensures { result ≡ scope_in x n j }
{
    if j < n {
        usize::from(x.a)
    } else {
        walk::file::regions_of(x)
    }
}

impl Head<'_> {
    // The type of region i uses its scope; an untyped one uses none.
    fn region_fits(&self, i: usize) -> bool
        ensures { result ≡ region_fits (function_at self.now.file.now self.now.place) i }
    {
        let x = walk::file::record_at(self.file, self.place);
        let most = scope_in(x, usize::from(x.a), i);
        let t = region_term(self.file, self.place, i);
        (t == UNTYPED) | terms::uses(self.file, self.terms, t, most)
    }

    // Register a is primitive and uses its scope.
    fn register_fits(&self, a: usize) -> bool
        ensures { result ≡ register_fits (function_at self.now.file.now self.now.place) a }
    {
        let x = walk::file::record_at(self.file, self.place);
        let params = walk::file::parameters_of(x);
        let most = scope_in(x, params, a);
        let t = register_term(self.file, self.place, a);
        terms::primitive(self.file, self.terms, t) & terms::uses(self.file, self.terms, t, most)
    }

    fn regions_fit(&self) -> bool
        ensures { result ≡ regions_fit (function_at self.now.file.now self.now.place) }
    {
        let x = walk::file::record_at(self.file, self.place);
        let count = walk::file::regions_of(x);
        (0..count).all(|i| self.region_fits(i))
    }

    fn registers_fit(&self) -> bool
        ensures { result ≡ registers_fit (function_at self.now.file.now self.now.place) }
    {
        let x = walk::file::record_at(self.file, self.place);
        (0..usize::from(x.c)).all(|i| self.register_fits(i))
    }

    // The return is primitive and uses region parameters only.
    fn result_fits(&self) -> bool
        ensures { result ≡ result_fits (function_at self.now.file.now self.now.place) }
    {
        let x = walk::file::record_at(self.file, self.place);
        let t = walk::file::return_of(x);
        let most = usize::from(x.a);
        terms::primitive(self.file, self.terms, t) & terms::uses(self.file, self.terms, t, most)
    }

    pub fn declared(&self) -> bool
        ensures { result ≡ declared (function_at self.now.file.now self.now.place) }
    {
        self.regions_fit() & (self.registers_fit() & self.result_fits())
    }

    // Parameter a is i32.
    fn parameter_fits(&self, a: usize) -> bool
        ensures { result ≡ parameter_fits (function_at self.now.file.now self.now.place) a }
    {
        let t = register_term(self.file, self.place, a);
        terms::is_integer(self.file, self.terms, t, 4)
    }

    fn parameters_fit(&self) -> bool
        ensures { result ≡ parameters_fit (function_at self.now.file.now self.now.place) }
    {
        let x = walk::file::record_at(self.file, self.place);
        let count = walk::file::parameters_of(x);
        (0..count).all(|i| self.parameter_fits(i))
    }

    // Function 0 has no region parameters, and its parameters and return are i32.
    pub fn entry(&self) -> bool
        ensures { result ≡ entry (function_at self.now.file.now self.now.place) }
    {
        let x = walk::file::record_at(self.file, self.place);
        let t = walk::file::return_of(x);
        (x.a == 0) & (self.parameters_fit() & terms::is_integer(self.file, self.terms, t, 4))
    }
}

// Refusal 6's test of function g.
fn function_fits(
    f: &[u8],
    n: usize,
    k: usize,
    c: usize,
    starts: &[usize; CALLEES],
    g: usize,
) -> bool
    requires known { Known f.now n k c starts.now }
    requires below { g < c }
    ensures { result ≡ function_test (module_of f.now) g }
{
    let head = Head {
        file: f,
        terms: n,
        place: walk::tables::start_of(f, starts, g),
    };
    head.declared() & (!(g == 0) | head.entry())
}

// The first function that refusal 6 finds, or their number.
pub fn first_function(f: &[u8], n: usize, k: usize, c: usize, starts: &[usize; CALLEES]) -> usize
    requires { Known f.now n k c starts.now }
    ensures { result ≡ first c (function_test (module_of f.now)) }
{
    (0..c)
        .find(|g| !function_fits(f, n, k, c, starts, *g))
        .unwrap_or(c)
}
