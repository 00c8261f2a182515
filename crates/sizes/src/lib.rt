// Refusal 5: the sizes of terms and structs, argument counts, and the regions that fields use. Each contract is an equation with a
// definition of rules' specs/ or of specs/; what is asked of the file is what refusals 1 to 4 have established.
#![tactic(auto)]

ghost use Rattle.std.specs.Prelude.{◌≡◌, ◌<◌};
ghost use Rattle.words.specs.First.{first};
ghost use Rattle.words.specs.Decide.{does};
ghost use Rattle.rules.specs.WellTyped.{dec_counts};
ghost use Rattle.rules.specs.Decode.{module_of};
ghost use Rattle.rules.specs.Verdict.{term_test, struct_test};
ghost use Rattle.terms.specs.Extents.{Terms, Counted};
ghost use Rattle.sizes.specs.Sizes.{word_limit, arity_of, field_term, field_fits, fields_fit};

use rules::limits::SIZE_LIMIT;

// The regions of struct `number`, of a file with n terms.
fn arity(f: &[u8], n: usize, number: usize) -> usize
    requires fact_1 { Terms f.now n }
    requires fact_2 { number < word_limit }
    ensures { result ≡ arity_of f.now n number }
{
    let x = walk::file::record_at(f, n + 2 * number);
    usize::from(x.a)
}

// The term of its field i.
fn field_term(f: &[u8], n: usize, number: usize, i: usize) -> usize
    requires fact_1 { Terms f.now n }
    requires fact_2 { number < 256 }
    ensures { result ≡ field_term f.now n number i }
{
    let x = walk::file::record_at(f, n + 2 * number + 1);
    walk::file::entry_of(x, i)
}

// A struct term has as many arguments as its struct has regions.
fn counts(f: &[u8], n: usize, t: usize) -> bool
    requires { Terms f.now n }
    ensures { let m = module_of f.now in result ≡ does (dec_counts m (m.term t)) }
{
    let x = terms::head_term(f, n, t);
    let regions = arity(f, n, terms::main_no(x));
    !(terms::form_no(x) == 4) | (terms::args_no(x) == regions)
}

// Refusal 5's test of term t.
fn term_fits(f: &[u8], n: usize, k: usize, t: usize) -> bool
    requires { Counted f.now n k }
    ensures { result ≡ term_test (module_of f.now) t }
{
    let e = terms::extent_of_term(f, n, k, t);
    (e.size <= SIZE_LIMIT) & counts(f, n, t)
}

// The first term that refusal 5 finds, or their number.
pub fn first_term(f: &[u8], n: usize, k: usize) -> usize
    requires { Counted f.now n k }
    ensures { result ≡ first n (term_test (module_of f.now)) }
{
    (0..n).find(|t| !term_fits(f, n, k, *t)).unwrap_or(n)
}

// Field i of struct `number` uses its regions.
fn field_fits(f: &[u8], n: usize, number: usize, i: usize) -> bool
    requires fact_1 { Terms f.now n }
    requires fact_2 { number < 256 }
    ensures { result ≡ field_fits f.now n number i }
{
    let most = arity(f, n, number);
    let t = field_term(f, n, number, i);
    terms::uses(f, n, t, most)
}

fn fields_fit(f: &[u8], n: usize, number: usize) -> bool
    requires fact_1 { Terms f.now n }
    requires fact_2 { number < 256 }
    ensures { result ≡ fields_fit f.now n number }
{
    let x = walk::file::record_at(f, n + 2 * number);
    (0..usize::from(x.b)).all(|i| field_fits(f, n, number, i))
}

// Refusal 5's test of struct `number`.
fn struct_fits(f: &[u8], n: usize, k: usize, number: usize) -> bool
    requires fact_1 { Counted f.now n k }
    requires fact_2 { number < k }
    ensures { result ≡ struct_test (module_of f.now) number }
{
    let e = terms::extent_of_struct(f, n, k, number);
    (e.size <= SIZE_LIMIT) & fields_fit(f, n, number)
}

// The first struct that refusal 5 finds, or their number.
pub fn first_struct(f: &[u8], n: usize, k: usize) -> usize
    requires { Counted f.now n k }
    ensures { result ≡ first k (struct_test (module_of f.now)) }
{
    (0..k).find(|s| !struct_fits(f, n, k, *s)).unwrap_or(k)
}
