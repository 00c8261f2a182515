// An opened module: a view over the lent file with its table starts, as a struct. Its reader stands over a covered function on the slice
// and the tables; `head_of` serves callers that hold no such struct, as opening does.
#![tactic(auto)]

ghost use Rattle.std.specs.Prelude.{◌≡◌};
ghost use Rattle.rules.specs.Walk.{whole};
ghost use Rattle.rules.specs.Records.{head_of};
ghost use Rattle.walk.specs.Tables.{tables_of};

use rules::Record;
use walk::tables::Tables;

// The file lent, and what one pass over its records gives: how many terms, names and functions, and where each function starts.
#[derive(Clone, Copy)]
pub struct Module<'a> {
    pub file: &'a [u8],
    pub tables: Tables,
}

// The struct of a file. Made once the verdict has accepted; of a refused file it is made too, and means as little as `module_of` does.
pub fn module_of<'a>(file: &'a [u8]) -> Module<'a>
    ensures { (result.file ≡ file.entry) × (result.tables ≡ tables_of file.now) }
{
    let tables = walk::tables::tables_of(file);
    Module { file, tables }
}

// The record 7 of function g, by the tables: the covered function under the struct's reader.
fn head_in(file: &[u8], tables: Tables, g: u8) -> Record
    requires { tables ≡ tables_of file.now }
    ensures { result ≡ head_of file.now (whole file.now) g }
{
    let starts = tables.starts;
    walk::tables::head_of(file, &starts, g as usize)
}

impl<'a> Module<'a> {
    // The record 7 of function g.
    pub fn head(self, g: u8) -> Record
        requires { self.tables ≡ tables_of self.file.now }
        ensures { result ≡ head_of self.entry.file.now (whole self.entry.file.now) g }
    {
        head_in(self.file, self.tables, g)
    }
}

// The record 7 of function g of a file, for callers that have no struct.
pub fn head_of(file: &[u8], g: u8) -> Record
    ensures { result ≡ head_of file.now (whole file.now) g }
{
    module_of(file).head(g)
}
