// A state that nobody has tested, with what a call finds once of its file's types: how many terms and structs there are, and the table of
// extents.
ghost use Rattle.positions.specs.Table.{Table};
ghost use Rattle.objects.specs.Once.{Table-prop};

use stack::untested::UntestedState;

#[derive(Clone, Copy)]
pub struct TypedState<'a> {
    pub state: UntestedState<'a>,
    pub terms: usize,
    pub structs: usize,
    pub extents: &'a [u64],
    pub ghost table: { Table state.file.now terms structs extents.now } by { Table-prop state.file.now terms structs extents.now },
}
