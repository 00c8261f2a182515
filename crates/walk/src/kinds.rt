// The one match on the kind byte: it gives the group, by which the checker picks the typing rule (instructions) and the preparation of a
// run the step (packing).
ghost use Rattle.std.specs.Prelude.{◌≡◌};
ghost use Rattle.rules.specs.File.{group_of};

use rules::Group;
use rules::limits::{
    FIRST_ARITHMETIC, FIRST_CONTROL, FIRST_MEMORY, FIRST_UNTYPED, LAST_ARITHMETIC, LAST_CONTROL,
    LAST_MEMORY, LAST_UNTYPED,
};

// "Which rule a step follows is chosen by the kind, in the ranges above." What is no instruction was refused with 4; it counts as
// arithmetic, so that every byte has a group.
pub fn group_of(kind: u8) -> Group
    ensures { result ≡ group_of kind }
{
    match kind {
        FIRST_ARITHMETIC..=LAST_ARITHMETIC => Group::Arithmetic,
        FIRST_MEMORY..=LAST_MEMORY => Group::Memory,
        FIRST_CONTROL..=LAST_CONTROL => Group::Control,
        FIRST_UNTYPED..=LAST_UNTYPED => Group::Memory,
        _ => Group::Arithmetic,
    }
}
