// What the fresh machine's one frame holds, written one by one: the arguments as registers, and its local regions.
ghost use Rattle.std.specs.Prelude.{◌≡◌, ◌*◌, ◌≤◌, length};
ghost use Rattle.rules.specs.Limits.{state_bytes, most_entries, most_regions};
ghost use Rattle.state.specs.Filling.{put_registers, put_regions};
ghost use Rattle.state.specs.Fresh.{arguments_of, itself};

use crate::fields::{put_region, put_register};
use crate::{LiveRegion, RegionVariable};
use words::word_at;

// Parameter i of function 0 is the number in the bytes from 4 i on.
pub fn first_arguments(arguments: &[u8], s: &mut [u8], n: usize)
    requires { (length s.old ≡ state_bytes) × (n ≤ most_entries) × (length arguments.now ≡ 4 * n) }
    ensures { s.new ≡ put_registers 0 (arguments_of arguments.now) n s.old }
{
    for i in 0..n {
        put_register(s, 0, i as u32, word_at(arguments, 4 * i));
    }
}

// Local region i of the first frame is live region i: no other is live.
pub fn first_regions(s: &mut [u8], n: u32)
    requires { (length s.old ≡ state_bytes) × (n ≤ most_regions) }
    ensures { s.new ≡ put_regions 0 0 itself n s.old }
{
    for i in 0..n {
        put_region(s, 0, RegionVariable(i), LiveRegion(i as u8));
    }
}
