// The pages of a range: its lowest, and the page past its last. Where that is not below the lowest, the range has none.
ghost use Rattle.std.specs.Prelude.{◌≡◌, ◌<◌, ◌≤◌};
ghost use Rattle.rules.specs.Limits.{pages};
ghost use Rattle.rules.specs.State.{all_pages, low_page, end_page};

use crate::Machine;
use rules::PageRange;

// Document 01's machine may own all but page 0.
pub fn all_pages() -> PageRange
    ensures { result ≡ all_pages }
{
    PageRange::default()
}

pub fn low_page(range: PageRange) -> u32
    ensures { result ≡ low_page range }
{
    Machine::FIRST_PAGE + u32::from(range.below)
}

pub fn end_page(range: PageRange) -> u32
    ensures { (result ≡ end_page range) × (result ≤ pages) }
{
    Machine::PAST_PAGE.saturating_sub(u32::from(range.above))
}
