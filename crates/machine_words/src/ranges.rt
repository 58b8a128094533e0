//! Where the words of a region lie.
ghost use Rattle.std.specs.Prelude.{◌≡◌, ◌^◌, ◌<◌, true, Some};
ghost use Rattle.gang_types.specs.Masks.{IsGangWidth};
ghost use Rattle.machine_words.specs.Ranges.{IsPlanned, is_there, range_of};
ghost use Rattle.machine_words.specs.Views.{region_view};

use crate::regions::Region;
use gang_memory::{Layout, Part};

// The range of a region.
#[inline(always)]
pub(crate) fn range<const W: usize>(layout: &Layout, region: Region) -> Part
    requires width { IsGangWidth W }
    requires planned { IsPlanned W layout.now }
    requires small { layout.now.words < 2 ^ 64 }
    requires there { is_there layout.now (region_view region) ≡ true }
    ensures { range_of W layout.now (region_view region) ≡ Some result }
{
    match region {
        Region::File(number) => layout.file[number],
        Region::Entry(number) => layout.entry[number],
        Region::Depth => layout.machine[0],
        Region::Head(frame, part) => layout.frames.head::<W>(frame, part.part()),
        Region::Local(frame, number) => layout.frames.variable::<W>(frame, number),
    }
}
