//! Events.
ghost use Rattle.frame_steps.specs.Standing.{Begins};

use machine_words::MachineWords;
use undo_log::{Timeline, Undone};

/// Opens an event, before its words are set.
#[inline(always)]
pub fn begin<const W: usize, T: Timeline + Drop>(words: &mut MachineWords<T>, event: Undone)
    ensures { Begins T.history T.left W event words.old words.new }
{
    words.store.timeline.mark(event);
}
