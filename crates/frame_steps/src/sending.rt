//! Lanes that go on to other steps.
ghost use Rattle.gang_types.specs.Masks.{lanes_of};
ghost use Rattle.gang_model.specs.Running.Lanes.{at};
ghost use Rattle.machine_states.specs.Effects.{sent_on};
ghost use Rattle.machine_words.specs.Words.{regions_in};
ghost use Rattle.frame_steps.specs.Written.{MaySend, Sets};

use gang_types::Mask;
use machine_words::{Head, LevelPart, MachineWords, Region};
use undo_log::Timeline;

/// Lanes of a level of a frame go on to a step. At most W words are set.
#[inline(always)]
pub fn send_on<const W: usize, T: Timeline + Drop>(
    frame: usize,
    level: usize,
    lanes: Mask,
    next: usize,
    words: &mut MachineWords<T>,
)
    requires { MaySend T.history T.left W frame level lanes words.old }
    ensures { Sets T.history T.left W (sent_on frame level (lanes_of W lanes) (λ k. next) (regions_in T.history W words.old)) W words.old words.new }
{
    send_each::<W, T>(frame, level, lanes, [next as u64; W], words);
}

/// Lanes of a level of a frame go on, each to its own step. At most W words are set.
#[inline(always)]
pub(crate) fn send_each<const W: usize, T: Timeline + Drop>(
    frame: usize,
    level: usize,
    lanes: Mask,
    targets: [u64; W],
    words: &mut MachineWords<T>,
)
    requires { MaySend T.history T.left W frame level lanes words.old }
    ensures { Sets T.history T.left W (sent_on frame level (lanes_of W lanes) (at targets.entry) (regions_in T.history W words.old)) W words.old words.new }
{
    words.set_lanes::<W>(
        Region::Head(frame, Head::Level(level, LevelPart::Numbers)),
        lanes,
        targets,
    );
}
