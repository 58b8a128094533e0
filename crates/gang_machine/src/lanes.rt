//! Where each lane waits in the frames of a machine.
ghost use Rattle.std.specs.Prelude.{◌≡◌, ◌<◌, length};
ghost use Rattle.gang_types.specs.Masks.{IsGangWidth};
ghost use Rattle.gang_model.specs.Types.Tree.{RoundsOf};
ghost use Rattle.gang_model.specs.Debugger.Debugger.{Debugger, Setting, now};
ghost use Rattle.mask_states.specs.Points.{closing_number};
ghost use Rattle.machine_states.specs.Levels.{body_level, form_level, levels_in};
ghost use Rattle.machine_states.specs.Regions.{NumbersOf, OfLevel};
ghost use Rattle.machine_states.specs.Shows.{level_words};
ghost use Rattle.machine_words.specs.Words.{AreLaid, regions_in};
ghost use Rattle.frame_steps.specs.Rounds.{HasForm};
ghost use Rattle.frame_steps.specs.Standing.{AreFor};
ghost use Rattle.lane_places.specs.Levels.{number_in, number_in_levels};
ghost use Rattle.lane_places.specs.Places.{lane_spot_at};
ghost use Rattle.gang_machine.specs.LaneNumbers.{HasForms, number_unless_past};

use crate::machine::Machine;
use frame_steps::{CompiledProgram, kept_rounds};
use gang_types::{FuncId, Spot};
use lane_places::LaneMachine;
use machine_shown::step_at;
use machine_words::{Head, LevelPart, MachineWords, Region};
use undo_log::Timeline;

impl<const W: usize, T: Timeline + Drop> LaneMachine for Machine<W, T> {
    fn lane_spot(&self, depth: usize, lane: usize) -> Option<Spot> {
        let active = step_at::<W, T>(&self.compiled, &self.words, depth)?;
        let number = lane_number::<W, T>(
            &self.compiled,
            &self.words,
            active.frame,
            active.function,
            active.level,
            lane,
        );
        Some(Spot {
            function: FuncId(active.function),
            number: number as usize,
        })
    }
}

/// What a lane waits for in a frame, which runs this function: by its forms up to this level, in the first that the lane is not past, from
/// the innermost on, and else in the function's body.
fn lane_number<const W: usize, T: Timeline + Drop>(
    compiled: &CompiledProgram,
    words: &MachineWords<T>,
    frame: usize,
    function: usize,
    innermost: usize,
    lane: usize,
) -> u64
    requires lie { AreFor T.history W compiled.now words.now }
    requires there { frame < 64 }
    requires forms { HasForms W compiled.now (regions_in T.history W words.now) frame function innermost }
    ensures { (has : HasForms W compiled.now (regions_in T.history W words.now) frame function innermost)
        → result ≡ number_in_levels lane (levels_in W (level_words (regions_in T.history W words.now) frame) (closing_number has.f) has.forms) }
{
    let mut level = innermost;
    while level > 0 {
        match number_in_form::<W, T>(compiled, words, frame, function, level, lane) {
            Some(number) => return number,
            None => level -= 1,
        }
    }
    number_at::<W, T>(words, frame, 0, compiled.closing(function) as u64, lane)
}

/// What a lane waits for in a form of a frame that has begun, none where it is past it: it has nothing to do in the round under way, and no
/// round is left.
fn number_in_form<const W: usize, T: Timeline + Drop>(
    compiled: &CompiledProgram,
    words: &MachineWords<T>,
    frame: usize,
    function: usize,
    level: usize,
    lane: usize,
) -> Option<u64>
    requires lie { AreFor T.history W compiled.now words.now }
    requires there { frame < 64 }
    requires form { (form : RoundsOf) × HasForm W compiled.now (regions_in T.history W words.now) frame level function form }
    ensures { (form : RoundsOf) → HasForm W compiled.now (regions_in T.history W words.now) frame level function form
        → result ≡ number_unless_past lane (form_level W form (level_words (regions_in T.history W words.now) frame level)) }
{
    let end = words.word::<W>(Region::Head(frame, Head::Level(level, LevelPart::End)), 0);
    let number = number_at::<W, T>(words, frame, level, end, lane);
    if number != end {
        return Some(number);
    }
    let form = compiled.round_form(function, end as usize);
    let left = kept_rounds::<W, T>(words, frame, level, form);
    if !left.is_any_left() {
        return None;
    }
    Some(end)
}

/// What a lane waits for in a level of a frame with this end; one that the gang does not have is at the end.
fn number_at<const W: usize, T: Timeline + Drop>(
    words: &MachineWords<T>,
    frame: usize,
    level: usize,
    end: u64,
    lane: usize,
) -> u64
    requires width { IsGangWidth W }
    requires laid { AreLaid T.history W words.now }
    requires numbered { length (regions_in T.history W words.now (OfLevel frame level NumbersOf)) ≡ W }
    ensures { result ≡ number_in lane (body_level end (regions_in T.history W words.now (OfLevel frame level NumbersOf))) }
{
    let numbers = Region::Head(frame, Head::Level(level, LevelPart::Numbers));
    if lane < W {
        words.word::<W>(numbers, lane)
    } else {
        end
    }
}
