//! The first words of a run.
ghost use Rattle.std.specs.Prelude.{◌≡◌, ℕ, [], List, Some, length, replicate};
ghost use Rattle.gang_types.specs.Masks.{IsGangWidth};
ghost use Rattle.gang_model.specs.Types.Tree.{Function as ModelFunction};
ghost use Rattle.gang_model.specs.Debugger.Events.{Row, global_words};
ghost use Rattle.typed_tree.specs.Views.{global_view};
ghost use Rattle.gang_memory.specs.Layouts.{global_words as words_long};
ghost use Rattle.gang_memory.specs.Recorded.{without_words};
ghost use Rattle.mask_states.specs.MaskedStep.{masked_start};
ghost use Rattle.machine_states.specs.Regions.{OfFile};
ghost use Rattle.machine_words.specs.Words.{AreLaid, regions_in};
ghost use Rattle.frame_steps.specs.Compiled.{program_of};
ghost use Rattle.frame_steps.specs.Standing.{AreFor, IsShown};
ghost use Rattle.machine_steps.specs.Beginning.{FillsFile, FillsVariable, HaveEntryLengths, MayBegin};

use crate::calls::begin_frame;
use crate::rows::give_rows;
use frame_steps::CompiledProgram;
use gang_types::Mask;
use input_rows::InputRow;
use machine_words::{MachineWords, Region};
use typed_tree::Global;
use undo_log::Timeline;

/// Writes the first words of a run that begins with these rows of an input: those of the file, those of the rows, and the frame of the
/// entry, begun for all lanes. Nothing is kept of the words before.
pub fn start<const W: usize, T: Timeline + Drop>(
    compiled: &CompiledProgram,
    entry: usize,
    rows: &[InputRow],
    words: &mut MachineWords<T>,
)
    requires lie { AreFor T.history W compiled.now words.old }
    requires fresh { (T.history words.old.store.timeline).past ≡ [] }
    requires rows { (f : ModelFunction) × (given : List Row) × MayBegin compiled.now.program entry f given rows.now
        × HaveEntryLengths (regions_in T.history W words.old) given }
    ensures lie { AreFor T.history W compiled.now words.new }
    ensures shown { (f : ModelFunction) (given : List Row) → MayBegin compiled.now.program entry f given rows.now
        → HaveEntryLengths (regions_in T.history W words.old) given
        → IsShown T.history W compiled.now words.new (masked_start (program_of compiled.now) entry given W) }
    ensures kept { without_words (T.history words.new.store.timeline) ≡ without_words (T.history words.old.store.timeline) }
{
    fill_file::<W, T>(compiled, words);
    give_rows::<W, T>(compiled, entry, rows, words);
    begin_frame::<W, T>(compiled, 0, entry, Mask::all::<W>(), words);
}

/// Writes the first words of each variable of the file.
fn fill_file<const W: usize, T: Timeline + Drop>(
    compiled: &CompiledProgram,
    words: &mut MachineWords<T>,
)
    requires lie { AreFor T.history W compiled.now words.old }
    requires fresh { (T.history words.old.store.timeline).past ≡ [] }
    ensures { FillsFile T.history W compiled.now words.old words.new }
{
    for (number, global) in compiled.program.globals.iter().enumerate() {
        fill::<W, T>(number, global, words);
    }
}

/// Writes the first words of a variable of the file: those of its literal, or 0 for each element of an array.
fn fill<const W: usize, T: Timeline + Drop>(
    number: usize,
    global: &Global,
    words: &mut MachineWords<T>,
)
    requires width { IsGangWidth W }
    requires laid { AreLaid T.history W words.old }
    requires fresh { (T.history words.old.store.timeline).past ≡ [] }
    requires long { length (regions_in T.history W words.old (OfFile number)) ≡ words_long W global.now }
    ensures { FillsVariable T.history W number (global_words W (global_view global.now)) words.old words.new }
{
    if global.variable.is_array {
        clear::<W, T>(number, global.length as usize, words);
    } else {
        words.assign::<W>(
            Region::File(number),
            global.variable.rate,
            Mask::all::<W>(),
            [global.word; W],
        );
    }
}

/// Writes 0 to each element of an array of the file.
fn clear<const W: usize, T: Timeline + Drop>(
    number: usize,
    count: usize,
    words: &mut MachineWords<T>,
)
    requires width { IsGangWidth W }
    requires laid { AreLaid T.history W words.old }
    requires fresh { (T.history words.old.store.timeline).past ≡ [] }
    requires long { length (regions_in T.history W words.old (OfFile number)) ≡ count }
    ensures { FillsVariable T.history W number (replicate count 0) words.old words.new }
{
    for index in 0..count {
        words.set::<W>(Region::File(number), index, 0);
    }
}
