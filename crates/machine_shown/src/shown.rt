//! The words of variables, as a debugger shows and sets them.
ghost use Rattle.std.specs.Prelude.{◌≡◌, ◌≤◌, true, false, Some, length, slice_index};
ghost use Rattle.gang_types.specs.Masks.{IsGangWidth};
ghost use Rattle.gang_model.specs.Types.Tree.{Variable};
ghost use Rattle.gang_model.specs.Debugger.Debugger.{poked_by, shown_words};
ghost use Rattle.gang_model.specs.Debugger.Events.{InFrame, poked};
ghost use Rattle.mask_states.specs.Masked.{Masked};
ghost use Rattle.undo_log.specs.declared.timeline.Undone.TheVariants as undone;
ghost use Rattle.machine_words.specs.Words.{AreLaid, Writes, left_of, regions_in};
ghost use Rattle.frame_steps.specs.Standing.{AreSound, IsShown, Records};
ghost use Rattle.debug_traits.specs.Frames.{state_at};
ghost use Rattle.machine_shown.specs.Frames.{regions_up_to};
ghost use Rattle.machine_shown.specs.Seen.{IsPartAt, IsPartOf, IsSeen, IsSeenAt};
ghost use Rattle.machine_shown.specs.ShownWords.{AreInRegion, IsCountOf, IsSetAt, IsSetIn, IsWordOf, has_part, part_set, region_shown, shown_view, words_shown};

use crate::found::{ShownWords, find_shown};
use crate::frames::TOP;
use frame_steps::{CompiledProgram, begin};
use gang_types::{Mask, VarId};
use machine_words::MachineWords;
use undo_log::{Timeline, Undone};

/// A word of a variable of the file, or of the function of the frame at a depth: of a scalar, or an element of an array. A word that it does
/// not have is 0.
pub fn word<const W: usize, T: Timeline + Drop>(
    compiled: &CompiledProgram,
    words: &MachineWords<T>,
    depth: usize,
    variable: VarId,
    index: usize,
) -> u64
    requires sound { AreSound T.history W compiled.now words.now }
    ensures shown { (masked : Masked) (v : Variable) → IsShown T.history W compiled.now words.now masked → IsSeenAt compiled.now depth masked v → v.id ≡ variable
        → result ≡ slice_index (shown_words (state_at depth masked.state) v) index }
    ensures reads { IsWordOf W compiled.now (regions_up_to depth (regions_in T.history W words.now)) variable index result }
{
    match find_shown::<W, T>(compiled, words, depth, variable) {
        Some(shown) => word_of::<W, T>(words, shown, index),
        None => 0,
    }
}

/// One of the words that are shown; 0 behind them.
fn word_of<const W: usize, T: Timeline + Drop>(
    words: &MachineWords<T>,
    shown: ShownWords,
    index: usize,
) -> u64
    requires width { IsGangWidth W }
    requires laid { AreLaid T.history W words.now }
    requires there { AreInRegion W (regions_in T.history W words.now) (shown_view shown) }
    ensures { result ≡ slice_index (words_shown W (regions_in T.history W words.now) (shown_view shown)) index }
{
    if index >= shown.count::<W>() {
        return 0;
    }
    match shown {
        ShownWords::Scalar { region, rate: _ } => words.word::<W>(region, index),
        ShownWords::Elements(view) => words.element::<W>(view, index),
    }
}

/// How many words a variable of the file, or of the function of the frame at a depth, has that are shown: a scalar by its rate, an array its
/// elements. One that there is not has none.
pub fn count<const W: usize, T: Timeline + Drop>(
    compiled: &CompiledProgram,
    words: &MachineWords<T>,
    depth: usize,
    variable: VarId,
) -> usize
    requires sound { AreSound T.history W compiled.now words.now }
    ensures shown { (masked : Masked) (v : Variable) → IsShown T.history W compiled.now words.now masked → IsSeenAt compiled.now depth masked v → v.id ≡ variable
        → result ≡ length (shown_words (state_at depth masked.state) v) }
    ensures counts { IsCountOf W compiled.now (regions_up_to depth (regions_in T.history W words.now)) variable result }
{
    match find_shown::<W, T>(compiled, words, depth, variable) {
        Some(shown) => shown.count::<W>(),
        None => 0,
    }
}

/// Sets a scalar of the file, or of the function of the top frame, in all lanes or in one, or an element of an array, and records it.
/// Where there is no such variable, lane or element, the record is all that is made.
pub fn poke<const W: usize, T: Timeline + Drop>(
    compiled: &CompiledProgram,
    words: &mut MachineWords<T>,
    variable: VarId,
    at: Option<u32>,
    word: u64,
)
    requires sound { AreSound T.history W compiled.now words.old }
    ensures sound { AreSound T.history W compiled.now words.new }
    ensures records { Records T.history W undone.Poke words.old words.new }
    ensures sets { IsSetIn W compiled.now variable at word (regions_in T.history W words.old) (regions_in T.history W words.new) }
    ensures shown { (masked : Masked) (v : Variable) → IsShown T.history W compiled.now words.old masked → IsSeen compiled.now masked v → v.id ≡ variable
        → IsPartOf masked v at → IsShown T.history W compiled.now words.new (record masked { state = poked (poked_by v at) word masked.state }) }
{
    poke_at::<W, T>(compiled, words, TOP, variable, at, word);
}

/// Sets a scalar of the file, or of the function of the frame at a depth, in all lanes or in one, or an element of an array, and records it.
/// Where there is no such variable, lane or element, the record is all that is made.
pub fn poke_at<const W: usize, T: Timeline + Drop>(
    compiled: &CompiledProgram,
    words: &mut MachineWords<T>,
    depth: usize,
    variable: VarId,
    at: Option<u32>,
    word: u64,
)
    requires sound { AreSound T.history W compiled.now words.old }
    ensures sound { AreSound T.history W compiled.now words.new }
    ensures records { Records T.history W undone.Poke words.old words.new }
    ensures sets { IsSetAt W compiled.now depth variable at word (regions_in T.history W words.old) (regions_in T.history W words.new) }
    ensures shown { (masked : Masked) (v : Variable) → IsShown T.history W compiled.now words.old masked → IsSeenAt compiled.now depth masked v → v.id ≡ variable
        → IsPartAt depth masked v at → IsShown T.history W compiled.now words.new (record masked { state = poked (InFrame depth (poked_by v at)) word masked.state }) }
{
    let shown = find_shown::<W, T>(compiled, words, depth, variable);
    begin::<W, T>(words, Undone::Poke);
    if let Some(shown) = shown {
        set_part::<W, T>(words, shown, at, word);
    }
}

/// Sets a scalar in all lanes, a lane of a varying one, or an element; nothing where there is no such part.
fn set_part<const W: usize, T: Timeline + Drop>(
    words: &mut MachineWords<T>,
    shown: ShownWords,
    at: Option<u32>,
    word: u64,
)
    requires width { IsGangWidth W }
    requires laid { AreLaid T.history W words.old }
    requires there { AreInRegion W (regions_in T.history W words.old) (shown_view shown) }
    requires left { W ≤ left_of T.history T.left words.old }
    ensures sets { has_part W (shown_view shown) at ≡ true → Writes T.history T.left W (region_shown (shown_view shown))
        (part_set (shown_view shown) at word (regions_in T.history W words.old (region_shown (shown_view shown)))) W
        words.old words.new }
    ensures keeps { has_part W (shown_view shown) at ≡ false → words.new ≡ words.old }
{
    match (at, shown) {
        (None, ShownWords::Scalar { region, rate }) => {
            words.assign::<W>(region, rate, Mask::all::<W>(), [word; W]);
        }
        (None, ShownWords::Elements(_)) => {}
        (Some(index), shown) => set_one::<W, T>(words, shown, index as usize, word),
    }
}

/// Sets a lane of a varying scalar, or an element; nothing where there is none of this index.
fn set_one<const W: usize, T: Timeline + Drop>(
    words: &mut MachineWords<T>,
    shown: ShownWords,
    index: usize,
    word: u64,
)
    requires width { IsGangWidth W }
    requires laid { AreLaid T.history W words.old }
    requires there { AreInRegion W (regions_in T.history W words.old) (shown_view shown) }
    requires left { W ≤ left_of T.history T.left words.old }
    ensures sets { has_part W (shown_view shown) (Some index) ≡ true → Writes T.history T.left W (region_shown (shown_view shown))
        (part_set (shown_view shown) (Some index) word (regions_in T.history W words.old (region_shown (shown_view shown)))) W
        words.old words.new }
    ensures keeps { has_part W (shown_view shown) (Some index) ≡ false → words.new ≡ words.old }
{
    if !shown.has::<W>(index) {
        return;
    }
    match shown {
        ShownWords::Scalar { region, rate: _ } => words.set::<W>(region, index, word),
        ShownWords::Elements(view) => words.set_element::<W>(view, index, word),
    }
}
