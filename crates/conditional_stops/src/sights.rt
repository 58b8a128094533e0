//! Variables of frames that are watched, and what they show.
ghost use Rattle.std.specs.Prelude.{◌≡◌, ◌∷◌, [], Some, option_map, take};
ghost use Rattle.gang_model.specs.Source.Names.{same_text};
ghost use Rattle.gang_model.specs.Types.Tree.{Variable};
ghost use Rattle.gang_model.specs.Debugger.Debugger.{Debugger, Setting, now, part_shown, shown_words};
ghost use Rattle.debug_session.specs.Sessions.{bare};
ghost use Rattle.debug_traits.specs.Frames.{IsShownAt, state_at};
ghost use Rattle.conditional_stops.specs.Sights as spec;
ghost use Rattle.conditional_stops.specs.SightViews.{sight_view};

use crate::judging::top_depth;
use arrayvec::ArrayVec;
use debug_traits::{FramedMachine, Shown};
use gang_types::VarId;
use variable_writes::is_same;

/// The most bytes of the name of a variable that is watched.
pub const LONGEST_NAME: usize = 256;

/// The most lanes of a gang.
const WIDEST: usize = 16;

/// The words that a watch shows.
type Words = ArrayVec<u64, WIDEST>;

/// What a watch shows, where its frame is there and its variable in scope.
pub type Sight = Option<Words>;

/// A watch of a variable of a frame, or of one of its lanes or elements: its number, the depth of the frame, and the variable with its name.
#[derive(Drop)]
pub struct FrameWatch {
    pub number: u32,
    pub depth: usize,
    pub id: VarId,
    pub at: Option<u32>,
    pub name: ArrayVec<u8, LONGEST_NAME>,
}

/// The blank in an unused place.
impl Default for FrameWatch {
    ghost is_default = { λ watch. watch.number ≡ 0 };

    fn default() -> Self {
        FrameWatch {
            number: 0,
            depth: 0,
            id: VarId::Local(0),
            at: None,
            name: ArrayVec::new(),
        }
    }
}

/// The words that were noted, if any were.
pub fn words_of(noted: &Sight) -> Option<&[u64]>
    ensures { option_map (λ words. words.now) result ≡ sight_view noted.now }
{
    match noted {
        Some(words) => Some(words.as_slice()),
        None => None,
    }
}

/// What a watch shows.
pub fn sight<M: FramedMachine>(machine: &M, watch: &FrameWatch) -> Sight
    ensures { (s : Setting) (d : Debugger) → M.stands machine.now s (bare d) → sight_view result ≡ spec.sight s d watch.now }
{
    if watch.depth > top_depth(machine) {
        return None;
    }
    let shown = machine.find_at(watch.depth, watch.name.as_slice())?;
    if is_same(shown.id, watch.id) {
        Some(part_words(machine, watch.depth, shown, watch.at))
    } else {
        None
    }
}

/// Whether other words were shown before; where none were, or none are, nothing changed.
pub fn differ(old: Option<&[u64]>, new: &Sight) -> bool
    ensures { result ≡ spec.differ (option_map (λ words. words.now) old.entry) (sight_view new.now) }
{
    match (old, new) {
        (Some(old), Some(new)) => !is_equal(old, new.as_slice()),
        (Some(_), None) | (None, _) => false,
    }
}

/// Whether words are the same.
fn is_equal(old: &[u64], new: &[u64]) -> bool
    ensures { result ≡ same_text old.now new.now }
{
    old == new
}

/// The words of a variable of the frame at a depth, or of one of its lanes or elements.
fn part_words<M: FramedMachine>(machine: &M, depth: usize, shown: Shown, at: Option<u32>) -> Words
    ensures { (s : Setting) (d : Debugger) (v : Variable) → M.stands machine.now s (bare d) → IsShownAt s (bare d) depth v shown
        → result.items ≡ spec.part_words (state_at depth (now s d)) at v }
{
    match at {
        None => first_words(machine, depth, shown),
        Some(index) => {
            let mut words = Words::new();
            words.push(word_or_zero(machine, depth, shown, index as usize));
            words
        }
    }
}

/// The first words of a variable of the frame at a depth, so many as a gang can have lanes.
fn first_words<M: FramedMachine>(machine: &M, depth: usize, shown: Shown) -> Words
    ensures { (s : Setting) (d : Debugger) (v : Variable) → M.stands machine.now s (bare d) → IsShownAt s (bare d) depth v shown
        → result.items ≡ take 16 (shown_words (state_at depth (now s d)) v) }
{
    let mut words = Words::new();
    for index in 0..shown.count.min(WIDEST) {
        words.push(machine.word_at(depth, shown, index));
    }
    words
}

/// A word of a variable of the frame at a depth, 0 past its end.
fn word_or_zero<M: FramedMachine>(machine: &M, depth: usize, shown: Shown, index: usize) -> u64
    ensures { (s : Setting) (d : Debugger) (v : Variable) → M.stands machine.now s (bare d) → IsShownAt s (bare d) depth v shown
        → result ∷ [] ≡ part_shown (Some index) (shown_words (state_at depth (now s d)) v) }
{
    if index < shown.count {
        machine.word_at(depth, shown, index)
    } else {
        0
    }
}
