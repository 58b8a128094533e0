//! Watches of what frames show, of variables and of expressions, and of what sets a variable: what they show is noted, and compared.
ghost use Rattle.std.specs.Prelude.{◌≡◌, ◌∷◌, List, drop, map, Some, option_map, OnOk, IfOk};
ghost use Rattle.gang_model.specs.Types.Tree.{Program};
ghost use Rattle.gang_model.specs.Debugger.Debugger.{Debugger, Setting};
ghost use Rattle.debug_session.specs.Sessions.{bare};
ghost use Rattle.conditional_stops.specs.Noted.{HasCodes, HaveCodes};
ghost use Rattle.conditional_stops.specs.Watches as spec;
ghost use Rattle.conditional_stops.specs.SightViews.{seen_view, sights_view};

use crate::going::Direction;
use crate::sights::{FrameWatch, Sight, differ, sight, words_of};
use crate::writes::{Ahead, WriteWatch, is_set, next_sets};
use expression_watches::{ExpressionWatch, KeptCodes, LaneSight, kept_sight, lanes_differ};
use frame_expressions::ExpressionMachine;
use std::alloc::{AllocError, Global};

/// A watch of what a frame shows, or of what sets a variable.
#[derive(Drop)]
pub enum Watch {
    /// A variable, or one of its lanes or elements.
    Variable(FrameWatch),
    /// An expression.
    Expression(ExpressionWatch),
    /// What sets a scalar.
    Writes(WriteWatch),
}

/// The blank in an unused place.
impl Default for Watch {
    ghost is_default = { λ watch. spec.watch_number watch ≡ 0 };

    fn default() -> Self {
        Watch::Variable(FrameWatch::default())
    }
}

impl Watch {
    /// The number of the watch.
    pub fn number(&self) -> u32
        ensures { result ≡ spec.watch_number self.now }
    {
        match self {
            Watch::Variable(watch) => watch.number,
            Watch::Expression(watch) => watch.number,
            Watch::Writes(watch) => watch.number,
        }
    }

    /// The depth of its frame, 0 where it is of the file.
    pub fn depth(&self) -> usize
        ensures { result ≡ spec.watch_depth self.now }
    {
        match self {
            Watch::Variable(watch) => watch.depth,
            Watch::Expression(watch) => watch.depth,
            Watch::Writes(watch) => watch.depth,
        }
    }
}

/// What a watch shows.
#[derive(Drop)]
pub(crate) enum Sighted {
    /// The words of a variable, if it shows any.
    Words(Sight),
    /// Of an expression a word for each lane that shows one.
    InLanes(LaneSight),
    /// What the next step sets.
    Sets(Ahead),
}

/// What each watch showed, in their order.
pub(crate) type Sights = Vec<Sighted>;

/// The codes of watches of which nothing was seen yet.
///
/// # Errors
///
/// Out of memory.
pub(crate) fn no_codes(alloc: Global, watches: &[Watch]) -> Result<Vec<KeptCodes>, AllocError>
    ensures { (p : Program) → IfOk result (λ codes. HaveCodes p watches.now codes.items) }
{
    let mut codes = Vec::new(alloc);
    for _watch in watches {
        codes.push(KeptCodes::new(alloc))?;
    }
    Ok(codes)
}

/// Notes what each watch shows, by the codes of their texts.
///
/// # Errors
///
/// Out of memory.
pub(crate) fn note_sights<M: ExpressionMachine>(
    alloc: Global,
    machine: &M,
    watches: &[Watch],
    codes: &mut Vec<KeptCodes>,
    sights: &mut Sights,
) -> Result<(), AllocError>
    ensures { (s : Setting) (d : Debugger) → M.stands machine.now s (bare d) → HaveCodes s.program watches.now codes.old.items
        → OnOk result ((sights_view sights.new.items ≡ map (spec.seen s d) watches.now) × HaveCodes s.program watches.now codes.new.items) }
{
    sights.clear();
    for place in 0..watches.len().min(codes.len()) {
        let shown = shown_by(alloc, machine, &watches[place], &mut codes[place])?;
        sights.push(shown)?;
    }
    Ok(())
}

/// What a watch shows.
///
/// # Errors
///
/// Out of memory, for an expression.
fn shown_by<M: ExpressionMachine>(
    alloc: Global,
    machine: &M,
    watch: &Watch,
    codes: &mut KeptCodes,
) -> Result<Sighted, AllocError>
    ensures shown { (s : Setting) (d : Debugger) → M.stands machine.now s (bare d) → HasCodes s.program watch.now codes.old
        → IfOk result (λ shown. seen_view shown ≡ spec.seen s d watch.now) }
    ensures codes { (s : Setting) (d : Debugger) → M.stands machine.now s (bare d) → HasCodes s.program watch.now codes.old → HasCodes s.program watch.now codes.new }
{
    match watch {
        Watch::Variable(watch) => Ok(Sighted::Words(sight(machine, watch))),
        Watch::Expression(watch) => {
            let shown = kept_sight(alloc, watch, codes, machine)?;
            Ok(Sighted::InLanes(shown))
        }
        Watch::Writes(watch) => Ok(Sighted::Sets(next_sets(machine, watch))),
    }
}

/// What was noted at a place.
pub(crate) fn noted_sight(sights: &Sights, place: usize) -> Option<&Sighted>
    ensures { (old : spec.Seen) (others : List spec.Seen) → drop place (sights_view sights.now.items) ≡ old ∷ others
        → option_map (λ shown. seen_view shown.now) result ≡ Some old }
{
    match sights.get(place) {
        Some(noted) => Some(noted),
        None => None,
    }
}

/// Whether a step that way changed what a watch shows, or sets it.
pub(crate) fn has_changed(direction: Direction, before: &Sighted, now: &Sighted) -> bool
    ensures { result ≡ spec.changed direction (seen_view before.now) (seen_view now.now) }
{
    match (before, now) {
        (Sighted::Words(before), Sighted::Words(now)) => differ(words_of(before), now),
        (Sighted::InLanes(before), Sighted::InLanes(now)) => {
            lanes_differ(before.as_slice(), now.as_slice())
        }
        (Sighted::Sets(before), Sighted::Sets(now)) => is_set_on(direction, *before, *now),
        (Sighted::Words(_), Sighted::InLanes(_) | Sighted::Sets(_))
        | (Sighted::InLanes(_), Sighted::Words(_) | Sighted::Sets(_))
        | (Sighted::Sets(_), Sighted::Words(_) | Sighted::InLanes(_)) => false,
    }
}

/// Whether the step between two moments sets what is watched, which was made or taken back.
fn is_set_on(direction: Direction, before: Ahead, now: Ahead) -> bool
    ensures { result ≡ spec.is_set_on direction before now }
{
    match direction {
        Direction::Forward => is_set(before, now),
        Direction::Backward => is_set(now, before),
    }
}
