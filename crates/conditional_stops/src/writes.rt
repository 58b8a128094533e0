//! Watches of what sets a variable, whether its value is another one then or not.
ghost use Rattle.std.specs.Prelude.{◌≡◌, Some};
ghost use Rattle.gang_model.specs.Debugger.Debugger as model;
ghost use Rattle.gang_model.specs.Debugger.Debugger.{Debugger, Setting, now};
ghost use Rattle.gang_model.specs.Types.Tree.{Variable};
ghost use Rattle.debug_session.specs.Sessions.{bare};
ghost use Rattle.debug_traits.specs.Frames.{IsShownAt, found_at};
ghost use Rattle.typed_tree.specs.Views.{program_view};
ghost use Rattle.conditional_stops.specs.Writes as spec;

use crate::judging::top_depth;
use crate::sights::LONGEST_NAME;
use arrayvec::ArrayVec;
use call_results::{GivenResult, given_at};
use debug_traits::Shown;
use frame_expressions::ExpressionMachine;
use gang_types::{Spot, VarId};
use typed_tree::Program;
use variable_writes::{is_same, sets};

/// What of a variable is set.
#[derive(Clone, Copy, Debug, PartialEq, Eq)]
pub enum SetPart {
    Scalar,
    /// Any element of an array.
    Array,
    Element(u32),
}

impl SetPart {
    /// The first element of an array that is meant.
    fn first(self) -> usize
        ensures { result ≡ spec.first_of self }
    {
        match self {
            SetPart::Element(index) => index as usize,
            SetPart::Scalar | SetPart::Array => 0,
        }
    }

    /// How many elements of an array that has so many are meant.
    fn count(self, all: usize) -> usize
        ensures { result ≡ spec.count_of self all }
    {
        match self {
            SetPart::Element(_) => 1,
            SetPart::Scalar | SetPart::Array => all,
        }
    }
}

/// What steps set: a variable, and what of it.
#[derive(Clone, Copy, Debug, PartialEq, Eq)]
pub struct SetPlace {
    pub id: VarId,
    pub part: SetPart,
}

/// A watch of what sets a scalar, an array or an element: its number, the depth of the frame whose variable it is, 0 for one of the file, and
/// the variable with its name.
#[derive(Drop)]
pub struct WriteWatch {
    pub number: u32,
    pub depth: usize,
    pub place: SetPlace,
    pub name: ArrayVec<u8, LONGEST_NAME>,
}

impl WriteWatch {
    /// Whether it is of the frame at a depth: one of a variable of the file is of each.
    fn is_of(&self, depth: usize) -> bool
        ensures { result ≡ spec.is_of depth self.now }
    {
        self.depth == 0 || self.depth == depth
    }
}

/// What the next step sets of what is watched: how many frames there are, whether the statement of the top one sets it, and whether the call
/// that made the top one gives it a value where that frame is left.
#[derive(Clone, Copy, Debug, PartialEq, Eq, Drop)]
pub(crate) struct Ahead {
    depth: usize,
    by_statement: bool,
    by_call: bool,
}

/// What the next step sets of what is watched.
pub(crate) fn next_sets<M: ExpressionMachine>(machine: &M, watch: &WriteWatch) -> Ahead
    ensures { (s : Setting) (d : Debugger) → M.stands machine.now s (bare d) → result ≡ spec.next_sets s d watch.now }
{
    let depth = top_depth(machine);
    let below = depth.saturating_sub(1);
    let id = watch.place.id;
    Ahead {
        depth,
        by_statement: is_set_next(machine, watch, depth),
        by_call: watch.is_of(below) && is_given_at(machine.program(), id, machine.spot(below)),
    }
}

/// Whether the statement of the next step, where there are so many frames, sets what is watched.
fn is_set_next<M: ExpressionMachine>(machine: &M, watch: &WriteWatch, depth: usize) -> bool
    ensures { (s : Setting) (d : Debugger) → M.stands machine.now s (bare d) → depth ≡ model.depth (now s d) → result ≡ spec.is_set_next s d watch.now }
{
    match watch.place.part {
        SetPart::Scalar => {
            let spot = machine.spot(depth);
            watch.is_of(depth) && is_set_at(machine.program(), watch.place.id, spot)
        }
        SetPart::Array | SetPart::Element(_) => watch.depth <= depth && is_stored(machine, watch),
    }
}

/// Whether the next step stores to what a watch names in its frame, if the name stands for its array there.
fn is_stored<M: ExpressionMachine>(machine: &M, watch: &WriteWatch) -> bool
    ensures { (s : Setting) (d : Debugger) → M.stands machine.now s (bare d)
        → result ≡ spec.is_stored s d watch.now (found_at s.program watch.now.depth (now s d) watch.now.name.items) }
{
    match machine.find_at(watch.depth, watch.name.as_slice()) {
        Some(shown) => is_stored_in(machine, watch, shown),
        None => false,
    }
}

/// The same of what was found in its frame.
fn is_stored_in<M: ExpressionMachine>(machine: &M, watch: &WriteWatch, shown: Shown) -> bool
    ensures { (s : Setting) (d : Debugger) (v : Variable) → M.stands machine.now s (bare d) → IsShownAt s (bare d) watch.now.depth v shown
        → result ≡ spec.is_stored s d watch.now (Some v) }
{
    let SetPlace { id, part } = watch.place;
    shown.is_array
        && is_same(shown.id, id)
        && machine.stores_to(watch.depth, shown, part.first(), part.count(shown.count))
}

/// Whether the statement at a step sets a variable, if there is a step.
fn is_set_at(program: &Program, id: VarId, spot: Option<Spot>) -> bool
    ensures { result ≡ spec.is_set_at (program_view program.now) id spot }
{
    match spot {
        Some(spot) => sets(program, spot, id),
        None => false,
    }
}

/// Whether the call at a step gives a variable its value when it returns, if there is a step.
fn is_given_at(program: &Program, id: VarId, spot: Option<Spot>) -> bool
    ensures { result ≡ spec.is_given_at (program_view program.now) id spot }
{
    match spot {
        Some(spot) => is_for(id, given_at(program, spot)),
        None => false,
    }
}

/// Whether what a call gives is for a variable.
fn is_for(id: VarId, given: Option<GivenResult>) -> bool
    ensures { result ≡ spec.is_for id given }
{
    match given {
        Some(given) => is_same(given.variable, id),
        None => false,
    }
}

/// Whether the step from an earlier moment to a later one sets what is watched.
pub(crate) fn is_set(earlier: Ahead, later: Ahead) -> bool
    ensures { result ≡ spec.is_set earlier later }
{
    if later.depth < earlier.depth {
        earlier.by_call
    } else {
        earlier.by_statement
    }
}
