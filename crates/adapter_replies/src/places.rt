//! The references by which an editor asks for variables.
ghost use Rattle.std.specs.Prelude.{◌≡◌, ◌<◌, ◌*◌, ◌/◌, ◌%◌, ◌+◌, if◌then◌else◌};
ghost use Rattle.gang_model.specs.Debugger.Debugger as model;
ghost use Rattle.gang_model.specs.Debugger.Debugger.{Debugger, Setting, now};
ghost use Rattle.adapter_replies.specs.References as spec;
ghost use Rattle.adapter_replies.specs.References.{depth_in, expression_at, has_range_room, has_room, is_frame, is_set_there, is_there, numbered, place_now, place_of, range_of, within};
ghost use Rattle.adapter_replies.specs.declared.places.Place.TheVariants as place;

use debug_traits::RecordedMachine;

/// The variables of a frame.
#[derive(Clone, Copy, Debug, PartialEq, Eq)]
pub(crate) enum Scope {
    /// Its local variables in scope.
    Locals,
    /// Its parameters in scope.
    Arguments,
}

/// What a reference stands for.
#[derive(Clone, Copy, Debug, PartialEq, Eq)]
pub(crate) enum Place {
    /// The variables of the frame at a depth.
    Variables {
        scope: Scope,
        depth: usize,
    },
    /// The lanes or elements of one of them, by its number among them.
    Parts {
        scope: Scope,
        depth: usize,
        number: usize,
    },
    /// The variables of the file.
    File,
    /// The lanes or elements of the variable of the file of this number.
    OfFile(usize),
    /// A range of the elements of a variable of a frame: the first 1,000 are range 0, and so on.
    Range {
        scope: Scope,
        depth: usize,
        number: usize,
        range: usize,
    },
    /// A range of the elements of the variable of the file of this number.
    FileRange {
        number: usize,
        range: usize,
    },
    /// The lanes of the value of the expression at an index of a table of such.
    Expression {
        index: usize,
    },
    Nothing,
}

/// The greatest reference that the protocol has room for.
const GREATEST: u64 = 0x7fff_ffff;

/// How many depths a reference has room for.
const DEPTHS: usize = 100;

/// How many numbers a reference has room for.
const NUMBERS: usize = 2_147_483;

/// How many variables, and how many ranges of each, a reference to a range has room for.
const VARIABLES: usize = 1_000;

const RANGES: usize = 2_147;

/// How many expressions a table has whose values open.
const EXPRESSIONS: usize = 64;

/// How deep the program is; one that has ended counts as depth 1.
pub fn depth_of<M: RecordedMachine>(machine: &M) -> usize
    ensures { (s : Setting) (d : Debugger) → M.stands machine.now s d → result ≡ model.depth (now s d) }
{
    match machine.position() {
        None => 1,
        Some(position) => position.depth,
    }
}

/// Whether a program of this depth has a frame at another one.
pub(crate) fn is_frame(top: usize, depth: usize) -> bool
    ensures { result ≡ is_frame top depth }
{
    depth > 0 && depth <= top
}

/// What a reference stands for.
pub(crate) fn place_of(reference: u64) -> Place
    ensures { result ≡ place_of reference }
{
    if reference > GREATEST {
        return Place::Nothing;
    }
    let number = (reference / 1000) as usize;
    let depth = (reference / 10 % 100) as usize;
    numbered(reference % 10, depth, number)
}

/// What a kind, a depth and a number stand for.
fn numbered(kind: u64, depth: usize, number: usize) -> Place
    ensures { result ≡ numbered kind depth number }
{
    match kind {
        1 => Place::Variables {
            scope: Scope::Locals,
            depth,
        },
        2 => Place::Variables {
            scope: Scope::Arguments,
            depth,
        },
        3 => Place::Parts {
            scope: Scope::Locals,
            depth,
            number,
        },
        4 => Place::Parts {
            scope: Scope::Arguments,
            depth,
            number,
        },
        5 => Place::File,
        6 => Place::OfFile(number),
        7 => range_at(Scope::Locals, depth, number),
        8 => range_at(Scope::Arguments, depth, number),
        9 => Place::FileRange {
            number: number % VARIABLES,
            range: number / VARIABLES,
        },
        0 => expression_at(number),
        _ => Place::Nothing,
    }
}

/// The range of the elements of a variable of the frame at a depth for which a number stands.
fn range_at(scope: Scope, depth: usize, number: usize) -> Place
    ensures { result ≡ place.Range scope depth (number % 1000) (number / 1000) }
{
    Place::Range {
        scope,
        depth,
        number: number % VARIABLES,
        range: number / VARIABLES,
    }
}

/// The lanes of the value of the expression for which a number stands: 1 for the first one.
fn expression_at(number: usize) -> Place
    ensures { result ≡ expression_at number }
{
    if number == 0 || number > EXPRESSIONS {
        Place::Nothing
    } else {
        Place::Expression { index: number - 1 }
    }
}

/// The reference of a place; one that stands for nothing if there is no room for it.
pub(crate) fn reference_of(place: Place) -> u64
    ensures { place_of result ≡ within place }
{
    match place {
        Place::Variables {
            scope: Scope::Locals,
            depth,
        } => reference(1, depth, 0),
        Place::Variables {
            scope: Scope::Arguments,
            depth,
        } => reference(2, depth, 0),
        Place::Parts {
            scope: Scope::Locals,
            depth,
            number,
        } => reference(3, depth, number),
        Place::Parts {
            scope: Scope::Arguments,
            depth,
            number,
        } => reference(4, depth, number),
        Place::File => reference(5, 0, 0),
        Place::OfFile(number) => reference(6, 0, number),
        Place::Range {
            scope: Scope::Locals,
            depth,
            number,
            range,
        } => range_reference(7, depth, number, range),
        Place::Range {
            scope: Scope::Arguments,
            depth,
            number,
            range,
        } => range_reference(8, depth, number, range),
        Place::FileRange { number, range } => range_reference(9, 0, number, range),
        Place::Expression { index } => expression_reference(index),
        Place::Nothing => 0,
    }
}

/// The reference of the value of the expression at this index of a table of such, 0 from index 64 on.
pub fn expression_reference(index: usize) -> u64
    ensures { place_of result ≡ within (place.Expression index) }
{
    if index < EXPRESSIONS {
        reference(0, 0, index + 1)
    } else {
        0
    }
}

/// The index of the expression of a table whose value a reference opens, if it is such a reference.
pub fn expression_index(reference: u64) -> Option<usize>
    ensures { result ≡ spec.expression_index (place_of reference) }
{
    match place_of(reference) {
        Place::Expression { index } => Some(index),
        _ => None,
    }
}

/// The reference of a kind, a depth and a number.
fn reference(kind: u64, depth: usize, number: usize) -> u64
    requires { kind < 10 }
    ensures { place_of result ≡ (if has_room depth number then numbered kind depth number else place.Nothing) }
{
    if depth < DEPTHS && number < NUMBERS {
        number as u64 * 1000 + depth as u64 * 10 + kind
    } else {
        0
    }
}

/// The reference of a kind, a depth, a variable's number and a range.
fn range_reference(kind: u64, depth: usize, number: usize, range: usize) -> u64
    requires { kind < 10 }
    ensures { place_of result ≡ (if has_range_room depth number range then numbered kind depth (range * 1000 + number) else place.Nothing) }
{
    if depth < DEPTHS && number < VARIABLES && range < RANGES {
        reference(kind, depth, range * VARIABLES + number)
    } else {
        0
    }
}

/// A range of the elements of the variable whose parts are at a place.
pub(crate) fn range_of(place: Place, range: usize) -> Place
    ensures { result ≡ range_of place range }
{
    match place {
        Place::Parts {
            scope,
            depth,
            number,
        } => Place::Range {
            scope,
            depth,
            number,
            range,
        },
        Place::OfFile(number) => Place::FileRange { number, range },
        Place::Variables { .. }
        | Place::File
        | Place::Range { .. }
        | Place::FileRange { .. }
        | Place::Expression { .. }
        | Place::Nothing => Place::Nothing,
    }
}

/// What a reference stands for where the program has this depth.
pub(crate) fn place_now(top: usize, reference: u64) -> Place
    ensures { result ≡ place_now top reference }
{
    let place = place_of(reference);
    if is_there(top, place) {
        place
    } else {
        Place::Nothing
    }
}

/// Whether what a reference stands for is in a frame that is there, or in none.
fn is_there(top: usize, place: Place) -> bool
    ensures { result ≡ is_there top place }
{
    match place {
        Place::Variables { scope: _, depth } => is_frame(top, depth),
        Place::Parts {
            scope: _,
            depth,
            number: _,
        } => is_frame(top, depth),
        Place::Range {
            scope: _,
            depth,
            number: _,
            range: _,
        } => is_frame(top, depth),
        Place::File
        | Place::OfFile(_)
        | Place::FileRange { .. }
        | Place::Expression { .. }
        | Place::Nothing => true,
    }
}

/// Whether a variable is set that is one of those of a reference, where the program has this depth: in a frame that is there, or in
/// the file.
pub fn is_set_there(top: usize, reference: u64) -> bool
    ensures { result ≡ is_set_there top (place_of reference) }
{
    match place_of(reference) {
        Place::Variables { scope: _, depth } => is_frame(top, depth),
        Place::Parts {
            scope: _,
            depth,
            number: _,
        } => is_frame(top, depth),
        Place::Range {
            scope: _,
            depth,
            number: _,
            range: _,
        } => is_frame(top, depth),
        Place::File | Place::OfFile(_) | Place::FileRange { .. } => true,
        Place::Expression { .. } | Place::Nothing => false,
    }
}

/// The depth of the frame in which what a reference stands for is looked up, where the program has this depth: the top one's, where it
/// is in no frame.
pub fn depth_in(top: usize, reference: u64) -> usize
    ensures { result ≡ depth_in top (place_of reference) }
{
    match place_of(reference) {
        Place::Variables { scope: _, depth } => depth,
        Place::Parts {
            scope: _,
            depth,
            number: _,
        } => depth,
        Place::Range {
            scope: _,
            depth,
            number: _,
            range: _,
        } => depth,
        Place::File
        | Place::OfFile(_)
        | Place::FileRange { .. }
        | Place::Expression { .. }
        | Place::Nothing => top,
    }
}
