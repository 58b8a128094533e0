//! The library's names, and what each of its calls asks for.
ghost use Rattle.std.specs.Prelude.{◌≡◌, ◌&&◌, ◌==◌, length, map};
ghost use Rattle.gang_model.specs.Source.Names.{same_text};
ghost use Rattle.gang_model.specs.Types.LibraryTable as table;
ghost use Rattle.type_check_library.specs.Calls.{call_view, entry_view, option_call_view};

use gang_types::Rate;
use ispc_names_scopes::is_same;
use typed_tree::{Reduction, Scan, TwoCall};

/// A library call that stands in expressions, by the number of its arguments.
#[derive(Clone, Copy, Debug, PartialEq, Eq, Drop)]
pub enum LibraryCall {
    /// `lanemask`.
    LaneMask,
    OfOne(CallOfOne),
    OfTwo(CallOfTwo),
    OfThree(CallOfThree),
}

/// A library call of one value.
#[derive(Clone, Copy, Debug, PartialEq, Eq, Drop)]
pub enum CallOfOne {
    /// Over truth values: `any`, `all`, `none` and `packmask`.
    ReduceTruths(Reduction),
    /// Over numbers: `reduce_add`, `reduce_min` and `reduce_max`.
    ReduceNumbers(Reduction),
    /// `reduce_equal`.
    CompareLanes,
    ScanLanes(Scan),
    /// `popcnt`, over lanes for a bool and else over bits.
    CountOnes,
    /// `abs`.
    TakeMagnitude,
}

/// A library call of two values.
#[derive(Clone, Copy, Debug, PartialEq, Eq, Drop)]
pub enum CallOfTwo {
    /// `min` and `max`.
    Compare(TwoCall),
    Broadcast,
    Extract,
    Rotate,
    Shift,
    Shuffle,
}

/// A library call of three values.
#[derive(Clone, Copy, Debug, PartialEq, Eq, Drop)]
pub enum CallOfThree {
    Insert,
    ShuffleTwo,
    Clamp,
    Select,
}

/// Every library call that stands in expressions, with its name. One name may stand for several calls, that differ in the number
/// of their arguments.
const LIBRARY_CALLS: [(&[u8], LibraryCall); 25] = [
    (
        b"any",
        LibraryCall::OfOne(CallOfOne::ReduceTruths(Reduction::AnyLane)),
    ),
    (
        b"all",
        LibraryCall::OfOne(CallOfOne::ReduceTruths(Reduction::AllLanes)),
    ),
    (
        b"none",
        LibraryCall::OfOne(CallOfOne::ReduceTruths(Reduction::NoLane)),
    ),
    (
        b"reduce_add",
        LibraryCall::OfOne(CallOfOne::ReduceNumbers(Reduction::ReduceAdd)),
    ),
    (
        b"reduce_min",
        LibraryCall::OfOne(CallOfOne::ReduceNumbers(Reduction::ReduceMin)),
    ),
    (
        b"reduce_max",
        LibraryCall::OfOne(CallOfOne::ReduceNumbers(Reduction::ReduceMax)),
    ),
    (b"reduce_equal", LibraryCall::OfOne(CallOfOne::CompareLanes)),
    (b"broadcast", LibraryCall::OfTwo(CallOfTwo::Broadcast)),
    (b"extract", LibraryCall::OfTwo(CallOfTwo::Extract)),
    (b"insert", LibraryCall::OfThree(CallOfThree::Insert)),
    (b"rotate", LibraryCall::OfTwo(CallOfTwo::Rotate)),
    (b"shift", LibraryCall::OfTwo(CallOfTwo::Shift)),
    (b"shuffle", LibraryCall::OfTwo(CallOfTwo::Shuffle)),
    (b"shuffle", LibraryCall::OfThree(CallOfThree::ShuffleTwo)),
    (
        b"exclusive_scan_add",
        LibraryCall::OfOne(CallOfOne::ScanLanes(Scan::Add)),
    ),
    (
        b"exclusive_scan_and",
        LibraryCall::OfOne(CallOfOne::ScanLanes(Scan::And)),
    ),
    (
        b"exclusive_scan_or",
        LibraryCall::OfOne(CallOfOne::ScanLanes(Scan::Or)),
    ),
    (
        b"min",
        LibraryCall::OfTwo(CallOfTwo::Compare(TwoCall::Lesser)),
    ),
    (
        b"max",
        LibraryCall::OfTwo(CallOfTwo::Compare(TwoCall::Larger)),
    ),
    (b"clamp", LibraryCall::OfThree(CallOfThree::Clamp)),
    (b"abs", LibraryCall::OfOne(CallOfOne::TakeMagnitude)),
    (b"select", LibraryCall::OfThree(CallOfThree::Select)),
    (b"popcnt", LibraryCall::OfOne(CallOfOne::CountOnes)),
    (b"lanemask", LibraryCall::LaneMask),
    (
        b"packmask",
        LibraryCall::OfOne(CallOfOne::ReduceTruths(Reduction::PackMask)),
    ),
];

const ONE: [Rate; 1] = [Rate::Varying];

const TWO: [Rate; 2] = [Rate::Varying, Rate::Varying];

const ONE_AND_UNIFORM: [Rate; 2] = [Rate::Varying, Rate::Uniform];

const THREE: [Rate; 3] = [Rate::Varying, Rate::Varying, Rate::Varying];

const ONE_AND_TWO_UNIFORM: [Rate; 3] = [Rate::Varying, Rate::Uniform, Rate::Uniform];

/// The rates that the arguments of a call may have: where a varying one may stand a uniform one may too.
pub(crate) fn asked_by(call: LibraryCall) -> &'static [Rate]
    ensures { result.now ≡ table.asked_by (call_view call) }
{
    match call {
        LibraryCall::LaneMask => &[],
        LibraryCall::OfOne(_) => &ONE,
        LibraryCall::OfTwo(CallOfTwo::Compare(_) | CallOfTwo::Shuffle) => &TWO,
        LibraryCall::OfTwo(_) => &ONE_AND_UNIFORM,
        LibraryCall::OfThree(CallOfThree::Insert) => &ONE_AND_TWO_UNIFORM,
        LibraryCall::OfThree(_) => &THREE,
    }
}

/// Whether an entry has this name and its call takes so many arguments.
fn is_asked(entry: &(&[u8], LibraryCall), name: &[u8], count: usize) -> bool
    ensures { result ≡ (same_text entry.now.0.now name.now && (length (table.asked_by (call_view entry.now.1)) == count)) }
{
    is_same(entry.0, name) && asked_by(entry.1).len() == count
}

/// The first call of this name and so many arguments in a table.
fn library_call_of(
    name: &[u8],
    count: usize,
    entries: &[(&[u8], LibraryCall)],
) -> Option<LibraryCall>
    ensures { option_call_view result ≡ table.library_call_of name.now count (map entry_view entries.now) }
{
    for entry in entries {
        if is_asked(entry, name, count) {
            return Some(entry.1);
        }
    }
    None
}

/// The library call with this name and so many arguments.
pub(crate) fn library_call(name: &[u8], count: usize) -> Option<LibraryCall>
    ensures { option_call_view result ≡ table.library_call name.now count }
{
    library_call_of(name, count, &LIBRARY_CALLS)
}
