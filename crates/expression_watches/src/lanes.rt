//! What is shown of an expression in each lane.
ghost use Rattle.std.specs.Prelude.{◌≡◌, ◌<◌, Some, None, slice_index, take, if◌then◌else◌};
ghost use Rattle.gang_types.specs.Lanes.{has};
ghost use Rattle.gang_types.specs.Masks.{IsGangWidth, lanes_of};
ghost use Rattle.expression_watches.specs.LaneSights as spec;

use arrayvec::ArrayVec;
use frame_expressions::LaneWords;

/// The most lanes of a gang.
pub(crate) const WIDEST: usize = 16;

/// What is shown of an expression in each lane of the gang: a word, or nothing. It has no lanes where nothing is shown in any.
pub type LaneSight = ArrayVec<Option<u64>, WIDEST>;

/// What is shown of a value.
pub(crate) fn lane_words(found: &LaneWords) -> LaneSight
    ensures { IsGangWidth found.now.width → result.items ≡ spec.lane_words (lanes_of found.now.width found.now.lanes) (take found.now.width found.now.words) }
{
    let mut shown = LaneSight::new();
    for lane in 0..found.width.min(WIDEST) {
        shown.push(lane_word(found, lane));
    }
    shown
}

/// What is shown of a value in a lane.
fn lane_word(found: &LaneWords, lane: usize) -> Option<u64>
    requires { lane < 16 }
    ensures { result ≡ (if has (lanes_of 16 found.now.lanes) lane then Some (slice_index found.now.words lane) else None) }
{
    if found.lanes.has::<WIDEST>(lane) {
        Some(found.words[lane])
    } else {
        None
    }
}

/// Whether a lane shows another word than before; where it showed none, or shows none, nothing changed.
pub fn lanes_differ(before: &[Option<u64>], now: &[Option<u64>]) -> bool
    ensures { result ≡ spec.lanes_differ before.now now.now }
{
    for lane in 0..before.len().min(now.len()) {
        if word_differs(before[lane], now[lane]) {
            return true;
        }
    }
    false
}

/// Whether one lane does.
fn word_differs(before: Option<u64>, now: Option<u64>) -> bool
    ensures { result ≡ spec.word_differs before now }
{
    match (before, now) {
        (Some(before), Some(now)) => before != now,
        (Some(_), None) | (None, _) => false,
    }
}
