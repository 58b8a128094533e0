//! Which moments of a run are told.
ghost use Rattle.std.specs.Prelude.{◌≡◌};
ghost use Rattle.std.specs.List.{list_any};
ghost use Rattle.run_page.specs.Moments as spec;

use crate::page::Subject;

/// How many steps on each side of a step that was asked for are whole.
const REACH: u128 = 1000;

/// Whether the moment behind so many steps is told.
pub(crate) fn is_told(subject: &Subject<'_>, taken: u32) -> bool
    ensures { result ≡ spec.is_told subject.now taken }
{
    if taken % subject.each.max(1) == 0 {
        return true;
    }
    let number = u64::from(subject.first_number) + u64::from(taken);
    is_near_any(number, subject.around)
}

/// Whether a step is near one of these, by their numbers.
fn is_near_any(number: u64, places: &[u32]) -> bool
    ensures { result ≡ list_any (spec.is_near number) places.now }
{
    places.iter().any(|place| is_near(number, *place))
}

fn is_near(number: u64, place: u32) -> bool
    ensures { result ≡ spec.is_near number place }
{
    u128::from(number) <= u128::from(place) + REACH
        && u128::from(place) <= u128::from(number) + REACH
}
