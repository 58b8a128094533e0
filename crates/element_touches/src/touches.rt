//! The elements that an access touches.
ghost use Rattle.std.specs.Prelude.{◌≡◌, ◌≤◌, take};
ghost use Rattle.arrayvec.specs.ArrayVec.{array_vec_len};
ghost use Rattle.gang_types.specs.Masks.{IsGangWidth, lanes_of};
ghost use Rattle.element_touches.specs.Touches.{touched};

use arrayvec::ArrayVec;
use gang_types::Mask;

/// The widest gang.
const WIDEST: usize = 16;

/// An element for each of some lanes of a gang, by its number in the array.
pub type Elements = ArrayVec<u64, WIDEST>;

/// The elements that lanes of a gang of so many touch, in the order of the lanes, by the words of the access's index.
pub fn touched(width: usize, lanes: Mask, words: &[u64; WIDEST]) -> Elements
    ensures { IsGangWidth width → result.items ≡ touched (lanes_of width lanes) (take width words.now) }
{
    match width {
        4 => touched_in::<4>(lanes, words),
        8 => touched_in::<8>(lanes, words),
        _ => touched_in::<WIDEST>(lanes, words),
    }
}

fn touched_in<const W: usize>(lanes: Mask, words: &[u64; WIDEST]) -> Elements
    requires { IsGangWidth W }
    ensures { result.items ≡ touched (lanes_of W lanes) (take W words.now) }
{
    let mut elements = Elements::new();
    for lane in 0..W {
        if lanes.has::<W>(lane) {
            elements.push(words[lane]);
        }
    }
    elements
}
