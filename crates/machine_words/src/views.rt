//! Parts of arrays, and how words keep them.
ghost use Rattle.std.specs.Prelude.{◌≡◌, ◌+◌, ◌^◌, ◌<◌, false, None, IfOk, IfSome};
ghost use Rattle.gang_types.specs.Lanes.{no_lane};
ghost use Rattle.gang_types.specs.Masks.{IsGangWidth, lanes_of};
ghost use Rattle.machine_states.specs.ArrayParts.{no_view, view_of_words};
ghost use Rattle.machine_words.specs.Arrays.{AreAtMost, IsFirstPast, IsPartAt};
ghost use Rattle.machine_words.specs.Views.{view_view};

use gang_types::{FaultName, Mask, VarId};

/// A part of an array of the file, or of one that the entry is given for its parameter of this number: the elements from the first one
/// on, so many.
#[derive(Clone, Copy, Debug, PartialEq, Eq)]
pub struct View {
    pub array: VarId,
    pub first: usize,
    pub len: usize,
}

impl View {
    /// No part of an array.
    pub(crate) fn none(array: VarId) -> Self
        ensures { view_view result ≡ no_view array }
    {
        View {
            array,
            first: 0,
            len: 0,
        }
    }
}

/// The words that keep a part of an array: whether the array is one of the entry's, its number, the first element, and how many
/// there are.
pub fn view_words<const W: usize>(view: View) -> [u64; W]
    requires width { IsGangWidth W }
    ensures { view_of_words result ≡ view_view view }
{
    let mut words = [0; W];
    match view.array {
        VarId::File(number) => words[1] = number as u64,
        VarId::Local(number) => {
            words[0] = 1;
            words[1] = number as u64;
        }
    }
    words[2] = view.first as u64;
    words[3] = view.len as u64;
    words
}

// The part of an array that words keep.
pub(crate) fn view_of_words<const W: usize>(words: &[u64; W]) -> View
    requires width { IsGangWidth W }
    ensures { view_view result ≡ view_of_words words.now }
{
    let number = words[1] as usize;
    let array = if words[0] == 0 {
        VarId::File(number)
    } else {
        VarId::Local(number)
    };
    View {
        array,
        first: words[2] as usize,
        len: words[3] as usize,
    }
}

// The lowest lane of the mask whose index is above the length, if one is.
fn first_past<const W: usize>(len: usize, mask: Mask, indices: &[u64; W]) -> Option<usize>
    requires width { IsGangWidth W }
    ensures found { IfSome result (IsFirstPast len (lanes_of W mask) indices.now) }
    ensures none { result ≡ None → AreAtMost len (lanes_of W mask) indices.now }
{
    for lane in 0..W {
        if mask.has::<W>(lane) && indices[lane] > len as u64 {
            return Some(lane);
        }
    }
    None
}

/// The part of a part of an array from an index on, which may be its end: `&a[e]`. The index is that of the lowest lane.
///
/// # Errors
///
/// `Index` with the lowest lane of the mask whose index is above the length: as a word a negative index is above.
pub fn part_from<const W: usize>(
    view: View,
    mask: Mask,
    indices: &[u64; W],
) -> Result<View, (usize, FaultName)>
    requires width { IsGangWidth W }
    requires lane { no_lane (lanes_of W mask) ≡ false }
    requires small { view.first + view.len < 2 ^ 64 }
    ensures part { IsPartAt view (lanes_of W mask) indices.now result }
    ensures inside { IfOk result (λ part. (part.array ≡ view.array) × (part.first + part.len ≡ view.first + view.len)) }
{
    if let Some(lane) = first_past(view.len, mask, indices) {
        return Err((lane, FaultName::Index));
    }
    let first = indices[mask.lowest::<W>()] as usize;
    Ok(View {
        array: view.array,
        first: view.first + first,
        len: view.len - first,
    })
}
