//! Vectors of words, with 0 in the lanes outside a mask.
ghost use Rattle.std.specs.Prelude.{◌≡◌, ℕ};
ghost use Rattle.gang_types.specs.Masks.{IsGangWidth, lanes_of};
ghost use Rattle.gang_model.specs.Running.Lanes.{at, each};

use cross_lane::active_words;
use gang_types::Mask;

/// The words of the lanes of the mask.
pub fn only<const W: usize>(mask: Mask, words: [u64; W]) -> [u64; W]
    requires { IsGangWidth W }
    ensures { result ≡ each (lanes_of W mask) (λ k. at words.entry k) }
{
    active_words(mask, words)
}

/// One word in each lane of the mask.
pub fn splat<const W: usize>(mask: Mask, word: u64) -> [u64; W]
    requires { IsGangWidth W }
    ensures { result ≡ each (lanes_of W mask) (λ k. word) }
{
    active_words(mask, [word; W])
}

/// Its own number in each lane of the mask.
pub fn lane_numbers<const W: usize>(mask: Mask) -> [u64; W]
    requires { IsGangWidth W }
    ensures { result ≡ each (lanes_of W mask) (λ k. k) }
{
    active_words(mask, cross_lane::lane_numbers())
}
