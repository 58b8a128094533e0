//! The lanes of a mask, one after the other.
ghost use Rattle.std.specs.Prelude.{◌≡◌, ℕ, ◌-◌, ◌≤◌, ◌++◌, length, replicate};
ghost use Rattle.gang_types.specs.Masks.{IsGangWidth, lanes_of};
ghost use Rattle.gang_model.specs.Running.Lanes.{members};

use gang_types::Mask;

/// The lanes of the mask in ascending order, with 0 behind them, and how many they are.
pub fn packed_places<const W: usize>(mask: Mask) -> ([usize; W], usize)
    requires { IsGangWidth W }
    ensures places { result.0 ≡ members (lanes_of W mask) ++ replicate (W - length (members (lanes_of W mask))) 0 }
    ensures number { result.1 ≡ length (members (lanes_of W mask)) }
    ensures within { result.1 ≤ W }
{
    let mut places = [0; W];
    let mut number = 0;
    for lane in 0..W {
        if mask.has::<W>(lane) {
            places[number] = lane;
            number += 1;
        }
    }
    (places, number)
}
