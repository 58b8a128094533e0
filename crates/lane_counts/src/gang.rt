//! How many lanes a gang has.
ghost use Rattle.std.specs.Prelude.{◌≡◌, ◌≤◌};
ghost use Rattle.gang_types.specs.Lanes.{and};
ghost use Rattle.gang_types.specs.Masks.{IsGangWidth, lanes_of};
ghost use Rattle.lane_counts.specs.Pending.{width_of};
ghost use Rattle.lane_counts.specs.Steps.{active};

use gang_types::Mask;

/// How many lanes a gang has.
#[derive(Clone, Copy, Debug, PartialEq, Eq)]
pub enum Gang {
    Four,
    Eight,
    Sixteen,
}

impl Gang {
    /// The gang of a width.
    pub fn of(width: usize) -> Self
        ensures { IsGangWidth width → width_of result ≡ width }
    {
        match width {
            4 => Gang::Four,
            8 => Gang::Eight,
            _ => Gang::Sixteen,
        }
    }

    /// How many lanes it has.
    pub fn width(self) -> usize
        ensures value { result ≡ width_of self }
        ensures gang { IsGangWidth result }
    {
        match self {
            Gang::Four => 4,
            Gang::Eight => 8,
            Gang::Sixteen => 16,
        }
    }

    /// How many of its lanes are in a set.
    pub fn count(self, lanes: Mask) -> usize
        ensures value { result ≡ active (lanes_of (width_of self) lanes) }
        ensures within { result ≤ 16 }
    {
        match self {
            Gang::Four => lanes.count::<4>(),
            Gang::Eight => lanes.count::<8>(),
            Gang::Sixteen => lanes.count::<16>(),
        }
    }

    /// How many lanes are in a set of this gang and in one of another gang.
    pub fn both(self, lanes: Mask, other: Gang, next: Mask) -> usize
        ensures { result ≡ active (and (lanes_of (width_of self) lanes) (lanes_of (width_of other) next)) }
    {
        let both = lanes.and(next);
        if self.width() <= other.width() {
            self.count(both)
        } else {
            other.count(both)
        }
    }
}
