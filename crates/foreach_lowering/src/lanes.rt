//! The rounds of `foreach_active` and `foreach_unique`, by the set of the lanes still to come.
ghost use Rattle.std.specs.Prelude.{◌≡◌, ◌<◌, ◌==◌, ◌&&◌};
ghost use Rattle.gang_types.specs.Lanes.{has, lanes_where};
ghost use Rattle.gang_types.specs.Masks.{IsGangWidth, lanes_of};
ghost use Rattle.gang_model.specs.Running.Lanes.{at};
ghost use Rattle.foreach_lowering.specs.LaneViews.{IsLaneRound, IsValueRound};

use gang_types::Mask;

/// A round of one lane, and the lanes still to come behind it.
#[derive(Clone, Copy)]
pub(crate) struct LaneRound {
    pub(crate) lane: usize,
    pub(crate) later: Mask,
}

/// A round of the lanes that have one value, that value, and the lanes still to come behind it.
#[derive(Clone, Copy)]
pub(crate) struct ValueRound {
    pub(crate) lanes: Mask,
    pub(crate) value: u64,
    pub(crate) later: Mask,
}

/// The next round of `foreach_active`: the lowest of the lanes still to come; none where there is no lane.
pub(crate) fn next_lane<const W: usize>(lanes: Mask) -> Option<LaneRound>
    requires { IsGangWidth W }
    ensures { IsLaneRound W (lanes_of W lanes) result }
{
    if lanes.is_empty::<W>() {
        return None;
    }
    let lowest = lanes.lowest::<W>();
    Some(LaneRound {
        lane: lowest,
        later: lanes.without(Mask::only::<W>(lowest)),
    })
}

/// Whether the lane is one of the set and has the value.
fn has_value<const W: usize>(lanes: Mask, values: [u64; W], value: u64, lane: usize) -> bool
    requires width { IsGangWidth W }
    requires lane { lane < W }
    ensures { result ≡ (has (lanes_of W lanes) lane && (at values.entry lane == value)) }
{
    lanes.has::<W>(lane) && values[lane] == value
}

/// The lanes of the set that have the value.
fn with_value<const W: usize>(lanes: Mask, values: [u64; W], value: u64) -> Mask
    requires { IsGangWidth W }
    ensures { lanes_of W result ≡ lanes_where (lanes_of W lanes) (λ k. at values.entry k == value) }
{
    let mut equal = Mask::none();
    for lane in 0..W {
        if has_value(lanes, values, value, lane) {
            equal = equal.with::<W>(lane);
        }
    }
    equal
}

/// The next round of `foreach_unique`: those of the lanes still to come that have the value of the lowest one; none where there is no lane.
pub(crate) fn next_value<const W: usize>(lanes: Mask, values: [u64; W]) -> Option<ValueRound>
    requires { IsGangWidth W }
    ensures { IsValueRound W (lanes_of W lanes) values.entry result }
{
    if lanes.is_empty::<W>() {
        return None;
    }
    let value = values[lanes.lowest::<W>()];
    let equal = with_value(lanes, values, value);
    Some(ValueRound {
        lanes: equal,
        value,
        later: lanes.without(equal),
    })
}
