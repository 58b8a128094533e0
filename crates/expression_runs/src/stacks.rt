//! The tops of the machine's stacks.
ghost use Rattle.std.specs.Prelude.{◌≡◌, ◌<◌, ℕ, false, List, [], ◌∷◌, length, replicate, reverse, MatchResult};
ghost use Rattle.gang_types.specs.Masks.{lanes_of};
ghost use Rattle.expression_runs.specs.declared.stop.Stop.TheVariants.{NoRoom};
ghost use Rattle.expression_runs.specs.Bridge.{masks_view};
ghost use Rattle.arrayvec.specs.ArrayVec.{array_vec_len};

use crate::stop::Stop;
use arrayvec::ArrayVec;
use gang_types::Mask;

/// The lanes that a part of an expression is run with; none in a place of the stack that is not used.
#[derive(Clone, Copy, Drop)]
pub(crate) struct ActiveLanes {
    pub(crate) mask: Mask,
}

impl Default for ActiveLanes {
    ghost is_default = { λ active. (w : ℕ) → lanes_of w active.mask ≡ replicate w false };

    fn default() -> Self {
        ActiveLanes { mask: Mask::none() }
    }
}

// The top, taken off.
pub(crate) fn take<T: Default + Drop, const N: usize>(stack: &mut ArrayVec<T, N>) -> Result<T, Stop>
    ensures { MatchResult result (λ top. (reverse stack.old.items ≡ top ∷ reverse stack.new.items) × (array_vec_len stack.new < N)) (λ stop. (stop ≡ NoRoom) × (reverse stack.old.items ≡ [])) }
{
    let _room = stack.remaining_capacity();
    stack.pop().ok_or(Stop::NoRoom)
}

// The top, left where it is.
pub(crate) fn top<T, const N: usize>(stack: &ArrayVec<T, N>) -> Result<&T, Stop>
    ensures { MatchResult result (λ top. (rest : List T) × (reverse stack.now.items ≡ top.now ∷ rest)) (λ stop. (stop ≡ NoRoom) × (reverse stack.now.items ≡ [])) }
{
    stack.as_slice().last().ok_or(Stop::NoRoom)
}

// What lies below the top, left where it is.
pub(crate) fn below_top<T, const N: usize>(stack: &ArrayVec<T, N>) -> Result<&T, Stop>
    ensures { MatchResult result (λ below. (x : T) × (rest : List T) × (reverse stack.now.items ≡ x ∷ (below.now ∷ rest))) (λ stop. (stop ≡ NoRoom) × (length (reverse stack.now.items) < 2)) }
{
    let all = stack.as_slice();
    if all.len() < 2 {
        Err(Stop::NoRoom)
    } else {
        Ok(&all[all.len() - 2])
    }
}

// One more mask.
pub(crate) fn push_mask<const M: usize>(masks: &mut ArrayVec<ActiveLanes, M>, mask: Mask)
    requires { array_vec_len masks.old < M }
    ensures { (w : ℕ) → masks_view w masks.new.items ≡ lanes_of w mask ∷ masks_view w masks.old.items }
{
    masks.push(ActiveLanes { mask });
}
