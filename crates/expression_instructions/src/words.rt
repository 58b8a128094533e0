//! Where the words of variables and the elements of arrays come from.
ghost use Rattle.std.specs.Prelude.{◌≡◌, ℕ, ◌<◌, slice_index};
ghost use Rattle.gang_types.specs.Masks.{IsGangWidth, lanes_of};
ghost use Rattle.gang_model.specs.Running.Lanes.{at};
ghost use Rattle.gang_model.specs.Running.State.{State, words_in};
ghost use Rattle.cross_lane.specs.Calls.{answer_of};
ghost use Rattle.expression_instructions.specs.Read.{place_in};
ghost use Rattle.expression_instructions.specs.Values.{element_value};

use gang_types::{FaultName, Mask, VarId};
use typed_tree::Var;

/// A store with the words of variables and the elements of arrays.
pub trait Words<const W: usize> {
    ghost use Rattle.gang_model.specs.Running.State.{State};

    // Whether its words and its arrays are those of the state.
    ghost shows: { Self → State → Type 0 };

    /// The words of a variable, one for each lane; of a uniform one its word in each. A word that the variable does not
    /// have is 0.
    fn words(&self, variable: Var) -> [u64; W]
        requires { IsGangWidth W }
        ensures { (state : State) → shows self.now state → (k : ℕ) → k < W → slice_index result k ≡ at (words_in state variable.id) (place_in variable.rate k) };

    /// The elements of an array at the indices of the lanes of the mask, and 0 in the others.
    ///
    /// # Errors
    ///
    /// `Index` with the lowest lane of the mask whose index is not below the length: as a word a negative index is above.
    fn elements(
        &self,
        array: VarId,
        mask: Mask,
        indices: &[u64; W],
    ) -> Result<[u64; W], (usize, FaultName)>
        requires { IsGangWidth W }
        ensures { (state : State) → shows self.now state → answer_of result ≡ element_value array (lanes_of W mask) state indices.now };
}
