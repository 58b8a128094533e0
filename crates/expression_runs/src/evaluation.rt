//! The value of an expression for some lanes of a gang, by its code.
ghost use Rattle.std.specs.Prelude.{◌≡◌};
ghost use Rattle.gang_types.specs.Masks.{IsGangWidth, lanes_of};
ghost use Rattle.gang_model.specs.Running.State.{State};
ghost use Rattle.gang_model.specs.Running.Value.{value};
ghost use Rattle.typed_tree.specs.declared.expressions.Expr.{Expr};
ghost use Rattle.typed_tree.specs.Views.{expr_view};
ghost use Rattle.expression_runs.specs.Room.{HasRoom};
ghost use Rattle.expression_runs.specs.Correct.{Computes};
ghost use Rattle.expression_runs.specs.Evaluated.{IsValue};

use crate::machine::run;
use crate::stacks::{ActiveLanes, push_mask, take};
use crate::stop::Stop;
use arrayvec::ArrayVec;
use expression_instructions::{Instruction, Words, leaf_words};
use gang_types::Mask;

/// The most vectors that the code of one expression may keep at one time.
pub const ROOM: usize = 513;

/// The most masks that it may keep at one time, the first one counted.
pub const NESTING: usize = 257;

/// The stacks that an evaluation works on: made once, and lent to each.
#[derive(Drop)]
pub struct Stacks<const W: usize> {
    vectors: ArrayVec<[u64; W], ROOM>,
    masks: ArrayVec<ActiveLanes, NESTING>,
}

impl<const W: usize> Stacks<W> {
    ghost use Rattle.expression_runs.specs.Stacks.{AreEmpty};

    /// Empty stacks.
    pub fn new() -> Self
        ensures { AreEmpty result }
    {
        Stacks {
            vectors: ArrayVec::new(),
            masks: ArrayVec::new(),
        }
    }
}

/// The value of the expression that the code computes: a word in each lane of the mask, and 0 in the others. What an
/// earlier evaluation left on the stacks is cleared.
///
/// # Errors
///
/// The first fault; or no room, which an expression of few enough vectors and masks never meets.
pub fn evaluate<const W: usize, S: Words<W>>(
    code: &[Instruction],
    words: &S,
    mask: Mask,
    stacks: &mut Stacks<W>,
) -> Result<[u64; W], Stop>
    requires { IsGangWidth W }
    ensures { (e : Expr) (state : State) → Computes e code.now → HasRoom (expr_view e) → S.shows words.now state → IsValue result (value (expr_view e) (lanes_of W mask) state) }
{
    if code.len() == 1 {
        if let Instruction::Push(leaf) = code[0] {
            return Ok(leaf_words(leaf, words, mask));
        }
    }
    stacks.vectors.clear();
    stacks.masks.clear();
    push_mask(&mut stacks.masks, mask);
    run(code, words, &mut stacks.vectors, &mut stacks.masks)?;
    take(&mut stacks.vectors)
}
