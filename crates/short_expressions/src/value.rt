//! The value of an expression for some lanes of a gang.
ghost use Rattle.std.specs.Prelude.{◌≡◌};
ghost use Rattle.gang_types.specs.Masks.{IsGangWidth, lanes_of};
ghost use Rattle.gang_model.specs.Running.State.{State};
ghost use Rattle.gang_model.specs.Running.Value.{value};
ghost use Rattle.typed_tree.specs.declared.expressions.Expr.{Expr};
ghost use Rattle.typed_tree.specs.Views.{expr_view};
ghost use Rattle.expression_runs.specs.Room.{HasRoom};
ghost use Rattle.expression_runs.specs.Correct.{Computes};
ghost use Rattle.expression_runs.specs.Evaluated.{IsValue};
ghost use Rattle.short_expressions.specs.Short.{IsKnown};

use crate::few::{run, take};
use arrayvec::ArrayVec;
use expression_instructions::{Instruction, Words};
use expression_runs::{Stacks, Stop, evaluate};
use gang_types::Mask;

/// The value of the expression that the code computes: a word in each lane of the mask, and 0 in the others.
///
/// # Errors
///
/// The first fault; or no room, which an expression of few enough vectors and masks never meets.
pub fn value_of<const W: usize, S: Words<W>>(
    code: &[Instruction],
    words: &S,
    mask: Mask,
) -> Result<[u64; W], Stop>
    requires { IsGangWidth W }
    ensures { (e : Expr) (state : State) → Computes e code.now → HasRoom (expr_view e) → S.shows words.now state → IsValue result (value (expr_view e) (lanes_of W mask) state) }
{
    match of_few(code, words, mask) {
        Err(Stop::NoRoom) => of_any(code, words, mask),
        known => known,
    }
}

/// The same of code that keeps a few vectors and no masks; no room else.
fn of_few<const W: usize, S: Words<W>>(
    code: &[Instruction],
    words: &S,
    mask: Mask,
) -> Result<[u64; W], Stop>
    requires { IsGangWidth W }
    ensures { (e : Expr) (state : State) → Computes e code.now → HasRoom (expr_view e) → S.shows words.now state → IsKnown result (value (expr_view e) (lanes_of W mask) state) }
{
    let mut stack = ArrayVec::new();
    run(code, words, mask, &mut stack)?;
    take(&mut stack)
}

/// The same of any code. Its stacks take longer to make than most values to compute.
fn of_any<const W: usize, S: Words<W>>(
    code: &[Instruction],
    words: &S,
    mask: Mask,
) -> Result<[u64; W], Stop>
    requires { IsGangWidth W }
    ensures { (e : Expr) (state : State) → Computes e code.now → HasRoom (expr_view e) → S.shows words.now state → IsValue result (value (expr_view e) (lanes_of W mask) state) }
{
    let mut stacks = Stacks::new();
    evaluate(code, words, mask, &mut stacks)
}
