//! Instructions on a few vectors, all for the same lanes.
ghost use Rattle.std.specs.Prelude.{◌≡◌, ◌<◌, ℕ, List, [], ◌∷◌, reverse, MatchResult};
ghost use Rattle.arrayvec.specs.ArrayVec.{array_vec_len};
ghost use Rattle.gang_types.specs.Masks.{IsGangWidth, lanes_of};
ghost use Rattle.gang_types.specs.Lanes.{Lanes};
ghost use Rattle.gang_model.specs.Running.State.{State};
ghost use Rattle.expression_runs.specs.declared.stop.Stop.TheVariants.{NoRoom};
ghost use Rattle.expression_runs.specs.Machine.{act, apply_one, apply_three, apply_two, exec, push, read_elements};
ghost use Rattle.short_expressions.specs.Short.{IsNext, IsOutcome};

use arrayvec::ArrayVec;
use expression_instructions::{
    Instruction, OneOperand, ThreeOperands, TwoOperands, Words, apply_one, apply_three, apply_two,
    leaf_words,
};
use expression_runs::Stop;
use gang_types::{Mask, VarId};

/// How many vectors are a few.
pub(crate) const FEW: usize = 4;

// One more vector, where there is room.
fn push<const W: usize>(vector: [u64; W], stack: &mut ArrayVec<[u64; W], FEW>) -> Result<(), Stop>
    ensures { (lanes : Lanes) → IsNext lanes result (reverse stack.new.items) (push 513 0 vector.entry (reverse stack.old.items) (lanes ∷ [])) }
{
    if stack.is_full() {
        return Err(Stop::NoRoom);
    }
    stack.push(vector);
    Ok(())
}

// The top, taken off.
pub(crate) fn take<const W: usize>(stack: &mut ArrayVec<[u64; W], FEW>) -> Result<[u64; W], Stop>
    ensures { MatchResult result (λ top. (reverse stack.old.items ≡ top ∷ reverse stack.new.items) × (array_vec_len stack.new < FEW)) (λ stop. (stop ≡ NoRoom) × (reverse stack.old.items ≡ [])) }
{
    let _room = stack.remaining_capacity();
    stack.pop().ok_or(Stop::NoRoom)
}

fn one<const W: usize>(
    operation: OneOperand,
    mask: Mask,
    stack: &mut ArrayVec<[u64; W], FEW>,
) -> Result<(), Stop>
    requires { IsGangWidth W }
    ensures { IsNext (lanes_of W mask) result (reverse stack.new.items) (apply_one operation (reverse stack.old.items) (lanes_of W mask ∷ [])) }
{
    let operand = take(stack)?;
    stack.push(apply_one(operation, mask, operand));
    Ok(())
}

fn two<const W: usize>(
    operation: TwoOperands,
    mask: Mask,
    stack: &mut ArrayVec<[u64; W], FEW>,
) -> Result<(), Stop>
    requires { IsGangWidth W }
    ensures { IsNext (lanes_of W mask) result (reverse stack.new.items) (apply_two operation (reverse stack.old.items) (lanes_of W mask ∷ [])) }
{
    let right = take(stack)?;
    let left = take(stack)?;
    stack.push(apply_two(operation, mask, left, right)?);
    Ok(())
}

fn three<const W: usize>(
    operation: ThreeOperands,
    mask: Mask,
    stack: &mut ArrayVec<[u64; W], FEW>,
) -> Result<(), Stop>
    requires { IsGangWidth W }
    ensures { IsNext (lanes_of W mask) result (reverse stack.new.items) (apply_three operation (reverse stack.old.items) (lanes_of W mask ∷ [])) }
{
    let third = take(stack)?;
    let second = take(stack)?;
    let first = take(stack)?;
    stack.push(apply_three(operation, mask, first, second, third)?);
    Ok(())
}

// The elements of an array at the indices on top.
fn read_elements<const W: usize, S: Words<W>>(
    array: VarId,
    words: &S,
    mask: Mask,
    stack: &mut ArrayVec<[u64; W], FEW>,
) -> Result<(), Stop>
    requires { IsGangWidth W }
    ensures { (state : State) → S.shows words.now state → IsNext (lanes_of W mask) result (reverse stack.new.items) (read_elements state array (reverse stack.old.items) (lanes_of W mask ∷ [])) }
{
    let indices = take(stack)?;
    stack.push(words.elements(array, mask, &indices)?);
    Ok(())
}

// One instruction; one that needs a mask of its own is left to the stacks of any expression.
fn act<const W: usize, S: Words<W>>(
    instruction: Instruction,
    words: &S,
    mask: Mask,
    stack: &mut ArrayVec<[u64; W], FEW>,
) -> Result<(), Stop>
    requires { IsGangWidth W }
    ensures { (state : State) → S.shows words.now state → IsNext (lanes_of W mask) result (reverse stack.new.items) (act 513 257 state instruction (reverse stack.old.items) (lanes_of W mask ∷ [])) }
{
    match instruction {
        Instruction::Push(leaf) => push(leaf_words(leaf, words, mask), stack),
        Instruction::Element(array) => read_elements(array, words, mask, stack),
        Instruction::One(operation) => one(operation, mask, stack),
        Instruction::Two(operation) => two(operation, mask, stack),
        Instruction::Three(operation) => three(operation, mask, stack),
        Instruction::Enter(..) | Instruction::Join(_) => Err(Stop::NoRoom),
    }
}

/// The instructions in order.
///
/// # Errors
///
/// The first fault; or no room, where they keep more than a few vectors, or masks.
pub(crate) fn run<const W: usize, S: Words<W>>(
    code: &[Instruction],
    words: &S,
    mask: Mask,
    stack: &mut ArrayVec<[u64; W], FEW>,
) -> Result<(), Stop>
    requires { IsGangWidth W }
    ensures { (state : State) → S.shows words.now state → IsOutcome (lanes_of W mask) result (reverse stack.new.items) (exec 513 257 state code.now 0 (reverse stack.old.items) (lanes_of W mask ∷ [])) }
{
    for instruction in code {
        act(*instruction, words, mask, stack)?;
    }
    Ok(())
}
