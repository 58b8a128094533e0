//! The machine: vectors on a stack of fixed room, masks on another.
ghost use Rattle.std.specs.Prelude.{◌≡◌, ◌<◌, ◌≤◌, ℕ, List, [], ◌∷◌, drop, length, reverse};
ghost use Rattle.arrayvec.specs.ArrayVec.{array_vec_len};
ghost use Rattle.gang_types.specs.Lanes.{Lanes};
ghost use Rattle.gang_types.specs.Masks.{IsGangWidth, lanes_of};
ghost use Rattle.gang_model.specs.Running.State.{State};
ghost use Rattle.expression_runs.specs.Machine.{act, apply_one, apply_three, apply_two, deeper, enter, exec, join, open_gate, open_otherwise, open_where, push, push_leaf, read_elements};
ghost use Rattle.expression_runs.specs.Bridge.{masks_view, next_after, next_of, outcome_of};
ghost use Rattle.expression_instructions.specs.Values.{where_lanes};

use crate::stacks::{ActiveLanes, below_top, push_mask, take, top};
use crate::stop::Stop;
use arrayvec::ArrayVec;
use expression_instructions::{
    Gate, Instruction, Joining, Leaf, OneOperand, ThreeOperands, TwoOperands, Words, apply_one,
    apply_three, apply_two, leaf_words,
};
use gang_types::{Mask, VarId};
use masked_operations::{both_hold, chosen, either_holds, splat, where_false, where_true};

// One more vector, where there is room.
fn push_vector<const W: usize, const R: usize>(
    stack: &mut ArrayVec<[u64; W], R>,
    vector: [u64; W],
) -> Result<(), Stop>
    ensures { (pass : ℕ) (masks : List Lanes) → next_after pass result (reverse stack.new.items) masks ≡ push R pass vector.entry (reverse stack.old.items) masks }
{
    if stack.is_full() {
        return Err(Stop::NoRoom);
    }
    stack.push(vector);
    Ok(())
}

fn push_leaf<const W: usize, const R: usize, const M: usize, S: Words<W>>(
    leaf: Leaf,
    words: &S,
    stack: &mut ArrayVec<[u64; W], R>,
    masks: &ArrayVec<ActiveLanes, M>,
) -> Result<(), Stop>
    requires { IsGangWidth W }
    ensures { (state : State) → S.shows words.now state → next_after 0 result (reverse stack.new.items) (masks_view W masks.now.items) ≡ push_leaf R state leaf (reverse stack.old.items) (masks_view W masks.now.items) }
{
    let mask = top(masks)?.mask;
    push_vector(stack, leaf_words(leaf, words, mask))
}

fn one<const W: usize, const R: usize, const M: usize>(
    operation: OneOperand,
    stack: &mut ArrayVec<[u64; W], R>,
    masks: &ArrayVec<ActiveLanes, M>,
) -> Result<(), Stop>
    requires { IsGangWidth W }
    ensures { next_after 0 result (reverse stack.new.items) (masks_view W masks.now.items) ≡ apply_one operation (reverse stack.old.items) (masks_view W masks.now.items) }
{
    let mask = top(masks)?.mask;
    let operand = take(stack)?;
    stack.push(apply_one(operation, mask, operand));
    Ok(())
}

fn two<const W: usize, const R: usize, const M: usize>(
    operation: TwoOperands,
    stack: &mut ArrayVec<[u64; W], R>,
    masks: &ArrayVec<ActiveLanes, M>,
) -> Result<(), Stop>
    requires { IsGangWidth W }
    ensures { next_after 0 result (reverse stack.new.items) (masks_view W masks.now.items) ≡ apply_two operation (reverse stack.old.items) (masks_view W masks.now.items) }
{
    let mask = top(masks)?.mask;
    let right = take(stack)?;
    let left = take(stack)?;
    stack.push(apply_two(operation, mask, left, right)?);
    Ok(())
}

fn three<const W: usize, const R: usize, const M: usize>(
    operation: ThreeOperands,
    stack: &mut ArrayVec<[u64; W], R>,
    masks: &ArrayVec<ActiveLanes, M>,
) -> Result<(), Stop>
    requires { IsGangWidth W }
    ensures { next_after 0 result (reverse stack.new.items) (masks_view W masks.now.items) ≡ apply_three operation (reverse stack.old.items) (masks_view W masks.now.items) }
{
    let mask = top(masks)?.mask;
    let third = take(stack)?;
    let second = take(stack)?;
    let first = take(stack)?;
    stack.push(apply_three(operation, mask, first, second, third)?);
    Ok(())
}

// The elements of an array at the indices on top.
fn read_elements<const W: usize, const R: usize, const M: usize, S: Words<W>>(
    array: VarId,
    words: &S,
    stack: &mut ArrayVec<[u64; W], R>,
    masks: &ArrayVec<ActiveLanes, M>,
) -> Result<(), Stop>
    requires { IsGangWidth W }
    ensures { (state : State) → S.shows words.now state → next_after 0 result (reverse stack.new.items) (masks_view W masks.now.items) ≡ read_elements state array (reverse stack.old.items) (masks_view W masks.now.items) }
{
    let mask = top(masks)?.mask;
    let indices = take(stack)?;
    stack.push(words.elements(array, mask, &indices)?);
    Ok(())
}

// A part for some lanes, or zeros for its value where there are none.
fn enter<const W: usize, const R: usize, const M: usize>(
    pass: usize,
    part: Mask,
    stack: &mut ArrayVec<[u64; W], R>,
    masks: &mut ArrayVec<ActiveLanes, M>,
) -> Result<usize, Stop>
    requires width { IsGangWidth W }
    requires room { array_vec_len masks.old < M }
    ensures { next_of result (reverse stack.new.items) (masks_view W masks.new.items) ≡ enter R pass (lanes_of W part) (reverse stack.old.items) (masks_view W masks.old.items) }
{
    push_mask(masks, part);
    if part.is_empty::<W>() {
        push_vector(stack, splat(part, 0))?;
        Ok(pass)
    } else {
        Ok(0)
    }
}

// The lanes of the mask where the words hold, or where they do not.
fn part_of<const W: usize>(wanted: bool, mask: Mask, words: [u64; W]) -> Mask
    requires { IsGangWidth W }
    ensures { lanes_of W result ≡ where_lanes wanted (lanes_of W mask) words.entry }
{
    if wanted {
        where_true(mask, words)
    } else {
        where_false(mask, words)
    }
}

fn open_where<const W: usize, const R: usize, const M: usize>(
    wanted: bool,
    pass: usize,
    stack: &mut ArrayVec<[u64; W], R>,
    masks: &mut ArrayVec<ActiveLanes, M>,
) -> Result<usize, Stop>
    requires { IsGangWidth W }
    ensures { next_of result (reverse stack.new.items) (masks_view W masks.new.items) ≡ open_where R M wanted pass (reverse stack.old.items) (masks_view W masks.old.items) }
{
    let part = part_of(wanted, top(masks)?.mask, *top(stack)?);
    if masks.is_full() {
        return Err(Stop::NoRoom);
    }
    enter(pass, part, stack, masks)
}

fn open_otherwise<const W: usize, const R: usize, const M: usize>(
    pass: usize,
    stack: &mut ArrayVec<[u64; W], R>,
    masks: &mut ArrayVec<ActiveLanes, M>,
) -> Result<usize, Stop>
    requires { IsGangWidth W }
    ensures { next_of result (reverse stack.new.items) (masks_view W masks.new.items) ≡ open_otherwise R pass (reverse stack.old.items) (masks_view W masks.old.items) }
{
    take(masks)?;
    let part = part_of(false, top(masks)?.mask, *below_top(stack)?);
    enter(pass, part, stack, masks)
}

fn open_gate<const W: usize, const R: usize, const M: usize>(
    gate: Gate,
    pass: usize,
    stack: &mut ArrayVec<[u64; W], R>,
    masks: &mut ArrayVec<ActiveLanes, M>,
) -> Result<usize, Stop>
    requires { IsGangWidth W }
    ensures { next_of result (reverse stack.new.items) (masks_view W masks.new.items) ≡ open_gate R M gate pass (reverse stack.old.items) (masks_view W masks.old.items) }
{
    match gate {
        Gate::WhereTrue => open_where(true, pass, stack, masks),
        Gate::WhereFalse => open_where(false, pass, stack, masks),
        Gate::Otherwise => open_otherwise(pass, stack, masks),
    }
}

// A part's vector joined to those below it, for the lanes of the mask below the part's.
fn join<const W: usize, const R: usize, const M: usize>(
    joining: Joining,
    stack: &mut ArrayVec<[u64; W], R>,
    masks: &mut ArrayVec<ActiveLanes, M>,
) -> Result<(), Stop>
    requires { IsGangWidth W }
    ensures { next_after 0 result (reverse stack.new.items) (masks_view W masks.new.items) ≡ join joining (reverse stack.old.items) (masks_view W masks.old.items) }
{
    take(masks)?;
    let mask = top(masks)?.mask;
    let right = take(stack)?;
    let left = take(stack)?;
    let joined = match joining {
        Joining::Both => both_hold(mask, left, right),
        Joining::Either => either_holds(mask, left, right),
        Joining::Choice => chosen(mask, take(stack)?, left, right),
    };
    stack.push(joined);
    Ok(())
}

// One instruction: how many of those behind it are passed.
fn act<const W: usize, const R: usize, const M: usize, S: Words<W>>(
    instruction: Instruction,
    words: &S,
    stack: &mut ArrayVec<[u64; W], R>,
    masks: &mut ArrayVec<ActiveLanes, M>,
) -> Result<usize, Stop>
    requires { IsGangWidth W }
    ensures { (state : State) → S.shows words.now state → next_of result (reverse stack.new.items) (masks_view W masks.new.items) ≡ act R M state instruction (reverse stack.old.items) (masks_view W masks.old.items) }
{
    match instruction {
        Instruction::Enter(gate, pass) => return open_gate(gate, pass, stack, masks),
        Instruction::Push(leaf) => push_leaf(leaf, words, stack, masks)?,
        Instruction::Element(array) => read_elements(array, words, stack, masks)?,
        Instruction::One(operation) => one(operation, stack, masks)?,
        Instruction::Two(operation) => two(operation, stack, masks)?,
        Instruction::Three(operation) => three(operation, stack, masks)?,
        Instruction::Join(joining) => join(joining, stack, masks)?,
    }
    Ok(0)
}

// The instructions that are left after some are passed.
fn after(code: &[Instruction], pass: usize) -> &[Instruction]
    ensures { result.now ≡ drop pass code.now }
{
    if pass < code.len() {
        &code[pass..]
    } else {
        &[]
    }
}

/// The instructions in order, but for those that are passed.
pub(crate) fn run<const W: usize, const R: usize, const M: usize, S: Words<W>>(
    code: &[Instruction],
    words: &S,
    stack: &mut ArrayVec<[u64; W], R>,
    masks: &mut ArrayVec<ActiveLanes, M>,
) -> Result<(), Stop>
    requires { IsGangWidth W }
    ensures { (state : State) → S.shows words.now state → outcome_of result (reverse stack.new.items) (masks_view W masks.new.items) ≡ exec R M state code.now 0 (reverse stack.old.items) (masks_view W masks.old.items) }
{
    let mut rest = code;
    while let Some((first, others)) = rest.split_first() {
        let pass = act(*first, words, stack, masks)?;
        rest = after(others, pass);
    }
    Ok(())
}
