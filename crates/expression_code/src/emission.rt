//! From expressions to the machine's instructions.
ghost use Rattle.std.specs.Prelude.{◌≡◌, ◌-◌, ◌<◌, [], ◌∷◌, ◌++◌, length, slice_set, IfOk, OnOk};
ghost use Rattle.expression_code.specs.Code.{code_of, arm_code, IsOther};
ghost use Rattle.expression_instructions.specs.declared.code.Instruction.TheVariants.{Enter};
ghost use Rattle.typed_tree.specs.Views.{expr_view};
ghost use Rattle.expression_runs.specs.Correct.{Computes};
ghost use Rattle.expression_runs.specs.Room.{HasRoom};
ghost use Rattle.expression_code.specs.Accepted.{IsAccepted};

use crate::operands::{one_operand, three_operands, two_operands};
use expression_instructions::{Gate, Instruction, Joining, Leaf};
use std::alloc::{AllocError, Global};
use typed_tree::Expr;

/// The instructions of an expression, which compute it.
///
/// # Errors
///
/// Out of memory.
pub fn compile(alloc: Global, expression: &Expr) -> Result<Vec<Instruction>, AllocError>
    ensures computes { IfOk result (λ code. Computes expression.now code.items) }
    ensures room { IsAccepted (expr_view expression.now) → HasRoom (expr_view expression.now) }
{
    let mut code = Vec::new(alloc);
    emit(&mut code, expression)?;
    Ok(code)
}

#[cycle(emission)]
fn emit(code: &mut Vec<Instruction>, expression: &Expr) -> Result<(), AllocError>
    ensures { OnOk result (code.new.items ≡ code.old.items ++ code_of expression.now) }
{
    if let Some((operation, operand)) = one_operand(expression) {
        emit(code, operand)?;
        return put(code, Instruction::One(operation));
    }
    if let Some((operation, left, right)) = two_operands(expression) {
        emit(code, left)?;
        emit(code, right)?;
        return put(code, Instruction::Two(operation));
    }
    if let Some((operation, first, second, third)) = three_operands(expression) {
        emit(code, first)?;
        emit(code, second)?;
        emit(code, third)?;
        return put(code, Instruction::Three(operation));
    }
    emit_other(code, expression)
}

// A leaf, an element, or an expression with parts behind gates.
#[cycle(emission)]
fn emit_other(code: &mut Vec<Instruction>, expression: &Expr) -> Result<(), AllocError>
    requires { IsOther expression.now }
    ensures { OnOk result (code.new.items ≡ code.old.items ++ code_of expression.now) }
{
    match expression {
        Expr::Number(number) => put(code, Instruction::Push(Leaf::Number(*number))),
        Expr::ProgramIndex => put(code, Instruction::Push(Leaf::ProgramIndex)),
        Expr::ProgramCount => put(code, Instruction::Push(Leaf::ProgramCount)),
        Expr::LaneMask => put(code, Instruction::Push(Leaf::LaneMask)),
        Expr::Read(variable) => put(code, Instruction::Push(Leaf::Read(*variable))),
        Expr::Element { array, index } => {
            emit(code, index)?;
            put(code, Instruction::Element(*array))
        }
        Expr::AndAlso { left, right } => {
            emit(code, left)?;
            emit_arm(code, Gate::WhereTrue, right)?;
            put(code, Instruction::Join(Joining::Both))
        }
        Expr::OrElse { left, right } => {
            emit(code, left)?;
            emit_arm(code, Gate::WhereFalse, right)?;
            put(code, Instruction::Join(Joining::Either))
        }
        Expr::Choice {
            test,
            first,
            second,
        } => {
            emit(code, test)?;
            emit_arm(code, Gate::WhereTrue, first)?;
            emit_arm(code, Gate::Otherwise, second)?;
            put(code, Instruction::Join(Joining::Choice))
        }
        _ => unreachable!(),
    }
}

// A part behind a gate that passes it where no lane needs it.
#[cycle(emission)]
fn emit_arm(code: &mut Vec<Instruction>, gate: Gate, expression: &Expr) -> Result<(), AllocError>
    ensures { OnOk result (code.new.items ≡ code.old.items ++ arm_code gate (code_of expression.now)) }
{
    let start = code.len();
    put(code, Instruction::Enter(gate, 0))?;
    emit(code, expression)?;
    close_gate(code, start, gate);
    Ok(())
}

// Lets a gate pass all that stands behind it.
fn close_gate(code: &mut Vec<Instruction>, place: usize, gate: Gate)
    requires { place < length code.old.items }
    ensures { code.new.items ≡ slice_set code.old.items place (Enter gate (length code.old.items - place - 1)) }
{
    code[place] = Instruction::Enter(gate, code.len() - place - 1);
}

// One more instruction.
fn put(code: &mut Vec<Instruction>, instruction: Instruction) -> Result<(), AllocError>
    ensures { OnOk result (code.new.items ≡ code.old.items ++ instruction ∷ []) }
{
    code.push(instruction)?;
    Ok(())
}
