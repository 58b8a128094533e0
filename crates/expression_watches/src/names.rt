//! What names stand for at two steps.
ghost use Rattle.std.specs.Prelude.{◌≡◌};
ghost use Rattle.std.specs.List.{list_all};
ghost use Rattle.gang_model.specs.Running.State.{same_id};
ghost use Rattle.ispc_lexer.specs.Views.{lexemes_of, sort_of};
ghost use Rattle.typed_tree.specs.Views.{program_view};
ghost use Rattle.expression_watches.specs.Names as spec;

use gang_types::{Spot, VarId};
use ispc_lexer::{Kind, Token};
use machine_names::local_named;
use typed_tree::Program;

/// Whether two steps are of one function, and each name among tokens stands for the same at both.
pub(crate) fn same_names(program: &Program, one: Spot, other: Spot, tokens: &[Token]) -> bool
    ensures { result ≡ spec.same_names (program_view program.now) one other (lexemes_of tokens.now) }
{
    one.function.0 == other.function.0 && all_same(program, one, other, tokens)
}

/// Whether each token spells what stands for the same at two steps.
fn all_same(program: &Program, one: Spot, other: Spot, tokens: &[Token]) -> bool
    ensures { result ≡ list_all (λ t. spec.same_at (program_view program.now) one other t.sort) (lexemes_of tokens.now) }
{
    for token in tokens {
        if !same_at(program, one, other, &token.kind) {
            return false;
        }
    }
    true
}

/// Whether what a token spells stands for the same at two steps.
fn same_at(program: &Program, one: Spot, other: Spot, kind: &Kind) -> bool
    ensures { result ≡ spec.same_at (program_view program.now) one other (sort_of kind.now) }
{
    match kind {
        Kind::Name(name) => same_found(
            local_at(program, one, name),
            local_at(program, other, name),
        ),
        Kind::Number(_) | Kind::Mark(_) => true,
    }
}

/// The variable of a function that a name stands for at a step.
fn local_at(program: &Program, spot: Spot, name: &[u8]) -> Option<VarId>
    ensures { result ≡ spec.local_at (program_view program.now) spot name.now }
{
    let function = program.functions.get(spot.function.0)?;
    let shown = local_named::<4>(function, spot.number, name)?;
    Some(shown.id)
}

/// Whether two variables, if they are there, are one.
fn same_found(one: Option<VarId>, other: Option<VarId>) -> bool
    ensures { result ≡ spec.same_found one other }
{
    match (one, other) {
        (None, None) => true,
        (Some(one), Some(other)) => is_same(one, other),
        (None, Some(_)) | (Some(_), None) => false,
    }
}

/// Whether two variables are one.
fn is_same(one: VarId, other: VarId) -> bool
    ensures { result ≡ same_id one other }
{
    match (one, other) {
        (VarId::File(a), VarId::File(b)) => a == b,
        (VarId::Local(a), VarId::Local(b)) => a == b,
        (VarId::File(_), VarId::Local(_)) | (VarId::Local(_), VarId::File(_)) => false,
    }
}
