//! File-scope variables.
ghost use Rattle.std.specs.Prelude.{◌≡◌, IfOk, map};
ghost use Rattle.gang_model.specs.declared.forms.GlobalForm.TheVariants.{Initial};
ghost use Rattle.gang_model.specs.Source.Judged.{least_fault};
ghost use Rattle.gang_model.specs.Types.Resolved as model;
ghost use Rattle.gang_model.specs.Types.TypeFaults as faults;
ghost use Rattle.source_tree.specs.Tree as parsed;
ghost use Rattle.typed_tree.specs.Views as typed;
ghost use Rattle.source_answers.specs.Answers.{Answers};

use gang_model::{GlobalForm, Literal, SourceRefusal};
use gang_types::{IntType, UnaryOp, VarId, convert, unary};
use source_answers::{SourceFault, least, refuse};
use source_tree::GlobalVariable;
use std::alloc::{AllocError, Global};
use type_check_functions::{variable_fault, varying_fault};
use type_check_scopes::{TypeScope, declared_with};
use type_check_values::{declared_rate, declared_type, literal_type};
use typed_tree::{Global as TypedGlobal, Variable};

/// Whether a file-scope variable is an array.
fn is_array_form(form: GlobalForm) -> bool
    ensures { result ≡ faults.is_array_form form }
{
    match form {
        GlobalForm::Array(_) => true,
        GlobalForm::Plain | GlobalForm::Initial(_) => false,
    }
}

/// A literal's value as a word of a type, converted from the type that it has by itself.
fn literal_word(value_type: IntType, literal: Literal) -> u64
    ensures { result ≡ model.first_word value_type (Initial literal) }
{
    match literal {
        Literal::Number {
            is_negative,
            value,
            is_unsigned,
            is_long,
        } => {
            let own = literal_type(value, is_unsigned, is_long);
            let word = if is_negative {
                unary(UnaryOp::Negate, own, value)
            } else {
                value
            };
            convert(own, value_type, word)
        }
        Literal::Truth(truth) => convert(IntType::Bool, value_type, u64::from(truth)),
    }
}

/// The first word of a file-scope variable.
fn first_word(value_type: IntType, form: GlobalForm) -> u64
    ensures { result ≡ model.first_word value_type form }
{
    match form {
        GlobalForm::Initial(literal) => literal_word(value_type, literal),
        GlobalForm::Plain | GlobalForm::Array(_) => 0,
    }
}

/// How many elements a file-scope variable has, none unless it is an array.
fn length_of(form: GlobalForm) -> u64
    ensures { result ≡ model.length_of form }
{
    match form {
        GlobalForm::Array(length) => length,
        GlobalForm::Plain | GlobalForm::Initial(_) => 0,
    }
}

/// S7 at a varying array, S8 at a `void` variable.
fn global_fault(global: &GlobalVariable) -> Option<SourceRefusal>
    ensures { result ≡ least_fault (faults.global_faults (parsed.global_view global.now)) }
{
    let is_array = is_array_form(global.form);
    least(
        varying_fault(global.place, global.spec, is_array),
        variable_fault(global.place, global.spec),
    )
}

/// The file-scope variable of a number, as its declaration says.
fn typed_global(
    alloc: Global,
    number: usize,
    global: &GlobalVariable,
) -> Result<TypedGlobal, AllocError>
    ensures typed { IfOk result (λ made. typed.global_view made ≡ model.global_of number (parsed.global_view global.now)) }
{
    let value_type = declared_type(global.spec.value_type);
    let variable = Variable {
        name: global.name.to_vec(alloc)?,
        id: VarId::File(number),
        value_type,
        rate: declared_rate(global.spec.rate),
        is_array: is_array_form(global.form),
        is_parameter: false,
        is_constant: global.spec.is_constant,
    };
    Ok(TypedGlobal {
        variable,
        word: first_word(value_type, global.form),
        length: length_of(global.form),
    })
}

/// The file-scope variables in the typed tree.
///
/// # Errors
///
/// The first of their faults. Out of memory.
pub(crate) fn typed_globals(
    alloc: Global,
    globals: &[&GlobalVariable],
) -> Result<Vec<TypedGlobal>, SourceFault>
    ensures { Answers (λ made. map typed.global_view made.items) result (model.judged_globals 0 (map (λ g. parsed.global_view g.now) globals.now)) }
{
    let mut typed = Vec::new(alloc);
    let mut first = None;
    for global in globals {
        first = least(first, global_fault(global));
        typed.push(typed_global(alloc, typed.len(), global)?)?;
    }
    refuse(first)?;
    Ok(typed)
}

/// The file-scope variables in scope.
pub(crate) fn declared_globals(
    alloc: Global,
    globals: &[&GlobalVariable],
) -> Result<TypeScope, AllocError>
    ensures entries { IfOk result (λ scope. scope.entries ≡ model.global_entries 0 (map (λ g. parsed.global_view g.now) globals.now)) }
{
    let mut scope = TypeScope::new(alloc);
    for later in 0..globals.len() {
        let number = globals.len() - 1 - later;
        let global = globals[number];
        let is_array = is_array_form(global.form);
        let declared = declared_with(VarId::File(number), global.spec, is_array, false);
        scope.declare_in_file(alloc, &global.name, declared)?;
    }
    Ok(scope)
}
