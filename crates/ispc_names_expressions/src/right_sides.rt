//! The faults of names in right sides and in calls that are statements.
ghost use Rattle.std.specs.Prelude.{◌≡◌, if◌then◌else◌, not, true, option_map};
ghost use Rattle.gang_model.specs.Source.Judged as judged;
ghost use Rattle.gang_model.specs.Source.Judged.{least_fault};
ghost use Rattle.gang_model.specs.Types.LibraryTable.{is_library_name};
ghost use Rattle.gang_model.specs.declared.refusals.RefusalNumber.TheVariants as number;
ghost use Rattle.gang_model.specs.Names.NameFaults as names;
ghost use Rattle.source_tree.specs.Expressions.{expr_view, args_view};
ghost use Rattle.ispc_names_scopes.specs.Names.{statement_call_view};

use crate::expressions::{arguments_fault, expression_fault, stands_whole};
use gang_model::{RefusalNumber, SourceRefusal};
use gang_types::Place;
use ispc_names_scopes::{FunctionNames, Scopes, StatementCall, is_library_name, statement_call};
use source_answers::{fault_if, least_inside};
use source_tree::{Arg, Expr};

/// The fault of a call that stands whole after `=` or `return`: `assert` gives nothing.
fn whole_call_fault(
    call: Option<StatementCall>,
    place: Place,
    args: &[Arg],
    functions: &FunctionNames,
    scopes: &Scopes,
) -> Option<SourceRefusal>
    ensures { result ≡ least_fault (names.whole_call_names (statement_call_view call) place (args_view args.now) functions.now scopes.now.environment) }
{
    let inside = arguments_fault(args, functions, scopes);
    match call {
        Some(StatementCall::Assert) => {
            least_inside(inside, fault_if(true, RefusalNumber::S12, place))
        }
        Some(StatementCall::PackedStore) => inside,
        Some(StatementCall::PackedLoad) => inside,
        None => inside,
    }
}

/// The fault of names in a right side, where a call may stand whole, in parentheses or not.
pub(crate) fn right_fault(
    expr: &Expr,
    functions: &FunctionNames,
    scopes: &Scopes,
) -> Option<SourceRefusal>
    ensures { result ≡ least_fault (names.right_names (expr_view expr.now) functions.now scopes.now.environment) }
{
    match expr {
        Expr::Paren { inner, .. } => right_fault(inner, functions, scopes),
        Expr::Call { place, name, args } => {
            if stands_whole(functions, name) {
                whole_call_fault(statement_call(name), *place, args, functions, scopes)
            } else {
                expression_fault(expr, functions, scopes)
            }
        }
        _ => expression_fault(expr, functions, scopes),
    }
}

/// The fault of names in the right side of a declaration or a `return`, if there is one.
pub(crate) fn some_right_fault(
    expr: &Option<Expr>,
    functions: &FunctionNames,
    scopes: &Scopes,
) -> Option<SourceRefusal>
    ensures { result ≡ least_fault (names.right_names_of (option_map expr_view expr.now) functions.now scopes.now.environment) }
{
    match expr {
        Some(expr) => right_fault(expr, functions, scopes),
        None => None,
    }
}

/// The fault of names in an index or a test, if there is one.
pub fn some_expression_fault(
    expr: &Option<Expr>,
    functions: &FunctionNames,
    scopes: &Scopes,
) -> Option<SourceRefusal>
    ensures { result ≡ least_fault (names.names_in_some (option_map expr_view expr.now) functions.now scopes.now.environment) }
{
    match expr {
        Some(expr) => expression_fault(expr, functions, scopes),
        None => None,
    }
}

/// The fault of a function that may not be called as a statement, or that there is not.
fn statement_name_fault(
    place: Place,
    name: &[u8],
    functions: &FunctionNames,
) -> Option<SourceRefusal>
    ensures { result ≡ least_fault (if is_library_name name.now then judged.fault_if true number.S12 place
        else judged.fault_if (not (names.stands_whole functions.now name.now)) number.S5 place) }
{
    if is_library_name(name) {
        fault_if(true, RefusalNumber::S12, place)
    } else {
        fault_if(!stands_whole(functions, name), RefusalNumber::S5, place)
    }
}

/// The fault of a call as a statement: a library call that gives a value may not stand there.
pub(crate) fn call_fault(
    place: Place,
    name: &[u8],
    args: &[Arg],
    functions: &FunctionNames,
    scopes: &Scopes,
) -> Option<SourceRefusal>
    ensures { result ≡ least_fault (names.statement_names place name.now (args_view args.now) functions.now scopes.now.environment) }
{
    let inside = arguments_fault(args, functions, scopes);
    least_inside(inside, statement_name_fault(place, name, functions))
}
