//! The faults of names in an expression: a name that nothing declares, and a call that may not stand there.
ghost use Rattle.std.specs.Prelude.{◌≡◌};
ghost use Rattle.gang_model.specs.Source.Judged as judged;
ghost use Rattle.gang_model.specs.Source.Judged.{least_fault};
ghost use Rattle.gang_model.specs.Names.NameFaults as names;
ghost use Rattle.gang_model.specs.Source.Parsed.{ParsedEnd};
ghost use Rattle.source_tree.specs.Expressions.{expr_view, arg_view, args_view, with_arg};

use gang_model::{RefusalNumber, SourceRefusal};
use gang_types::Place;
use ispc_names_declarations::is_built_in;
use ispc_names_scopes::{FunctionNames, Scopes, is_library_name, statement_call};
use source_answers::{fault_if, least, least_inside};
use source_tree::{Arg, Expr};

/// Whether a call may stand only as a statement or whole, after `=` or `return`.
pub fn stands_whole(functions: &FunctionNames, name: &[u8]) -> bool
    ensures { result ≡ names.stands_whole functions.now name.now }
{
    functions.contains(name) || statement_call(name).is_some()
}

/// The fault of a name that nothing declares.
pub fn unknown_name(scopes: &Scopes, place: Place, name: &[u8]) -> Option<SourceRefusal>
    ensures { result ≡ least_fault (names.unknown_name scopes.now.environment place name.now) }
{
    let known = scopes.find(name).is_some() || is_built_in(name);
    fault_if(!known, RefusalNumber::S5, place)
}

/// The fault of a call inside an expression that may not stand there, or whose function there is not.
fn inner_call(functions: &FunctionNames, place: Place, name: &[u8]) -> Option<SourceRefusal>
    ensures { result ≡ least_fault (names.inner_call functions.now place name.now) }
{
    if stands_whole(functions, name) {
        fault_if(true, RefusalNumber::S12, place)
    } else {
        fault_if(!is_library_name(name), RefusalNumber::S5, place)
    }
}

/// The first fault of names in an expression: the one with the first place, at one place the one with the least number. A call
/// or an index with a fault inside has none of its own.
#[cycle(expression)]
pub fn expression_fault(
    expr: &Expr,
    functions: &FunctionNames,
    scopes: &Scopes,
) -> Option<SourceRefusal>
    ensures { result ≡ least_fault (names.names_in (expr_view expr.now) functions.now scopes.now.environment) }
{
    match expr {
        Expr::Number { .. } | Expr::Truth { .. } => None,
        Expr::Name { place, name } => unknown_name(scopes, *place, name),
        Expr::Index { place, name, index } => {
            let inside = expression_fault(index, functions, scopes);
            least_inside(inside, unknown_name(scopes, *place, name))
        }
        Expr::Call { place, name, args } => {
            let mut inside = None;
            for arg in args {
                inside = least(inside, argument_fault(arg, functions, scopes));
            }
            least_inside(inside, inner_call(functions, *place, name))
        }
        Expr::Paren { inner, .. } => expression_fault(inner, functions, scopes),
        Expr::Unary { operand, .. } | Expr::Cast { operand, .. } => {
            expression_fault(operand, functions, scopes)
        }
        Expr::Binary { left, right, .. } => least(
            expression_fault(left, functions, scopes),
            expression_fault(right, functions, scopes),
        ),
        Expr::Choice {
            test,
            first,
            second,
        } => {
            let in_test = expression_fault(test, functions, scopes);
            let in_first = expression_fault(first, functions, scopes);
            let in_second = expression_fault(second, functions, scopes);
            least(in_test, least(in_first, in_second))
        }
    }
}

#[cycle(expression)]
fn argument_fault(arg: &Arg, functions: &FunctionNames, scopes: &Scopes) -> Option<SourceRefusal>
    ensures { result ≡ least_fault (names.names_of_args (with_arg (arg_view arg.now) ParsedEnd) functions.now scopes.now.environment) }
{
    match arg {
        Arg::Value(value) => expression_fault(value, functions, scopes),
        Arg::Part { place, name } => unknown_name(scopes, *place, name),
        Arg::PartFrom { place, name, index } => least(
            unknown_name(scopes, *place, name),
            expression_fault(index, functions, scopes),
        ),
    }
}

/// The first fault of names in the arguments of a call.
pub fn arguments_fault(
    args: &[Arg],
    functions: &FunctionNames,
    scopes: &Scopes,
) -> Option<SourceRefusal>
    ensures { result ≡ least_fault (names.names_of_args (args_view args.now) functions.now scopes.now.environment) }
{
    let mut first = None;
    for arg in args {
        first = least(first, argument_fault(arg, functions, scopes));
    }
    first
}
