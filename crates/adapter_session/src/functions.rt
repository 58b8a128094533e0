//! An editor's breakpoints of functions, by the functions' names.
ghost use Rattle.std.specs.Prelude.{◌≡◌, ◌==◌, [], drop, find, map, option_map};
ghost use Rattle.adapter_session.specs.Changes.{asked_view, text_of};
ghost use Rattle.adapter_session.specs.Given.{all_numbers};
ghost use Rattle.adapter_session.specs.Terms as spec;
ghost use Rattle.adapter_session.specs.Terms.{function_of};

use crate::changes::Asked;
use crate::terms::bytes_of;
use arrayvec::ArrayVec;
use conditional_stops::LONGEST_NAME;
use debug_answers::NumberedStop;

/// How many breakpoints of functions can be there.
pub(crate) const ROOM: usize = 64;

/// The name of a function.
type Name = ArrayVec<u8, LONGEST_NAME>;

/// A breakpoint of a function, by its number.
#[derive(Drop)]
pub(crate) struct FunctionStop {
    pub(crate) number: u32,
    /// The name of the function, an empty one in place of one of more than 256 bytes.
    pub(crate) name: Name,
}

/// The blank in an unused place.
impl Default for FunctionStop {
    ghost is_default = { λ function. function.number ≡ 0 };

    fn default() -> Self {
        FunctionStop {
            number: 0,
            name: Name::new(),
        }
    }
}

/// The breakpoints of functions.
pub(crate) type FunctionStops = ArrayVec<FunctionStop, ROOM>;

/// The numbers of the breakpoints of functions.
pub(crate) fn function_numbers(functions: &FunctionStops) -> ArrayVec<u32, ROOM>
    ensures { result.items ≡ map (λ f. f.number) (map function_of functions.now.items) }
{
    let mut numbers = ArrayVec::new();
    let all = functions.as_slice();
    for function in all {
        numbers.push(function.number);
    }
    numbers
}

/// The name of the function whose breakpoint has a number, if one has it.
pub(crate) fn name_of(functions: &[FunctionStop], number: u32) -> Option<&[u8]>
    ensures { option_map (λ name. name.now) result ≡ spec.name_of number (map function_of functions.now) }
{
    match find_function(functions, number) {
        Some(function) => Some(function.name.as_slice()),
        None => None,
    }
}

/// The first of a number.
fn find_function(functions: &[FunctionStop], number: u32) -> Option<&FunctionStop>
    ensures { option_map (λ f. f.now) result ≡ find (λ f. f.number == number) functions.now }
{
    functions.iter().find(|function| function.number == number)
}

/// Those of stops that stand, and of those of them that came.
pub(crate) fn given_functions(
    functions: &[FunctionStop],
    stops: &[NumberedStop],
    came: &[NumberedStop],
    asked: &[Asked<'_>],
) -> FunctionStops
    ensures { map function_of result.items
        ≡ spec.given_functions (all_numbers stops.now) (all_numbers came.now) (map asked_view asked.now) (map function_of functions.now) }
{
    let mut kept = carried_functions(functions, stops, stops);
    name_all(&mut kept, came, asked);
    kept
}

/// Gives stops, one after another, the name that is asked for each.
fn name_all(functions: &mut FunctionStops, came: &[NumberedStop], asked: &[Asked<'_>])
    ensures { map function_of functions.new.items ≡ spec.all_named (map asked_view asked.now) (all_numbers came.now) (map function_of functions.old.items) }
{
    let mut stops = came;
    for one in asked {
        stops = name_next(functions, stops, bytes_of(one.name));
    }
}

/// Those that stand in place of functions' breakpoints.
pub(crate) fn carried_functions(
    functions: &[FunctionStop],
    old: &[NumberedStop],
    stops: &[NumberedStop],
) -> FunctionStops
    ensures { map function_of result.items ≡ spec.carried_functions (map function_of functions.now) (all_numbers old.now) (all_numbers stops.now) [] }
{
    let mut made = FunctionStops::new();
    let mut stops = stops;
    for entry in old {
        stops = name_next(&mut made, stops, name_of(functions, entry.number));
    }
    made
}

/// Makes the first of some stops a function's, if there is a name, and says which stand behind it.
fn name_next<'a>(
    functions: &mut FunctionStops,
    stops: &'a [NumberedStop],
    name: Option<&[u8]>,
) -> &'a [NumberedStop]
    ensures noted { map function_of functions.new.items ≡ spec.first_named (all_numbers stops.now) (text_of name.entry) (map function_of functions.old.items) }
    ensures behind { all_numbers result.now ≡ drop 1 (all_numbers stops.now) }
{
    match stops {
        [first, others @ ..] => {
            put_named(functions, first.number, name);
            others
        }
        [] => stops,
    }
}

/// Makes a breakpoint a function's, if there is a name.
fn put_named(functions: &mut FunctionStops, number: u32, name: Option<&[u8]>)
    ensures { map function_of functions.new.items ≡ spec.named number (text_of name.entry) (map function_of functions.old.items) }
{
    match name {
        Some(name) => put_function(functions, number, name),
        None => {}
    }
}

/// Puts a function's breakpoint behind others, where there is room.
fn put_function(functions: &mut FunctionStops, number: u32, name: &[u8])
    ensures { map function_of functions.new.items ≡ spec.with_function number name.now (map function_of functions.old.items) }
{
    if functions.len() < ROOM {
        let name = kept_name(name);
        functions.push(FunctionStop { number, name });
    }
}

/// The name that is kept of a function.
fn kept_name(name: &[u8]) -> Name
    ensures { result.items ≡ spec.kept_name name.now }
{
    match Name::try_from(name) {
        Ok(name) => name,
        Err(_) => Name::new(),
    }
}
