//! Which function a call means.
ghost use Rattle.std.specs.Prelude.{◌≡◌, ◌++◌, [], IfOk, None, OnOk, if◌then◌else◌, map, option_map, sum};
ghost use Rattle.std.specs.List.{list_all};
ghost use Rattle.gang_model.specs.Source.Names.{same_text};
ghost use Rattle.gang_model.specs.Types.Overloads as overloads;
ghost use Rattle.source_tree.specs.Tree.{function_view, param_view};
ghost use Rattle.source_answers.specs.Answers.{Answers};
ghost use Rattle.type_check_scopes.specs.Passings.{passing_view};
ghost use Rattle.type_check_overloads.specs.Candidates.{candidate_view};

use crate::costs::costs;
use gang_model::{RefusalNumber, SourceRefusal};
use gang_types::Place;
use ispc_names_scopes::is_same;
use source_answers::SourceFault;
use source_tree::Function;
use std::alloc::{AllocError, Global};
use type_check_scopes::Passing;

/// A function that takes the arguments, by its number in the source, with what they cost.
#[derive(Drop)]
pub struct Candidate<'a> {
    pub number: usize,
    pub function: &'a Function,
    pub prices: Vec<u8>,
}

/// What the arguments cost in a function, if it has the name and takes them.
fn function_costs(
    alloc: Global,
    function: &Function,
    name: &[u8],
    given: &[Passing],
) -> Result<Option<Vec<u8>>, AllocError>
    ensures costs { IfOk result (λ prices. option_map (λ p. p.items) prices
        ≡ if same_text (function_view function.now).name name.now then overloads.costs (map passing_view given.now) (function_view function.now).params else None) }
{
    if is_same(&function.name, name) {
        costs(alloc, given, &function.params)
    } else {
        Ok(None)
    }
}

/// Adds a function to those that a call may mean, if its costs are there.
fn add_candidate<'a>(
    possible: &mut Vec<Candidate<'a>>,
    number: usize,
    function: &'a Function,
    prices: Option<Vec<u8>>,
) -> Result<(), AllocError>
    ensures added { OnOk result (map candidate_view possible.new.items
        ≡ map candidate_view possible.old.items ++ overloads.candidate number (function_view function.now) (option_map (λ p. p.items) prices) []) }
{
    match prices {
        Some(prices) => {
            possible.push(Candidate {
                number,
                function,
                prices,
            })?;
            Ok(())
        }
        None => Ok(()),
    }
}

/// The functions of a name that take the arguments.
///
/// # Errors
///
/// Out of memory.
pub fn candidates<'a>(
    alloc: Global,
    functions: &[&'a Function],
    name: &[u8],
    given: &[Passing],
) -> Result<Vec<Candidate<'a>>, AllocError>
    ensures candidates { IfOk result (λ possible. map candidate_view possible.items
        ≡ overloads.candidates 0 (map (λ f. function_view f.now) functions.now) name.now (map passing_view given.now)) }
{
    let mut possible = Vec::new(alloc);
    for (number, function) in functions.iter().enumerate() {
        let prices = function_costs(alloc, function, name, given)?;
        add_candidate(&mut possible, number, function, prices)?;
    }
    Ok(possible)
}

/// The sum of some costs.
fn total(prices: &[u8]) -> u128
    ensures { result ≡ sum prices.now }
{
    let mut total = 0;
    for price in prices {
        total += u128::from(*price);
    }
    total
}

/// Whether no argument costs more than in the other function.
fn no_dearer(prices: &[u8], others: &[u8]) -> bool
    ensures { result ≡ overloads.no_dearer prices.now others.now }
{
    prices
        .iter()
        .zip(others)
        .all(|(price, other)| price <= other)
}

/// Whether a function is the other one, or its sum is less and none of its arguments costs more.
fn beats(candidate: &Candidate, other: &Candidate) -> bool
    ensures { result ≡ overloads.beats (candidate_view candidate.now) (candidate_view other.now) }
{
    candidate.number == other.number
        || (total(&candidate.prices) < total(&other.prices)
            && no_dearer(&candidate.prices, &other.prices))
}

/// Whether a function beats every other.
fn beats_all(candidate: &Candidate, possible: &[Candidate]) -> bool
    ensures { result ≡ list_all (λ other. overloads.beats (candidate_view candidate.now) (candidate_view other)) possible.now }
{
    possible.iter().all(|other| beats(candidate, other))
}

/// The function that beats every other.
fn best_of<'a, 'b>(possible: &'b [Candidate<'a>]) -> Option<&'b Candidate<'a>>
    ensures { option_map (λ c. candidate_view c.now) result ≡ overloads.best_of (map candidate_view possible.now) }
{
    possible
        .iter()
        .find(|candidate| beats_all(candidate, possible))
}

/// The function that a call means.
///
/// # Errors
///
/// S9 at the call's name if no function takes its arguments, S10 there if none of those that do beats every other.
pub fn overload<'a, 'b>(
    place: Place,
    possible: &'b [Candidate<'a>],
) -> Result<&'b Candidate<'a>, SourceFault>
    ensures { Answers (λ c. candidate_view c.now) result (overloads.overload place (map candidate_view possible.now)) }
{
    if possible.is_empty() {
        return Err(SourceFault::Refused(SourceRefusal {
            number: RefusalNumber::S9,
            place,
        }));
    }
    match best_of(possible) {
        Some(candidate) => Ok(candidate),
        None => Err(SourceFault::Refused(SourceRefusal {
            number: RefusalNumber::S10,
            place,
        })),
    }
}
