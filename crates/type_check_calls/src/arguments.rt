//! Arguments by how many they are.
ghost use Rattle.std.specs.Prelude.{◌≡◌};
ghost use Rattle.type_check_calls.specs.Arguments as arguments;

use type_check_scopes::Passing;

/// The only argument.
pub(crate) fn only<'a>(given: Vec<Passing<'a>>) -> Option<Passing<'a>>
    ensures { result ≡ arguments.only given.entry.items }
{
    let mut given = given;
    if given.len() == 1 { given.pop() } else { None }
}

/// The two arguments.
pub(crate) fn pair<'a>(given: Vec<Passing<'a>>) -> Option<(Passing<'a>, Passing<'a>)>
    ensures { result ≡ arguments.pair given.entry.items }
{
    let mut given = given;
    if given.len() != 2 {
        return None;
    }
    let second = given.pop()?;
    match given.pop() {
        Some(first) => Some((first, second)),
        None => None,
    }
}
