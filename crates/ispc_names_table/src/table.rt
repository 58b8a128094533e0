//! Variables and steps, joined by links from inner declarations to outer ones.

use gang_types::Place;

/// A variable of a function: its name, and the number of the innermost variable of the function that is in scope where it
/// is declared.
#[derive(Debug, Drop)]
pub struct Declaration {
    pub name: Vec<u8>,
    pub outside: Option<usize>,
}

/// A step: its place, and the number of the innermost variable of the function that is in scope there.
#[derive(Clone, Copy, Debug, PartialEq, Eq, Drop)]
pub struct Standing {
    pub place: Place,
    pub innermost: Option<usize>,
}

/// The variables of a function by their numbers, in the order of their declarations, and its steps by their numbers. The
/// links make one list of all scopes: what is in scope at a step is found from link to link.
#[derive(Debug, Drop)]
pub struct StepScopes {
    pub declarations: Vec<Declaration>,
    pub standings: Vec<Standing>,
}
