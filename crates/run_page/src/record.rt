//! The record of a run.
ghost use Rattle.std.specs.Prelude.{◌≡◌, []};

use crate::moments::{Call, Moment};
use crate::names::Names;
use crate::variables::Variable;
use crate::views::Change;
use std::alloc::Global;

/// What was noted of a run: how many lanes the gang has, the functions and the variables that were seen, each with its place as its number, and a moment for where the program stood at
/// first and after each step. The calls and changes of all moments lie one after another.
#[derive(Drop)]
pub(crate) struct Record {
    pub(crate) width: usize,
    pub(crate) functions: Names,
    pub(crate) variables: Vec<Variable>,
    pub(crate) moments: Vec<Moment>,
    pub(crate) calls: Vec<Call>,
    pub(crate) changes: Vec<Change>,
}

impl Record {
    pub(crate) fn new(alloc: Global) -> Record
        ensures moments { result.moments.items ≡ [] }
        ensures variables { result.variables.items ≡ [] }
        ensures functions { result.functions.items ≡ [] }
        ensures changes { result.changes.items ≡ [] }
        ensures calls { result.calls.items ≡ [] }
        ensures width { result.width ≡ 0 }
    {
        Record {
            width: 0,
            functions: Vec::new(alloc),
            variables: Vec::new(alloc),
            moments: Vec::new(alloc),
            calls: Vec::new(alloc),
            changes: Vec::new(alloc),
        }
    }
}
