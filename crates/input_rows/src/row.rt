//! Rows of an input.

use gang_types::VarId;

/// What an input gives a variable: the words of its values, each wrapped into the variable's type.
#[derive(Debug, Drop)]
pub struct InputRow {
    pub var: VarId,
    pub values: Vec<u64>,
}
