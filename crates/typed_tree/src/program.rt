//! Programs: functions and file-scope variables.

use crate::statements::Stmt;
use gang_types::{IntType, Rate, VarId};
use ispc_names_table::StepScopes;

/// A declared name.
pub struct Variable {
    pub name: Vec<u8>,
    pub id: VarId,
    pub value_type: IntType,
    pub rate: Rate,
    pub is_array: bool,
    pub is_parameter: bool,
    pub is_constant: bool,
}

impl Drop for Variable {
    fn drop(self) {
        let Self {
            name: _,
            id: _,
            value_type: _,
            rate: _,
            is_array: _,
            is_parameter: _,
            is_constant: _,
        } = self;
    }
}

/// A function: its result's rate and type (of a void function uniform int32, which nothing reads), its body, its variables
/// by their numbers, and what is in scope at its steps.
pub struct Function {
    pub name: Vec<u8>,
    pub result: Rate,
    pub result_type: IntType,
    pub body: Vec<Stmt>,
    pub variables: Vec<Variable>,
    pub scopes: StepScopes,
}

impl Drop for Function {
    fn drop(self) {
        let Self {
            name: _,
            result: _,
            result_type: _,
            body: _,
            variables: _,
            scopes: _,
        } = self;
    }
}

/// A file-scope variable: its literal's word, or its length if it is an array.
pub struct Global {
    pub variable: Variable,
    pub word: u64,
    pub length: u64,
}

impl Drop for Global {
    fn drop(self) {
        let Self {
            variable: _,
            word: _,
            length: _,
        } = self;
    }
}

/// The functions and file-scope variables of a source, in order.
#[derive(Drop)]
pub struct Program {
    pub functions: Vec<Function>,
    pub globals: Vec<Global>,
}
