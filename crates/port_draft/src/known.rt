//! Lists of what names stand for.
use port_tokens::{Pool, Span};
use std::alloc::{AllocError, Global};

/// What stands behind a name of an array.
#[derive(Clone, Copy, PartialEq, Eq)]
pub enum Shape {
    /// A scalar, or an array that is written as it stands.
    Plain,
    /// An array of which each lane has a column.
    Column,
}

/// What is known of a variable: the name that is written for it, the part of `bodies` that is its type, how many columns an array of two dimensions has, else 0, and the value of a constant.
#[derive(Clone, Copy)]
pub struct Known {
    pub name: Span,
    pub written: Span,
    pub body: Span,
    pub shape: Shape,
    pub columns: i64,
    pub value: Option<i64>,
}

impl Known {
    /// A name that is written as it stands.
    pub fn plain(name: Span, body: Span) -> Self {
        Known {
            name,
            written: name,
            body,
            shape: Shape::Plain,
            columns: 0,
            value: None,
        }
    }
}

/// The variables in scope, the innermost last.
pub struct Names {
    known: Vec<Known>,
}

impl Drop for Names {
    fn drop(self) {
        match self {
            Names { known: _ } => {}
        }
    }
}

impl Names {
    /// No variables.
    pub fn new(alloc: Global) -> Self {
        Names {
            known: Vec::new(alloc),
        }
    }

    /// How many there are.
    pub fn len(&self) -> usize {
        self.known.len()
    }

    /// Adds one.
    pub fn push(&mut self, known: Known) -> Result<(), AllocError> {
        Ok(self.known.push(known)?)
    }

    /// Leaves so many of them, and no more.
    pub fn truncate(&mut self, length: usize) {
        self.known.truncate(length);
    }

    /// The innermost of this name.
    pub(crate) fn find(&self, pool: &Pool, name: Span) -> Option<Known> {
        for known in self.known.iter().rev() {
            if pool.are_same(known.name, name) {
                return Some(*known);
            }
        }
        None
    }
}

/// What a macro or the name of a type stands for: a part of `bodies`. That of a type does so only in the place of a type.
#[derive(Clone, Copy)]
pub struct Meaning {
    pub name: Span,
    pub body: Span,
    pub is_type: bool,
}

/// What macros and second names of types stand for.
pub struct Meanings {
    known: Vec<Meaning>,
}

impl Drop for Meanings {
    fn drop(self) {
        match self {
            Meanings { known: _ } => {}
        }
    }
}

impl Meanings {
    /// None.
    pub fn new(alloc: Global) -> Self {
        Meanings {
            known: Vec::new(alloc),
        }
    }

    /// Adds one.
    pub fn push(&mut self, known: Meaning) -> Result<(), AllocError> {
        Ok(self.known.push(known)?)
    }

    /// The first of this name.
    pub fn find(&self, pool: &Pool, name: Span) -> Option<Meaning> {
        for known in &self.known {
            if pool.are_same(known.name, name) {
                return Some(*known);
            }
        }
        None
    }
}
