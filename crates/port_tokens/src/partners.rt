//! Which brackets belong together.
use std::alloc::{AllocError, Global};

/// Where the partner of each bracket stands, elsewhere the token itself; and the brackets that are open.
pub struct Partners {
    partners: Vec<usize>,
    open: Vec<usize>,
}

impl Drop for Partners {
    fn drop(self) {
        match self {
            Partners {
                partners: _,
                open: _,
            } => {}
        }
    }
}

impl Partners {
    /// Those of no tokens.
    pub fn new(alloc: Global) -> Self {
        Partners {
            partners: Vec::new(alloc),
            open: Vec::new(alloc),
        }
    }

    /// Where the partner of the bracket stands that is there.
    pub fn partner(&self, at: usize) -> usize {
        match self.partners.get(at) {
            Some(partner) => *partner,
            None => at,
        }
    }

    /// Adds a token, which stands for itself until a bracket is closed.
    pub fn add(&mut self, at: usize) -> Result<(), AllocError> {
        Ok(self.partners.push(at)?)
    }

    /// How many brackets are open.
    pub fn count_open(&self) -> usize {
        self.open.len()
    }

    /// Adds an open bracket.
    pub fn open(&mut self, at: usize) -> Result<(), AllocError> {
        Ok(self.open.push(at)?)
    }

    /// The innermost open bracket, which is open no more.
    pub fn close(&mut self) -> Option<usize> {
        self.open.pop()
    }

    /// Makes two brackets partners.
    pub fn pair(&mut self, first: usize, last: usize) {
        self.set(first, last);
        self.set(last, first);
    }

    fn set(&mut self, at: usize, partner: usize) {
        if let Some(found) = self.partners.get_mut(at) {
            *found = partner;
        }
    }
}
