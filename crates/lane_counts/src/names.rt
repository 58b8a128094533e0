//! The names of functions.
ghost use Rattle.std.specs.Prelude.{◌≡◌, ℕ, List, Some, IfOk, MatchOption, [], length};
ghost use Rattle.lane_counts.specs.Naming.{AreDistinct, Extends, name_at};

use std::alloc::{AllocError, Global};

/// The names of functions, each once.
#[derive(Drop)]
pub struct Names {
    names: Vec<Vec<u8>>,
}

impl Names {
    pub(crate) fn new(alloc: Global) -> Self
        ensures { result.names.items ≡ [] }
    {
        Names {
            names: Vec::new(alloc),
        }
    }

    /// How many names there are.
    pub fn count(&self) -> usize
        ensures { result ≡ length self.now.names.items }
    {
        self.names.len()
    }

    /// The name of a number.
    pub fn name(&self, number: usize) -> &[u8]
        ensures { (name : List ℕ) → name_at self.now number ≡ Some name → result.now ≡ name }
    {
        match self.names.get(number) {
            Some(name) => name.as_slice(),
            None => &[],
        }
    }

    /// The number of a name.
    ///
    /// # Errors
    ///
    /// Out of memory, where the name is new.
    pub(crate) fn number_of(&mut self, alloc: Global, name: &[u8]) -> Result<usize, AllocError>
        requires { AreDistinct self.old }
        ensures named { IfOk result (λ number. name_at self.new number ≡ Some name.now) }
        ensures kept { IfOk result (λ _. Extends self.old self.new) }
        ensures distinct { IfOk result (λ _. AreDistinct self.new) }
    {
        if let Some(number) = self.find(name) {
            return Ok(number);
        }
        let number = self.names.len();
        self.names.push(Vec::from_slice(alloc, name)?)?;
        Ok(number)
    }

    /// The number of a name, if it has one.
    pub fn find(&self, name: &[u8]) -> Option<usize>
        ensures { MatchOption result ((number : ℕ) → name_at self.now number ≡ Some name.now → ⊥) (λ number. name_at self.now number ≡ Some name.now) }
    {
        for (number, known) in self.names.iter().enumerate() {
            if known.as_slice() == name {
                return Some(number);
            }
        }
        None
    }
}
