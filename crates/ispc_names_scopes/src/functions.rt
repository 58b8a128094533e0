//! The names of the source's functions.
ghost use Rattle.std.specs.Prelude.{◌≡◌, [], ◌++◌, ◌∷◌, OnErr, OnOk};
ghost use Rattle.gang_model.specs.Types.LibraryTable.{is_among};

use indexmap::IndexSet;
use std::alloc::{AllocError, Global};
use std::marker::Model;

/// The names of the source's functions, in order, with an index: a look-up does not walk them.
#[derive(Drop)]
pub struct FunctionNames {
    names: Vec<Vec<u8>>,
    index: IndexSet<Vec<u8>>,
}

impl Model for FunctionNames {
    ghost use Rattle.std.specs.Prelude.{List, ℕ};
    ghost use Rattle.ispc_names_scopes.specs.FunctionNames.{names_of, IsNameIndex};

    ghost Value = { List (List ℕ) };

    ghost view = { λ s. names_of s.names.items };

    ghost invariant = { λ s. IsNameIndex s.names.items s.index.keys };
}

impl FunctionNames {
    /// No functions.
    pub fn new(alloc: Global) -> FunctionNames
        ensures { result ≡ [] }
    {
        FunctionNames {
            names: Vec::new(alloc),
            index: IndexSet::new(alloc),
        }
    }

    /// One more function, after the others.
    ///
    /// # Errors
    ///
    /// Out of memory; the names are then as before.
    pub fn add(&mut self, alloc: Global, name: &[u8]) -> Result<(), AllocError>
        ensures last { OnOk result (self.new ≡ self.old ++ name.now ∷ []) }
        ensures unchanged { OnErr result (self.new ≡ self.old) }
    {
        let key = name.to_vec(alloc)?;
        let name = name.to_vec(alloc)?;
        self.names.push(name)?;
        if self.index.insert(key).is_err() {
            self.names.pop();
            return Err(AllocError);
        }
        Ok(())
    }

    /// Whether a function has this name.
    pub fn contains(&self, name: &[u8]) -> bool
        ensures { result ≡ is_among name.now self.now }
    {
        self.index.contains(name)
    }
}
