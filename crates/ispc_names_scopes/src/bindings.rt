//! The declarations in scope, and what each name stands for.
ghost use Rattle.std.specs.Prelude.{◌≡◌, [], ◌∷◌, OnErr, OnOk, drop, length};
ghost use Rattle.gang_model.specs.Names.Scope.{bound};
ghost use Rattle.ispc_names_scopes.specs.Bindings.{found_in};
ghost use Rattle.ispc_names_scopes.specs.Innermost.{innermost_of};

use gang_types::VarId;
use indexmap::IndexMap;
use std::alloc::{AllocError, Global};
use std::marker::Model;

/// The innermost declaration of a name: its variable, and how many declarations stand outside it.
#[derive(Clone, Copy, Debug, PartialEq, Eq, Drop)]
pub(crate) struct Innermost {
    pub(crate) id: VarId,
    pub(crate) outside: usize,
}

/// A declaration, and what its name stood for before it.
#[derive(Drop)]
pub(crate) struct Declaration {
    name: Vec<u8>,
    id: VarId,
    hides: Option<Innermost>,
}

type Index = IndexMap<Vec<u8>, Option<Innermost>>;

/// The declarations in scope, the innermost last, with an index by name: a look-up and each change cost one look-up in the
/// index, whatever the number of declarations. A name that no declaration stands for any more keeps its place in the index.
#[derive(Drop)]
pub(crate) struct Bindings {
    declared: Vec<Declaration>,
    index: Index,
}

impl Model for Bindings {
    ghost use Rattle.std.specs.Prelude.{List};
    ghost use Rattle.gang_model.specs.Names.Scope.{Binding};

    ghost Value = { List Binding };

    ghost use Rattle.ispc_names_scopes.specs.Bindings.{environment_of, IsIndexed};

    ghost view = { λ s. environment_of s.declared.items };

    ghost invariant = { λ s. IsIndexed s.declared.items s.index.entries };
}

fn innermost_in(index: &Index, name: &[u8]) -> Option<Innermost>
    ensures { result ≡ found_in index.now.entries name.now }
{
    index.get(name).copied().flatten()
}

impl Bindings {
    /// No declarations.
    pub(crate) fn new(alloc: Global) -> Bindings
        ensures { result ≡ [] }
    {
        Bindings {
            declared: Vec::new(alloc),
            index: IndexMap::new(alloc),
        }
    }

    /// How many declarations are in scope.
    pub(crate) fn len(&self) -> usize
        ensures { result ≡ length self.now }
    {
        self.declared.len()
    }

    /// The innermost declaration of a name.
    pub(crate) fn innermost(&self, name: &[u8]) -> Option<Innermost>
        ensures { result ≡ innermost_of self.now name.now }
    {
        innermost_in(&self.index, name)
    }

    /// One more declaration, inside the others.
    pub(crate) fn push(&mut self, alloc: Global, name: &[u8], id: VarId) -> Result<(), AllocError>
        ensures inside { OnOk result (self.new ≡ bound name.now id ∷ self.old) }
        ensures unchanged { OnErr result (self.new ≡ self.old) }
    {
        let hides = innermost_in(&self.index, name);
        let innermost = Innermost {
            id,
            outside: self.declared.len(),
        };
        let key = name.to_vec(alloc)?;
        let name = name.to_vec(alloc)?;
        self.declared.push(Declaration { name, id, hides })?;
        if self.index.insert(key, Some(innermost)).is_err() {
            self.declared.pop();
            return Err(AllocError);
        }
        Ok(())
    }

    /// Without the innermost declaration, if there is one.
    pub(crate) fn pop(&mut self)
        ensures { self.new ≡ drop 1 self.old }
    {
        if let Some(last) = self.declared.pop() {
            let _ = self.index.insert(last.name, last.hides);
        }
    }
}
