//! The declarations in scope, scope by scope.
ghost use Rattle.std.specs.Prelude.{◌≡◌, [], ◌∷◌, ◌-◌, ◌≤◌, IfOk, OnErr, OnOk, drop, length};
ghost use Rattle.gang_types.specs.declared.places.VarId.TheVariants.{Local};
ghost use Rattle.gang_model.specs.Types.LibraryTable.{is_among};
ghost use Rattle.gang_model.specs.Names.Scope as scope;
ghost use Rattle.ispc_names_scopes.specs.Scopes.{bound_in_file, here, position_of, site};

use crate::bindings::Bindings;
use gang_types::VarId;
use std::alloc::{AllocError, Global};
use std::marker::Model;

/// A scope that was left for one inside it: how many declarations were in scope, and how many of them stood outside it.
#[derive(Clone, Copy, Debug, PartialEq, Eq, Drop)]
pub struct ScopeMark {
    pub declared: usize,
    pub outside: usize,
}

/// The declarations in scope, how many of them stand outside the present scope, and the number of the function's next
/// variable. A name is looked up in an index by name, so that a look-up does not walk the declarations.
#[derive(Drop)]
pub struct Scopes {
    bindings: Bindings,
    outside: usize,
    next: usize,
}

impl Model for Scopes {
    ghost use Rattle.std.specs.Prelude.{◌≤◌, length};
    ghost use Rattle.ispc_names_scopes.specs.Scopes.{Scoped};

    ghost Value = { Scoped };

    ghost view = { λ s. record { environment = s.bindings; outside = s.outside; next = s.next } };

    ghost invariant = { λ s. s.outside ≤ length s.bindings };
}

impl Scopes {
    /// No declarations.
    pub fn new(alloc: Global) -> Scopes
        ensures { result ≡ record { environment = []; outside = 0; next = 0 } }
    {
        Scopes {
            bindings: Bindings::new(alloc),
            outside: 0,
            next: 0,
        }
    }

    /// Declares the file-scope variable of this number, before those that stand already. So the variables of a file are
    /// declared from the last to the first.
    ///
    /// # Errors
    ///
    /// Out of memory; the declarations are then as before.
    pub fn declare_in_file(
        &mut self,
        alloc: Global,
        name: &[u8],
        number: usize,
    ) -> Result<(), AllocError>
        ensures environment { OnOk result (self.new.environment ≡ bound_in_file name.now number ∷ self.old.environment) }
        ensures outside { OnOk result (self.new.outside ≡ self.old.outside) }
        ensures next { OnOk result (self.new.next ≡ self.old.next) }
        ensures unchanged { OnErr result (self.new ≡ self.old) }
    {
        self.bind(alloc, name, VarId::File(number))
    }

    /// Declares a variable that has its number already.
    ///
    /// # Errors
    ///
    /// Out of memory; the declarations are then as before.
    pub fn bind(&mut self, alloc: Global, name: &[u8], id: VarId) -> Result<(), AllocError>
        ensures environment { OnOk result (self.new.environment ≡ scope.bound name.now id ∷ self.old.environment) }
        ensures outside { OnOk result (self.new.outside ≡ self.old.outside) }
        ensures next { OnOk result (self.new.next ≡ self.old.next) }
        ensures unchanged { OnErr result (self.new ≡ self.old) }
    {
        self.bindings.push(alloc, name, id)
    }

    /// Declares a variable of the function in the present scope.
    ///
    /// # Errors
    ///
    /// Out of memory, also where no number is left; the declarations are then as before.
    pub fn declare(&mut self, alloc: Global, name: &[u8]) -> Result<VarId, AllocError>
        ensures id { IfOk result (λ id. id ≡ Local self.old.next) }
        ensures declared { OnOk result (site self.new ≡ scope.with_name name.now (site self.old)) }
        ensures outside { OnOk result (self.new.outside ≡ self.old.outside) }
        ensures unchanged { OnErr result (self.new ≡ self.old) }
    {
        let Some(next) = self.next.checked_add(1) else {
            return Err(AllocError);
        };
        let id = VarId::Local(self.next);
        self.bind(alloc, name, id)?;
        self.next = next;
        Ok(id)
    }

    /// Begins a function, whose variables are numbered from 0. The mark is that of the scope around it.
    pub fn begin_function(&mut self) -> ScopeMark
        ensures inside { site self.new ≡ record { environment = self.old.environment; here = []; next = 0 } }
        ensures outside { self.new.outside ≡ length self.old.environment }
        ensures declared { result.declared ≡ length self.old.environment }
        ensures before { result.outside ≡ self.old.outside }
        ensures within { result.outside ≤ result.declared }
    {
        self.next = 0;
        self.enter()
    }

    /// The mark of the present scope as it is: `leave` with it ends what the scope declares later.
    pub fn mark(&self) -> ScopeMark
        ensures declared { result.declared ≡ length self.now.environment }
        ensures outside { result.outside ≡ self.now.outside }
        ensures within { result.outside ≤ result.declared }
    {
        ScopeMark {
            declared: self.bindings.len(),
            outside: self.outside,
        }
    }

    /// Begins a scope inside the present one, whose mark is the answer.
    pub fn enter(&mut self) -> ScopeMark
        ensures inside { site self.new ≡ scope.enclosed (site self.old) }
        ensures outside { self.new.outside ≡ length self.old.environment }
        ensures declared { result.declared ≡ length self.old.environment }
        ensures before { result.outside ≡ self.old.outside }
        ensures within { result.outside ≤ result.declared }
    {
        let mark = ScopeMark {
            declared: self.bindings.len(),
            outside: self.outside,
        };
        self.outside = mark.declared;
        mark
    }

    /// Ends the present scope, and those around it up to the scope of the mark. The numbers of variables go on.
    pub fn leave(&mut self, mark: ScopeMark)
        requires within { mark.outside ≤ mark.declared }
        requires declared { mark.declared ≤ length self.old.environment }
        ensures environment { self.new.environment ≡ drop (length self.old.environment - mark.declared) self.old.environment }
        ensures outside { self.new.outside ≡ mark.outside }
        ensures next { self.new.next ≡ self.old.next }
    {
        take_back(&mut self.bindings, mark.declared);
        self.outside = mark.outside;
    }

    /// The variable of the innermost declaration of a name.
    pub fn find(&self, name: &[u8]) -> Option<VarId>
        ensures { result ≡ scope.declaration self.now.environment name.now }
    {
        let innermost = self.bindings.innermost(name)?;
        Some(innermost.id)
    }

    /// How many declarations stand outside the innermost one of a name.
    pub fn position(&self, name: &[u8]) -> Option<usize>
        ensures { result ≡ position_of self.now.environment name.now }
    {
        let innermost = self.bindings.innermost(name)?;
        Some(innermost.outside)
    }

    /// Whether the present scope declares a name.
    pub fn is_here(&self, name: &[u8]) -> bool
        ensures { result ≡ is_among name.now (here self.now) }
    {
        match self.bindings.innermost(name) {
            Some(innermost) => self.outside <= innermost.outside,
            None => false,
        }
    }
}

/// Takes back the innermost declarations, until so many are left.
fn take_back(bindings: &mut Bindings, left: usize)
    ensures { bindings.new ≡ drop (length bindings.old - left) bindings.old }
{
    for _ in 0..bindings.len().saturating_sub(left) {
        bindings.pop();
    }
}
