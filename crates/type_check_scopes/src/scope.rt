//! What is in scope where a statement is typed.
ghost use Rattle.std.specs.Prelude.{◌≡◌, [], ◌∷◌, ◌++◌, ◌-◌, ◌≤◌, ◌+◌, OnOk, OnErr, IfOk, drop, length, map, option_map};
ghost use Rattle.gang_types.specs.declared.places.VarId.TheVariants.{Local};
ghost use Rattle.gang_model.specs.Types.Typing as typing;
ghost use Rattle.typed_tree.specs.Views.{variable_view};
ghost use Rattle.type_check_scopes.specs.Entries.{declared_view};

use crate::entries::Declared;
use ispc_names_scopes::{ScopeMark, Scopes};
use std::alloc::{AllocError, Global};
use std::marker::Model;
use std::mem::replace;
use typed_tree::Variable;

/// How many declarations were in scope.
#[derive(Clone, Copy, Debug, PartialEq, Eq, Drop)]
pub struct TypeMark {
    pub declared: usize,
}

/// What is in scope, and the variables of the function. A name is looked up in an index; its position there is that of its
/// declaration in `declared`.
#[derive(Drop)]
pub struct TypeScope {
    scopes: Scopes,
    declared: Vec<Declared>,
    locals: Vec<Variable>,
}

impl Model for TypeScope {
    ghost use Rattle.std.specs.Prelude.{◌≡◌, length, map, reverse};
    ghost use Rattle.typed_tree.specs.Views.{variable_view};
    ghost use Rattle.type_check_scopes.specs.Entries.{Typing};
    ghost use Rattle.type_check_scopes.specs.Tables.{entries_of};

    ghost Value = { Typing };

    ghost view = { λ s. record { entries = entries_of s.scopes.environment (reverse s.declared.items); locals = map variable_view s.locals.items } };

    ghost invariant = { λ s. length s.scopes.environment ≡ length s.declared.items };
}

/// The variable of a declaration, with its own copy of the name.
fn variable_of(alloc: Global, name: &[u8], declared: Declared) -> Result<Variable, AllocError>
    ensures variable { IfOk result (λ variable. variable_view variable ≡ (declared_view name.now declared).variable) }
{
    Ok(Variable {
        name: name.to_vec(alloc)?,
        id: declared.id,
        value_type: declared.value_type,
        rate: declared.rate,
        is_array: declared.is_array,
        is_parameter: declared.is_parameter,
        is_constant: declared.is_constant,
    })
}

impl TypeScope {
    /// No declarations.
    pub fn new(alloc: Global) -> TypeScope
        ensures { result ≡ record { entries = []; locals = [] } }
    {
        TypeScope {
            scopes: Scopes::new(alloc),
            declared: Vec::new(alloc),
            locals: Vec::new(alloc),
        }
    }

    fn bind(&mut self, alloc: Global, name: &[u8], declared: Declared) -> Result<(), AllocError>
        ensures entries { OnOk result (self.new.entries ≡ declared_view name.now declared ∷ self.old.entries) }
        ensures locals { OnOk result (self.new.locals ≡ self.old.locals) }
        ensures unchanged { OnErr result (self.new ≡ self.old) }
    {
        self.declared.push(declared)?;
        let bound = self.scopes.bind(alloc, name, declared.id);
        if bound.is_err() {
            self.declared.pop();
        }
        bound
    }

    /// Declares a file-scope variable, before those that stand already. So the variables of a file are declared from the last to
    /// the first.
    ///
    /// # Errors
    ///
    /// Out of memory; the declarations are then as before.
    pub fn declare_in_file(
        &mut self,
        alloc: Global,
        name: &[u8],
        declared: Declared,
    ) -> Result<(), AllocError>
        ensures entries { OnOk result (self.new.entries ≡ declared_view name.now declared ∷ self.old.entries) }
        ensures locals { OnOk result (self.new.locals ≡ self.old.locals) }
        ensures unchanged { OnErr result (self.new ≡ self.old) }
    {
        self.bind(alloc, name, declared)
    }

    /// Begins a function, whose variables are numbered from 0.
    pub fn begin_function(&mut self)
        ensures entries { self.new.entries ≡ self.old.entries }
        ensures locals { self.new.locals ≡ [] }
    {
        self.locals.clear();
    }

    /// The number of the function's next variable.
    pub fn next(&self) -> usize
        ensures { result ≡ length self.now.locals }
    {
        self.locals.len()
    }

    /// Declares the function's next variable.
    ///
    /// # Errors
    ///
    /// Out of memory; the declarations are then as before.
    pub fn declare(
        &mut self,
        alloc: Global,
        name: &[u8],
        declared: Declared,
    ) -> Result<(), AllocError>
        requires next { declared.id ≡ Local (length self.old.locals) }
        ensures entries { OnOk result (self.new.entries ≡ declared_view name.now declared ∷ self.old.entries) }
        ensures locals { OnOk result (self.new.locals ≡ self.old.locals ++ (declared_view name.now declared).variable ∷ []) }
        ensures unchanged { OnErr result (self.new ≡ self.old) }
    {
        let variable = variable_of(alloc, name, declared)?;
        self.locals.push(variable)?;
        let bound = self.bind(alloc, name, declared);
        if bound.is_err() {
            self.locals.pop();
        }
        bound
    }

    /// The mark of what is in scope: `leave` with it ends what is declared later.
    pub fn mark(&self) -> TypeMark
        ensures { result.declared ≡ length self.now.entries }
    {
        TypeMark {
            declared: self.declared.len(),
        }
    }

    /// Ends what was declared after the mark. The function's variables keep their numbers.
    pub fn leave(&mut self, mark: TypeMark)
        requires { mark.declared ≤ length self.old.entries }
        ensures entries { self.new.entries ≡ drop (length self.old.entries - mark.declared) self.old.entries }
        ensures locals { self.new.locals ≡ self.old.locals }
    {
        self.scopes.leave(ScopeMark {
            declared: mark.declared,
            outside: 0,
        });
        self.declared.truncate(mark.declared);
    }

    /// The innermost declaration of a name.
    pub fn find(&self, name: &[u8]) -> Option<Declared>
        ensures { option_map (declared_view name.now) result ≡ typing.entry_of self.now.entries name.now }
    {
        let position = self.scopes.position(name)?;
        self.declared.get(position).copied()
    }

    /// The variables of the function, by their numbers, which end then.
    pub fn take_locals(&mut self, alloc: Global) -> Vec<Variable>
        ensures taken { map variable_view result.items ≡ self.old.locals }
        ensures entries { self.new.entries ≡ self.old.entries }
        ensures locals { self.new.locals ≡ [] }
    {
        replace(&mut self.locals, Vec::new(alloc))
    }
}
