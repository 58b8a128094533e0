//! Typed functions, collected one after another.
ghost use Rattle.std.specs.Prelude.{◌≡◌, [], None, OnOk};
ghost use Rattle.type_check_functions.specs.Collected.{Adds, unless_fault};

use gang_model::SourceRefusal;
use source_answers::{SourceFault, least};
use std::alloc::{AllocError, Global};
use typed_tree::Function;

/// The functions without faults, and the least fault of the others.
pub(crate) struct Collected {
    functions: Vec<Function>,
    fault: Option<SourceRefusal>,
}

impl Drop for Collected {
    fn drop(self) {
        let Self {
            functions: _,
            fault: _,
        } = self;
    }
}

impl Collected {
    pub(crate) fn new(alloc: Global) -> Collected
        ensures functions { result.functions.items ≡ [] }
        ensures fault { result.fault ≡ None }
    {
        Collected {
            functions: Vec::new(alloc),
            fault: None,
        }
    }

    /// One more function, or its fault.
    pub(crate) fn add(&mut self, function: Result<Function, SourceFault>) -> Result<(), AllocError>
        ensures added { OnOk result (Adds function self.old.functions.items self.new.functions.items self.old.fault self.new.fault) }
    {
        match function {
            Ok(function) => self.functions.push(function)?,
            Err(SourceFault::Refused(fault)) => self.fault = least(self.fault, Some(fault)),
            Err(SourceFault::Memory) => return Err(AllocError),
        }
        Ok(())
    }

    /// The functions, where none has a fault.
    pub(crate) fn into_functions(self) -> Result<Vec<Function>, SourceFault>
        ensures { result ≡ unless_fault self.fault self.functions }
    {
        let Self { functions, fault } = self;
        match fault {
            None => Ok(functions),
            Some(fault) => Err(SourceFault::Refused(fault)),
        }
    }
}
