//! What may have a row.
ghost use Rattle.std.specs.Prelude.{◌≡◌, ℕ, List, IfOk, OnOk, None, map, option_map, if◌then◌else◌};
ghost use Rattle.std.specs.Option.{option_or};
ghost use Rattle.gang_model.specs.Source.Names.{same_text};
ghost use Rattle.gang_model.specs.Texts.InputText.{parameter_receiver};
ghost use Rattle.typed_tree.specs.Views.{global_view, variable_view};
ghost use Rattle.debug_inputs.specs.Remaining.{all_receivers, file_receiver, file_receivers, first_named, found_in, if_named, remaining_at, receiver_view};

use gang_types::Rate;
use indexmap::IndexMap;
use std::alloc::{AllocError, Global};
use typed_tree::{Global as FileVariable, Variable};

/// A variable that may have a row; of an array of the file its length.
#[derive(Clone, Copy, Drop)]
pub(crate) struct Receiver<'a> {
    pub(crate) variable: &'a Variable,
    pub(crate) most: Option<u64>,
}

/// What may still have a row, by names. A look-up costs the same for any number of variables.
#[derive(Drop)]
pub(crate) struct Receivers<'a> {
    index: IndexMap<Vec<u8>, Option<Receiver<'a>>>,
}

impl<'a> Receivers<'a> {
    /// The parameters, and the variables of the file that are uniform and not constant; the first of a name.
    pub(crate) fn new(
        alloc: Global,
        parameters: &[&'a Variable],
        globals: &'a [FileVariable],
    ) -> Result<Receivers<'a>, AllocError>
        ensures { IfOk result (λ receivers. (name : List ℕ) → remaining_at receivers name
            ≡ first_named (all_receivers (map (λ v. variable_view v.now) parameters.now) (map global_view globals.now)) name) }
    {
        let mut receivers = Receivers {
            index: IndexMap::new(alloc),
        };
        receivers.add_parameters(alloc, parameters)?;
        receivers.add_globals(alloc, globals)?;
        Ok(receivers)
    }

    fn add_parameters(
        &mut self,
        alloc: Global,
        parameters: &[&'a Variable],
    ) -> Result<(), AllocError>
        ensures { OnOk result ((name : List ℕ) → remaining_at self.new name
            ≡ option_or (remaining_at self.old name) (first_named (map parameter_receiver (map (λ v. variable_view v.now) parameters.now)) name)) }
    {
        for variable in parameters {
            self.add(
                alloc,
                Receiver {
                    variable,
                    most: None,
                },
            )?;
        }
        Ok(())
    }

    fn add_globals(&mut self, alloc: Global, globals: &'a [FileVariable]) -> Result<(), AllocError>
        ensures { OnOk result ((name : List ℕ) → remaining_at self.new name
            ≡ option_or (remaining_at self.old name) (first_named (file_receivers (map global_view globals.now)) name)) }
    {
        for global in globals {
            if let Some(receiver) = file_receiver(global) {
                self.add(alloc, receiver)?;
            }
        }
        Ok(())
    }

    /// One more, unless there is one of the same name.
    fn add(&mut self, alloc: Global, receiver: Receiver<'a>) -> Result<(), AllocError>
        ensures { OnOk result ((name : List ℕ) → remaining_at self.new name ≡ option_or (remaining_at self.old name) (if_named (receiver_view receiver.entry) name)) }
    {
        let name = &receiver.variable.name;
        if self.find(name).is_none() {
            self.index.insert(name.to_vec(alloc)?, Some(receiver))?;
        }
        Ok(())
    }

    /// What a name still stands for.
    pub(crate) fn find(&self, name: &[u8]) -> Option<Receiver<'a>>
        ensures { result ≡ found_in self.now.index.entries name.now }
    {
        self.index.get(name).copied().flatten()
    }

    /// From now on the name stands for nothing.
    pub(crate) fn close(&mut self, alloc: Global, name: &[u8]) -> Result<(), AllocError>
        ensures { OnOk result ((other : List ℕ) → remaining_at self.new other ≡ (if same_text other name.now then None else remaining_at self.old other)) }
    {
        self.index.insert(name.to_vec(alloc)?, None)?;
        Ok(())
    }
}

/// The receiver that a variable of the file is, if it may have a row.
fn file_receiver(global: &FileVariable) -> Option<Receiver<'_>>
    ensures { option_map receiver_view result ≡ file_receiver (global_view global.now) }
{
    let variable = &global.variable;
    if variable.rate != Rate::Uniform || variable.is_constant {
        return None;
    }
    let most = if variable.is_array {
        Some(global.length)
    } else {
        None
    };
    Some(Receiver { variable, most })
}
