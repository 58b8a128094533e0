//! The codes of a watched text, each made once.
ghost use Rattle.std.specs.Prelude.{◌≡◌, ◌<◌, option_map, vec_len, IfOk, IfErr};
ghost use Rattle.gang_model.specs.Types.Tree.{Program as ModelProgram};
ghost use Rattle.expression_watches.specs.declared.sights.ExpressionWatch.{ExpressionWatch};
ghost use Rattle.expression_watches.specs.Codes as spec;
ghost use Rattle.expression_watches.specs.Codes.{AreCodesOf};

use expression_instructions::Instruction;
use std::alloc::{AllocError, Global};

/// What is kept of a text for a step.
#[derive(Drop)]
pub(crate) enum KeptCode {
    /// It has not been read for this step.
    Unread,
    /// Its code there, if it has a value.
    Read(Option<Vec<Instruction>>),
}

/// The codes of the text of one watch, by the numbers of the steps where its frame has stood.
#[derive(Drop)]
pub struct KeptCodes {
    codes: Vec<KeptCode>,
}

impl KeptCodes {
    /// None is kept yet.
    pub fn new(alloc: Global) -> Self
        ensures { (p : ModelProgram) (watch : ExpressionWatch) → AreCodesOf p watch result }
    {
        KeptCodes {
            codes: Vec::new(alloc),
        }
    }

    /// Whether the text has been read for a step.
    pub(crate) fn is_read(&self, number: usize) -> bool
        ensures { result ≡ spec.is_read (spec.kept_at self.now.codes.items number) }
    {
        matches!(self.codes.get(number), Some(KeptCode::Read(_)))
    }

    /// The code that is kept for a step.
    pub(crate) fn code(&self, number: usize) -> Option<&[Instruction]>
        ensures { option_map (λ code. code.now) result ≡ spec.code_of (spec.kept_at self.now.codes.items number) }
    {
        match self.codes.get(number) {
            Some(KeptCode::Read(Some(code))) => Some(code.as_slice()),
            Some(KeptCode::Read(None)) | Some(KeptCode::Unread) | None => None,
        }
    }

    /// Keeps what a text comes to at a step, in place of what was kept for it.
    ///
    /// # Errors
    ///
    /// Out of memory, and then what is kept stays.
    pub(crate) fn keep(
        &mut self,
        number: usize,
        code: Option<Vec<Instruction>>,
    ) -> Result<(), AllocError>
        ensures kept { IfOk result (λ _. spec.IsKeptAt self.old.codes.items number (spec.read code) self.new.codes.items) }
        ensures memory { IfErr result (λ _. spec.IsSame self.old.codes.items self.new.codes.items) }
    {
        self.grow(number)?;
        self.codes[number] = KeptCode::Read(code);
        Ok(())
    }

    /// Makes room for a step.
    ///
    /// # Errors
    ///
    /// Out of memory.
    fn grow(&mut self, number: usize) -> Result<(), AllocError>
        ensures same { spec.IsSame self.old.codes.items self.new.codes.items }
        ensures room { IfOk result (λ _. number < vec_len self.new.codes) }
    {
        while self.codes.len() <= number {
            self.codes.push(KeptCode::Unread)?;
        }
        Ok(())
    }
}
