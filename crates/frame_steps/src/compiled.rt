//! Programs with their code.
ghost use Rattle.std.specs.Prelude.{◌≡◌, Some};
ghost use Rattle.gang_model.specs.Types.Tree.{Function as ModelFunction, RoundsOf};
ghost use Rattle.codegen.specs.Codes.{DoAll, Fit, IndexesOf, IsRoundOf};
ghost use Rattle.foreach_lowering.specs.Forms.{round_forms};
ghost use Rattle.mask_states.specs.Points.{closing_number, entry_of, points_in};
ghost use Rattle.frame_steps.specs.Compiled.{IsCompiled, IsRounds, function_of};

use codegen::{Code, IndexCode, StepCode};
use typed_tree::Program;

/// A program that a machine runs, with its code.
#[derive(Drop)]
pub struct CompiledProgram {
    pub program: Program,
    pub code: Code,
}

impl CompiledProgram {
    /// The steps of a function, but for its closing brace.
    pub fn steps(&self, function: usize) -> &[StepCode]
        requires compiled { IsCompiled self.now }
        requires there { (f : ModelFunction) × (function_of self.now function ≡ Some f) }
        ensures does { (f : ModelFunction) → function_of self.now function ≡ Some f → DoAll result.now (points_in f) }
        ensures rounds { (f : ModelFunction) → function_of self.now function ≡ Some f → Fit IsRoundOf result.now (round_forms f) }
    {
        &self.code.functions[function]
    }

    /// The index variables of the form whose rounds a step of a function is.
    pub fn round_form(&self, function: usize, step: usize) -> &IndexCode
        requires compiled { IsCompiled self.now }
        requires round { (f : ModelFunction) × (form : RoundsOf) × IsRounds self.now function step f form }
        ensures { (f : ModelFunction) (form : RoundsOf) → IsRounds self.now function step f form → IndexesOf result.now form }
    {
        match &self.steps(function)[step] {
            StepCode::Round { form, .. } => form,
            _ => unreachable!(),
        }
    }

    /// The step that the lanes of a call of a function wait for first.
    pub fn entry(&self, function: usize) -> usize
        requires compiled { IsCompiled self.now }
        requires there { (f : ModelFunction) × (function_of self.now function ≡ Some f) }
        ensures { (f : ModelFunction) → function_of self.now function ≡ Some f → result ≡ entry_of f.body (closing_number f) }
    {
        self.code.entries[function]
    }

    /// The closing brace of a function, which comes after its last step.
    pub fn closing(&self, function: usize) -> usize
        requires compiled { IsCompiled self.now }
        requires there { (f : ModelFunction) × (function_of self.now function ≡ Some f) }
        ensures { (f : ModelFunction) → function_of self.now function ≡ Some f → result ≡ closing_number f }
    {
        self.steps(function).len()
    }
}
