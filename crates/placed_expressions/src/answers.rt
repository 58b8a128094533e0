//! What a text comes to where it is placed.
ghost use Rattle.std.specs.Prelude.{◌≡◌};
ghost use Rattle.placed_expressions.specs.declared.answers.ExpressionRefusal.TheVariants.{Memory};

use expression_instructions::Instruction;
use gang_model::SourceRefusal;
use gang_types::{IntType, Place, Rate};
use std::alloc::AllocError;
use thiserror::Error;

/// An expression where a frame stands: the type and the rate of its value, and the code that computes it.
#[derive(Drop)]
pub struct PlacedExpression {
    pub value_type: IntType,
    pub rate: Rate,
    pub code: Vec<Instruction>,
}

/// Why a text has no value where it is placed. Places are those of the text.
#[derive(Clone, Copy, Debug, PartialEq, Eq, Drop, Error)]
pub enum ExpressionRefusal {
    #[error("out of memory")]
    Memory,
    /// It has no tokens: S1 or S2, or S13 where it is too long.
    #[error("{line}:{col}: {number:?}", line = .0.place.line, col = .0.place.col, number = .0.number)]
    NoTokens(SourceRefusal),
    /// Its tokens are no expression: S3, or S4 or S13 at what is past a limit.
    #[error("{line}:{col}: {number:?}", line = .0.place.line, col = .0.place.col, number = .0.number)]
    NoExpression(SourceRefusal),
    /// A name in it stands for nothing there, S5; or its types do not fit, S7 to S9.
    #[error("{line}:{col}: {number:?}", line = .0.place.line, col = .0.place.col, number = .0.number)]
    NoValue(SourceRefusal),
    /// It calls a function of the program.
    #[error("{line}:{col}: calls a function", line = .0.line, col = .0.col)]
    CallsFunction(Place),
}

impl From<AllocError> for ExpressionRefusal {
    ghost from_gives = { λ _ refusal. refusal ≡ Memory };

    fn from(_error: AllocError) -> ExpressionRefusal {
        ExpressionRefusal::Memory
    }
}
