//! Values of expressions that have a word for each lane of a gang.
ghost use Rattle.std.specs.Prelude.{◌≡◌, false, is_none, true, IfSome};
ghost use Rattle.prompt_values.specs.Widths as spec;

use frame_expressions::LaneWords;
use frame_values::ExpressionValue;
use gang_types::{IntType, Mask, Rate};

/// The value of an expression: it has a word for each lane of a gang of 4, 8 or 16.
#[derive(Drop)]
pub struct GangValue {
    pub(crate) value: ExpressionValue,
    pub ghost gang: { spec.is_gang_width value.lanes.width ≡ true },
}

impl GangValue {
    /// The value of an expression, where it has a word for each lane of a gang.
    pub fn of(value: ExpressionValue) -> Option<GangValue>
        ensures same { IfSome result (λ gang. gang.value ≡ value) }
        ensures none { is_none result ≡ true → spec.is_gang_width value.lanes.width ≡ false }
    {
        if is_gang_width(value.lanes.width) {
            Some(GangValue { value })
        } else {
            None
        }
    }

    /// The value 0 of a gang of four lanes that all wait.
    pub(crate) fn blank() -> GangValue {
        GangValue {
            value: ExpressionValue {
                value_type: IntType::Bool,
                rate: Rate::Uniform,
                lanes: LaneWords {
                    words: [0; 16],
                    width: 4,
                    lanes: Mask::none(),
                },
            },
        }
    }
}

/// Whether a gang has so many lanes.
fn is_gang_width(width: usize) -> bool
    ensures { result ≡ spec.is_gang_width width }
{
    matches!(width, 4 | 8 | 16)
}
