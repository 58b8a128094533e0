//! The labels of a switch.
ghost use Rattle.std.specs.Prelude.{◌≡◌, Some};
ghost use Rattle.std.specs.List.{list_any};
ghost use Rattle.gang_model.specs.Source.Judged as judged;
ghost use Rattle.gang_model.specs.Source.Judged.{least_fault};
ghost use Rattle.gang_model.specs.declared.refusals.RefusalNumber.TheVariants as number;
ghost use Rattle.gang_model.specs.Names.NameFaults as names;

use gang_model::{Label, RefusalNumber, SourceRefusal};
use gang_types::Place;
use source_answers::fault_if;
use source_tree::Segment;

/// Whether two labels have the same number: 0 has no sign.
fn is_same_number(left: Label, right: Label) -> bool
    ensures { result ≡ names.same_label (Some left) (Some right) }
{
    left.value == right.value && (left.value == 0 || left.is_negative == right.is_negative)
}

/// Whether two labels have the same number, or both are `default`.
fn is_same_label(left: Option<Label>, right: Option<Label>) -> bool
    ensures { result ≡ names.same_label left right }
{
    match (left, right) {
        (None, None) => true,
        (Some(left), Some(right)) => is_same_number(left, right),
        (None, Some(_)) | (Some(_), None) => false,
    }
}

/// Whether one of these segments has a label. A switch has at most 256, so they are gone through.
fn is_label_of(label: Option<Label>, segments: &[Segment]) -> bool
    ensures { result ≡ list_any (λ s. names.same_label label s.label) segments.now }
{
    segments
        .iter()
        .any(|segment| is_same_label(label, segment.label))
}

/// The fault of a label of a switch that a segment before has too.
pub fn label_fault(place: Place, label: Option<Label>, before: &[Segment]) -> Option<SourceRefusal>
    ensures { result ≡ least_fault (judged.fault_if (list_any (λ s. names.same_label label s.label) before.now) number.S6 place) }
{
    fault_if(is_label_of(label, before), RefusalNumber::S6, place)
}
