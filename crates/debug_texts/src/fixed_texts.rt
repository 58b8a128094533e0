//! Names and numbers of faults and refusals.
ghost use Rattle.std.specs.Prelude.{◌≡◌};
ghost use Rattle.gang_model.specs.Texts.Text.{fault_text, line, refusal_text};
ghost use Rattle.debug_answers.specs.Meanings.{refusal_view};

use debug_answers::Refusal;
use gang_types::FaultName;

/// A fault's number and name.
pub(crate) fn fault_words(name: FaultName) -> &'static [u8]
    ensures { result.now ≡ fault_text name }
{
    match name {
        FaultName::DivideByZero => b"F1 DivideByZero",
        FaultName::Index => b"F2 Index",
        FaultName::LaneIndex => b"F3 LaneIndex",
        FaultName::Assert => b"F4 Assert",
        FaultName::CallDepth => b"F5 CallDepth",
    }
}

/// The line that tells a refusal.
pub(crate) fn refusal_line(refusal: Refusal) -> &'static [u8]
    ensures { result.now ≡ line (refusal_text (refusal_view refusal)) }
{
    match refusal {
        Refusal::BadCommand => b"C1 BadCommand\n",
        Refusal::NoSuchName => b"C2 NoSuchName\n",
        Refusal::NoHistory => b"C3 NoHistory\n",
        Refusal::Ended => b"C4 Ended\n",
        Refusal::Outermost => b"C6 Outermost\n",
        Refusal::NoLine => b"C7 NoLine\n",
        Refusal::OutOfRange => b"C8 OutOfRange\n",
        Refusal::Constant => b"C9 Constant\n",
        Refusal::NoSuchNumber => b"C10 NoSuchNumber\n",
        Refusal::TableFull => b"C11 TableFull\n",
        Refusal::Memory => b"C12 Memory\n",
    }
}
