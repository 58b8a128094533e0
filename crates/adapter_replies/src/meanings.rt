//! What refusals of commands mean, in an editor's words.
ghost use Rattle.std.specs.Prelude.{◌≡◌};
ghost use Rattle.adapter_replies.specs.Meanings.{meaning_of};

use debug_answers::Refusal;

/// What a refusal means.
pub(crate) fn meaning_of(refusal: Refusal) -> &'static str
    ensures { result.now ≡ meaning_of refusal }
{
    match refusal {
        Refusal::BadCommand => "this is no command",
        Refusal::NoSuchName => {
            "there is no such variable, lane or element here, or it cannot be set or watched"
        }
        Refusal::NoHistory => "nothing is kept that could be taken back",
        Refusal::Ended => {
            "the program has ended; a step back goes back into it, and a restart begins it anew"
        }
        Refusal::Outermost => "this is the outermost frame, which no other called",
        Refusal::NoLine => "no line from there on has a step",
        Refusal::OutOfRange => "an index is past the end, or a value outside its range",
        Refusal::Constant => "constants and the indices of foreach are not set",
        Refusal::NoSuchNumber => "no breakpoint or watch has this number",
        Refusal::TableFull => {
            "64 breakpoints and watches are there; one that is removed makes room"
        }
        Refusal::Memory => "there is no memory for so long a history; the limit is as before",
    }
}
