//! What is not ported, and where.
ghost use Rattle.std.specs.Prelude.{◌≡◌};
ghost use Rattle.port_tokens.specs.declared.refusals.PortRefusal.TheVariants.{Memory};

use std::alloc::{AllocError, AllocFailed};
use std::fmt;

/// Why a text is not ported.
#[derive(Clone, Copy, Debug, PartialEq, Eq)]
pub enum Reason {
    TooLong,
    TooDeep,
    TooMany,
    OpenComment,
    Text,
    Floating,
    Member,
    Character,
    Byte,
    Bracket,
    Directive,
    MacroArguments,
    MacroBody,
    MacroTwice,
    Constant,
    Size,
    Type,
    Pointer,
    Vector,
    Word,
    Call,
    Statement,
    Declaration,
    Parameter,
    Comma,
    Arms,
    StepAndContinue,
    TestAndContinue,
    ReadBesides,
    UnknownType,
    ManyResults,
    WholeArray,
    Recursion,
    Initialiser,
    TableAndCall,
}

impl Reason {
    /// The sentence that says so.
    pub fn words(self) -> &'static str {
        match self {
            Reason::TooLong => "the source has more than 65536 bytes",
            Reason::TooDeep => "more than 64 brackets or statements lie in each other here",
            Reason::TooMany => "what the macros of this source stand for is too long",
            Reason::OpenComment => "this comment does not end where it has to",
            Reason::Text => "there are no texts in the language",
            Reason::Floating => "there are no floating-point numbers in the language",
            Reason::Member => "there are no members in the language",
            Reason::Character => "this is no character of one byte",
            Reason::Byte => "no word, number or mark begins here",
            Reason::Bracket => "this bracket has no partner",
            Reason::Directive => "of the preprocessor only #define NAME and #pragma are read",
            Reason::MacroArguments => "macros with arguments are not read",
            Reason::MacroBody => {
                "a macro is read only if it stands for a type or an expression, in brackets where this has an operator"
            }
            Reason::MacroTwice => "this macro is defined or used before",
            Reason::Constant => "a constant with at most 31 bits and a sign is wanted here",
            Reason::Size => "an array has from 1 to 1048576 elements",
            Reason::Type => "this type is not read",
            Reason::Pointer => "pointers and references are not read",
            Reason::Vector => "short vectors are not read",
            Reason::Word => "this form is not read",
            Reason::Call => "no function of the source or of the library has this name",
            Reason::Statement => "no statement that is read begins here",
            Reason::Declaration => "no declaration that is read goes on here",
            Reason::Parameter => "no parameter that is read goes on here",
            Reason::Comma => "a comma between expressions is read only between statements",
            Reason::Arms => {
                "an arm of ?: that calls or changes something is read only whole behind =, or return"
            }
            Reason::StepAndContinue => {
                "the step of this loop does not fit into its head, and continue would miss it elsewhere"
            }
            Reason::TestAndContinue => {
                "the test of this loop calls or changes something, and continue would miss it elsewhere"
            }
            Reason::ReadBesides => {
                "this is changed here and named elsewhere in the same expression, whose order is open"
            }
            Reason::UnknownType => "the type of this value is not known here",
            Reason::ManyResults => "functions of this name give different types",
            Reason::WholeArray => "an array of which each lane has its own is not passed on",
            Reason::Recursion => "an array of a function that may call itself is not read",
            Reason::Initialiser => "these values are more than the array has, or not a plain list",
            Reason::TableAndCall => {
                "an array that is not constant has values here, and an exported function is called"
            }
        }
    }
}

impl fmt::Display for Reason {
    fn fmt<W: fmt::Write>(&self, f: &mut fmt::Formatter<W>) -> fmt::Result {
        f.write_str(self.words())
    }
}

/// Where and why a text is not ported: the number of bytes before the place, and the reason.
#[derive(Clone, Copy, Debug, PartialEq, Eq)]
pub struct Refused {
    pub at: usize,
    pub reason: Reason,
}

/// Why there is no ported text.
#[derive(Clone, Copy, Debug, PartialEq, Eq)]
pub enum PortRefusal {
    Memory,
    Source(Refused),
}

impl From<AllocError> for PortRefusal {
    ghost from_gives = { λ _ r. r ≡ Memory };

    fn from(_e: AllocError) -> PortRefusal {
        PortRefusal::Memory
    }
}

impl<T: Drop> From<AllocFailed<T>> for PortRefusal {
    ghost from_gives = { λ _ r. r ≡ Memory };

    fn from(_e: AllocFailed<T>) -> PortRefusal {
        PortRefusal::Memory
    }
}

/// A refusal at a place.
pub fn refusal_at(at: usize, reason: Reason) -> PortRefusal {
    PortRefusal::Source(Refused { at, reason })
}
