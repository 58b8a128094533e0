//! What a reader has heard.
ghost use Rattle.std.specs.Prelude.{◌≡◌, List, [], ◌∷◌, ◌++◌};
ghost use Rattle.std.specs.Borrow.{ftrue};
ghost use Rattle.std.specs.Coded.{coded_list};
ghost use Rattle.debug_traits.specs.Devices.{Heard, heard_code};

use crate::devices::AnswerWriter;
use std::marker::Model;

/// What was heard in each read, for clauses alone. It takes no memory, and nothing is done for it when the program runs.
#[derive(Drop)]
pub struct Journal {
    pub ghost heard: { List Heard } by { coded_list heard_code },
}

impl Model for Journal {
    ghost also_owns = { λ _. ftrue };
}

impl Journal {
    /// Of a reader that has read nothing.
    pub fn none() -> Journal
        ensures { result.heard ≡ [] }
    {
        Journal {}
    }

    /// With one read more, which gave these bytes after what the writer was given by now.
    pub fn and<O: AnswerWriter>(_before: &Journal, _writer: &O, _came: &[u8]) -> Journal
        ensures { result.heard ≡ _before.now.heard ++ record { told = O.written _writer.now; came = _came.now } ∷ [] }
    {
        Journal {}
    }
}
