//! What can be seen at a moment, and what changes from one moment to the next.
ghost use Rattle.std.specs.Prelude.{◌≡◌};
ghost use Rattle.run_page.specs.Rows.{FindsWords};

/// The first words of a variable, by its number.
#[derive(Drop)]
pub(crate) struct Row {
    pub(crate) variable: usize,
    pub(crate) words: Vec<u64>,
}

/// What has changed of a variable since the moment before.
#[derive(Clone, Copy, Debug, PartialEq, Eq)]
pub(crate) enum Change {
    /// A lane or an element has another word; or the variable was not there, and has this one.
    Word {
        variable: usize,
        part: usize,
        word: u64,
    },
    /// It is no longer there.
    Gone {
        variable: usize,
    },
}

/// The words of a variable, which is looked for at one row first; none where it has no row.
pub(crate) fn words_of(rows: &[Row], variable: usize, guess: usize) -> Option<&[u64]>
    ensures { FindsWords rows.now variable result }
{
    if let Some(row) = rows.get(guess)
        && row.variable == variable
    {
        return Some(row.words.as_slice());
    }
    for row in rows {
        if row.variable == variable {
            return Some(row.words.as_slice());
        }
    }
    None
}
