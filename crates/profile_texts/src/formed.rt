//! A table of foreach forms.
ghost use Rattle.std.specs.Prelude.{◌≡◌, false, is_err};

use crate::colours::{ink, plain};
use crate::parts::Part::{Left, Right, Share, Text};
use crate::parts::write_parts;
use crate::profile::Subject;
use crate::rows::{Row, counts_at};
use crate::tables::write_end;
use debug_traits::{AnswerWriter, WriteFault};
use foreach_forms::Word;
use lane_counts::{Counts, Tally, lost, share, share_of};
use lane_picture::StepsEnd;

const HEAD: &[u8] =
    b" line form              rounds       full   full     steps lane-steps  share      short       lost\n";

/// The room of the word of a form.
const WORD_ROOM: usize = 14;

/// Writes a table of foreach forms: the rounds of each, how many of them all lanes begin, and the steps inside it.
pub(crate) fn write_forms<O: AnswerWriter>(
    rows: &[Row],
    tally: &Tally,
    end: StepsEnd,
    subject: &Subject<'_>,
    writer: &mut O,
) -> Result<(), WriteFault>
    requires works { O.has_failed writer.old ≡ false }
    ensures failed { O.has_failed writer.new ≡ is_err result }
{
    writer.write_all(HEAD)?;
    for (index, row) in rows.iter().enumerate() {
        if index < subject.most_rows {
            write_form(*row, tally, subject, writer)?;
        }
    }
    write_end(tally, end, subject.first_number, writer)
}

/// Writes the row of a form.
fn write_form<O: AnswerWriter>(
    row: Row,
    tally: &Tally,
    subject: &Subject<'_>,
    writer: &mut O,
) -> Result<(), WriteFault>
    requires works { O.has_failed writer.old ≡ false }
    ensures failed { O.has_failed writer.new ≡ is_err result }
{
    let (line, word) = match tally.forms().forms().get(row.number) {
        Some(form) => (form.line, text_of(form.word)),
        None => (0, text_of(Word::ForEach)),
    };
    let rounds = counts_at(tally.forms().rounds(), row.number);
    write_parts(
        writer,
        &[Right(u64::from(line), 5), Text(b" "), Left(word, WORD_ROOM)],
    )?;
    write_rounds(rounds, subject.has_colours, writer)?;
    write_inside(row.counts, subject, writer)
}

/// The word that a form begins with.
pub(crate) fn text_of(word: Word) -> &'static [u8] {
    match word {
        Word::ForEach => b"foreach",
        Word::Tiled => b"foreach_tiled",
        Word::Active => b"foreach_active",
        Word::Unique => b"foreach_unique",
    }
}

/// Writes how many rounds there are, how many of them are full, and the share of these.
fn write_rounds<O: AnswerWriter>(
    rounds: Counts,
    has_colours: bool,
    writer: &mut O,
) -> Result<(), WriteFault>
    requires works { O.has_failed writer.old ≡ false }
    ensures failed { O.has_failed writer.new ≡ is_err result }
{
    let full = rounds.full_steps();
    let share = share_of(full, rounds.steps);
    let parts = [
        Right(rounds.steps, 10),
        Right(full, 11),
        Text(ink(share, has_colours)),
        Share(share),
        Text(plain(has_colours)),
    ];
    write_parts(writer, &parts)
}

/// Writes the columns of the steps inside a form.
fn write_inside<O: AnswerWriter>(
    counts: Counts,
    subject: &Subject<'_>,
    writer: &mut O,
) -> Result<(), WriteFault>
    requires works { O.has_failed writer.old ≡ false }
    ensures failed { O.has_failed writer.new ≡ is_err result }
{
    let share = share(counts, subject.width);
    let parts = [
        Right(counts.steps, 10),
        Right(counts.lane_steps, 11),
        Text(ink(share, subject.has_colours)),
        Share(share),
        Text(plain(subject.has_colours)),
        Right(counts.short_steps, 11),
        Right(lost(counts, subject.width), 11),
        Text(b"\n"),
    ];
    write_parts(writer, &parts)
}
