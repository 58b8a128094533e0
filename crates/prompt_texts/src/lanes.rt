//! The share of the active lanes.
ghost use Rattle.std.specs.Prelude.{◌++◌, ◌-◌, length, replicate, codes, decimal};
ghost use Rattle.prompt_texts.specs.LaneShares as spec;
ghost use Rattle.prompt_texts.specs.Shown.{Puts};

use crate::page::Page;
use debug_traits::AnswerWriter;
use itoa::Buffer;

/// The room of what a row tells of.
const SUBJECT: usize = 22;

/// The room of a line's number behind its word.
const LINE: usize = 17;

/// The room of the number of lanes in the head.
const WIDTH: usize = 7;

/// How many steps there are, how many thousandths active lanes take of the places for lanes, of which each step has one for each lane of
/// the gang, and how many places none takes.
#[derive(Clone, Copy, Debug, PartialEq, Eq)]
pub struct LaneShare {
    pub steps: u64,
    pub share: u64,
    pub lost: u64,
}

/// A line and the name of a function, each with what is told of its steps.
#[derive(Clone, Copy)]
pub struct SharesHere<'a> {
    pub line: usize,
    pub at_line: LaneShare,
    pub function: &'a [u8],
    pub in_function: LaneShare,
}

/// Writes the share of the active lanes of a gang of so many: of a line, of a function and of the run.
pub fn show_lanes<O: AnswerWriter + Drop>(
    width: usize,
    here: Option<SharesHere<'_>>,
    run: LaneShare,
    page: &mut Page<O>,
)
    ensures { Puts (spec.lanes_text width here.entry run) page.old.has_failed page.new.has_failed (O.written page.old.writer) (O.written page.new.writer) }
{
    if run.steps == 0 {
        page.put(b"no step has been made yet\n");
    } else {
        put_head(width, page);
        put_here(here, page);
        put_run(run, page);
    }
}

/// Writes the line above the rows.
fn put_head<O: AnswerWriter + Drop>(width: usize, page: &mut Page<O>)
    ensures { Puts (spec.head_text width) page.old.has_failed page.new.has_failed (O.written page.old.writer) (O.written page.new.writer) }
{
    page.put(b"lanes so far, of ");
    put_left(width as u64, WIDTH, page);
    page.put(b"     steps   share       lost\n");
}

/// Writes the rows of a line and of a function.
fn put_here<O: AnswerWriter + Drop>(here: Option<SharesHere<'_>>, page: &mut Page<O>)
    ensures { Puts (spec.here_text here.entry) page.old.has_failed page.new.has_failed (O.written page.old.writer) (O.written page.new.writer) }
{
    if let Some(here) = here {
        put_line(here.line, here.at_line, page);
        put_function(here.function, here.in_function, page);
    }
}

/// Writes the row of a line.
fn put_line<O: AnswerWriter + Drop>(line: usize, told: LaneShare, page: &mut Page<O>)
    ensures { Puts (spec.line_text line told) page.old.has_failed page.new.has_failed (O.written page.old.writer) (O.written page.new.writer) }
{
    page.put(b"  line ");
    put_left(line as u64, LINE, page);
    put_share(told, page);
}

/// Writes the row of a function.
fn put_function<O: AnswerWriter + Drop>(name: &[u8], told: LaneShare, page: &mut Page<O>)
    ensures { Puts (spec.function_text name.now told) page.old.has_failed page.new.has_failed (O.written page.old.writer) (O.written page.new.writer) }
{
    page.put(b"  ");
    put_name(name, page);
    put_share(told, page);
}

/// Writes a name, with blanks behind it.
fn put_name<O: AnswerWriter + Drop>(name: &[u8], page: &mut Page<O>)
    ensures { Puts (spec.name_text name.now) page.old.has_failed page.new.has_failed (O.written page.old.writer) (O.written page.new.writer) }
{
    page.put_masked(name);
    put_blanks(SUBJECT.saturating_sub(name.len()), page);
}

/// Writes the row of the run.
fn put_run<O: AnswerWriter + Drop>(told: LaneShare, page: &mut Page<O>)
    ensures { Puts (spec.run_text told) page.old.has_failed page.new.has_failed (O.written page.old.writer) (O.written page.new.writer) }
{
    page.put(b"  run                   ");
    put_share(told, page);
}

/// Writes what is told of some steps, and ends the line.
fn put_share<O: AnswerWriter + Drop>(told: LaneShare, page: &mut Page<O>)
    ensures { Puts (spec.share_text told) page.old.has_failed page.new.has_failed (O.written page.old.writer) (O.written page.new.writer) }
{
    if told.steps == 0 {
        page.put(b" no step yet\n");
    } else {
        put_counts(told, page);
    }
}

/// Writes the columns of a row.
fn put_counts<O: AnswerWriter + Drop>(told: LaneShare, page: &mut Page<O>)
    ensures { Puts (spec.counts_text told) page.old.has_failed page.new.has_failed (O.written page.old.writer) (O.written page.new.writer) }
{
    put_right(told.steps, 10, page);
    put_percents(told.share, page);
    put_right(told.lost, 11, page);
    page.put(b"\n");
}

/// Writes a number of thousandths in percents.
fn put_percents<O: AnswerWriter + Drop>(share: u64, page: &mut Page<O>)
    ensures { Puts (spec.percents_text share) page.old.has_failed page.new.has_failed (O.written page.old.writer) (O.written page.new.writer) }
{
    put_right(share / 10, 5, page);
    page.put(b".");
    page.put_number(i128::from(share % 10));
    page.put(b"%");
}

/// Writes a number, with blanks behind it up to a width.
fn put_left<O: AnswerWriter + Drop>(number: u64, room: usize, page: &mut Page<O>)
    ensures { Puts (spec.left room (decimal number)) page.old.has_failed page.new.has_failed (O.written page.old.writer) (O.written page.new.writer) }
{
    let mut digits = Buffer::new();
    let text = digits.format(i128::from(number)).as_bytes();
    page.put(text);
    put_blanks(room.saturating_sub(text.len()), page);
}

/// Writes a number behind blanks up to a width.
pub(crate) fn put_right<O: AnswerWriter + Drop>(number: u64, room: usize, page: &mut Page<O>)
    ensures { Puts (spec.right room (decimal number)) page.old.has_failed page.new.has_failed (O.written page.old.writer) (O.written page.new.writer) }
{
    let mut digits = Buffer::new();
    let text = digits.format(i128::from(number)).as_bytes();
    put_blanks(room.saturating_sub(text.len()), page);
    page.put(text);
}

/// Writes so many blanks.
fn put_blanks<O: AnswerWriter + Drop>(count: usize, page: &mut Page<O>)
    ensures { Puts (replicate count 32) page.old.has_failed page.new.has_failed (O.written page.old.writer) (O.written page.new.writer) }
{
    for _blank in 0..count {
        page.put(b" ");
    }
}
