//! A prompt with lines of breakpoints and watches: they are done when one has stopped a move, before another line is read.
ghost use Rattle.std.specs.Prelude.{◌≡◌, slice_get};
ghost use Rattle.gang_model.specs.Debugger.Debugger.{Debugger, Setting};
ghost use Rattle.debug_session.specs.Sessions.{StandsFor};
ghost use Rattle.prompt_lines.specs.Readings.{spelled};
ghost use Rattle.prompt_scenes.specs.Holding.{held, held_at_start, nothing_kept, sheet};
ghost use Rattle.prompt_stops.specs.Listed.{is_reading, is_waiting, listed, lists_of, no_lists, numbers_for, read};
ghost use Rattle.debug_prompt.specs.Doing.{kept_after, meant, turn_of};
ghost use Rattle.debug_prompt.specs.Taking as spec;

use crate::prompt::{Prompt, Turn, nothing};
use debug_session::Session;
use debug_traits::{AnswerWriter, RecordedMachine};
use frame_expressions::ExpressionMachine;
use prompt_lines::Text;
use prompt_scenes::LastMove;
use prompt_stops::{Lists, begins_list, numbers_for, numbers_named, tell_begun, tell_unended};
use prompt_texts::{Page, Source};
use std::alloc::Global;
use std::mem::replace;
use whole_runs::TellsCopies;

/// A prompt, and what `commands` has listed.
#[derive(Drop)]
pub struct Dialogue {
    prompt: Prompt,
    lists: Lists,
}

impl Dialogue {
    /// A prompt before its first line, over a session that makes so many moves for one forward command at most.
    pub fn new(most_steps: u32) -> Self
        ensures kept { spelled result.prompt.kept ≡ nothing_kept }
        ensures held { held result.prompt.holding ≡ held_at_start }
        ensures limit { result.prompt.most_steps ≡ most_steps }
        ensures lists { lists_of result.lists ≡ no_lists }
    {
        Dialogue {
            prompt: Prompt::new(most_steps),
            lists: Lists::new(),
        }
    }

    /// Writes where the program stands.
    pub fn begin<M: RecordedMachine, O: AnswerWriter + Drop>(
        &self,
        source: Source<'_>,
        session: &Session<M>,
        page: &mut Page<O>,
    ) {
        self.prompt.begin(source, session, page);
    }

    /// Writes, where the input ends within a list, that this is not done.
    pub fn end<O: AnswerWriter + Drop>(&self, page: &mut Page<O>) {
        if self.is_reading() {
            tell_unended(page);
        }
    }

    /// Whether a list is read.
    pub fn is_reading(&self) -> bool
        ensures { result ≡ is_reading (lists_of self.now.lists) }
    {
        self.lists.is_reading()
    }

    /// Whether lines wait, which are done before another one is read.
    pub fn is_waiting(&self) -> bool
        ensures { result ≡ is_waiting (lists_of self.now.lists) }
    {
        self.lists.is_waiting()
    }

    /// Does a line, its line feed not included. Where a list is read it is a line of that, and nothing is done; where it begins a list nothing
    /// is done either. Another line is done as by the prompt; and then the lines wait of the breakpoint or watch that stopped its last move.
    pub fn do_line<M: ExpressionMachine + TellsCopies, O: AnswerWriter + Drop>(
        &mut self,
        alloc: Global,
        line: &[u8],
        source: Source<'_>,
        session: &mut Session<M>,
        page: &mut Page<O>,
    ) -> Turn
        ensures done { (s : Setting) (d : Debugger) → StandsFor M.stands session.old s d → s.limit ≡ self.old.prompt.most_steps
            → spec.Takes M.stands (sheet source.entry) (spelled self.old.prompt.kept) (held self.old.prompt.holding) (lists_of self.old.lists) s d line.now
            session.new (held self.new.prompt.holding) (lists_of self.new.lists) }
        ensures kept { spelled self.new.prompt.kept ≡ spec.kept_then (lists_of self.old.lists) (spelled self.old.prompt.kept) line.now }
        ensures limit { self.new.prompt.most_steps ≡ self.old.prompt.most_steps }
        ensures turn { result ≡ spec.turn_then page.new.has_failed (lists_of self.old.lists) (spelled self.old.prompt.kept) line.now }
    {
        if self.lists.is_reading() {
            self.read(line, page);
            return turn_in_list(page);
        }
        if begins_list(line) {
            self.list(line, session, page);
            return turn_in_list(page);
        }
        self.do_other(alloc, line, source, session, page)
    }

    /// Does the first of the lines that wait, which waits no more.
    pub fn do_first<M: ExpressionMachine + TellsCopies, O: AnswerWriter + Drop>(
        &mut self,
        alloc: Global,
        source: Source<'_>,
        session: &mut Session<M>,
        page: &mut Page<O>,
    ) -> Turn
        ensures done { (s : Setting) (d : Debugger) → StandsFor M.stands session.old s d → s.limit ≡ self.old.prompt.most_steps
            → spec.TakesFirst M.stands (sheet source.entry) (held self.old.prompt.holding) (lists_of self.old.lists) s d
            session.new (held self.new.prompt.holding) (lists_of self.new.lists) }
        ensures kept { spelled self.new.prompt.kept ≡ spelled self.old.prompt.kept }
        ensures limit { self.new.prompt.most_steps ≡ self.old.prompt.most_steps }
        ensures turn { result ≡ spec.turn_first page.new.has_failed (lists_of self.old.lists) (slice_get (lists_of self.old.lists).waiting 0) }
    {
        match self.lists.take_first() {
            None => turn_in_list(page),
            Some(line) => self.do_waited(alloc, &line, source, session, page),
        }
    }

    /// Does a line that waited: an empty one repeats nothing, and what an empty line repeats that is typed stays.
    fn do_waited<M: ExpressionMachine + TellsCopies, O: AnswerWriter + Drop>(
        &mut self,
        alloc: Global,
        line: &Text,
        source: Source<'_>,
        session: &mut Session<M>,
        page: &mut Page<O>,
    ) -> Turn
        ensures done { (s : Setting) (d : Debugger) → StandsFor M.stands session.old s d → s.limit ≡ self.old.prompt.most_steps
            → spec.Takes M.stands (sheet source.entry) nothing_kept (held self.old.prompt.holding) (lists_of self.old.lists) s d line.now.items
            session.new (held self.new.prompt.holding) (lists_of self.new.lists) }
        ensures kept { spelled self.new.prompt.kept ≡ spelled self.old.prompt.kept }
        ensures limit { self.new.prompt.most_steps ≡ self.old.prompt.most_steps }
        ensures turn { result ≡ spec.turn_then page.new.has_failed (lists_of self.old.lists) nothing_kept line.now.items }
    {
        let typed = replace(&mut self.prompt.kept, nothing());
        let turn = self.do_line(alloc, line.as_slice(), source, session, page);
        self.prompt.kept = typed;
        turn
    }

    /// Reads a line of a list.
    fn read<O: AnswerWriter + Drop>(&mut self, line: &[u8], page: &mut Page<O>)
        ensures lists { lists_of self.new.lists ≡ read line.now (lists_of self.old.lists) }
        ensures kept { spelled self.new.prompt.kept ≡ nothing_kept }
        ensures held { held self.new.prompt.holding ≡ held self.old.prompt.holding }
        ensures limit { self.new.prompt.most_steps ≡ self.old.prompt.most_steps }
    {
        self.prompt.kept = nothing();
        self.lists.read(line, page);
    }

    /// Begins a list, where the line names breakpoints or watches that are there.
    fn list<M: RecordedMachine, O: AnswerWriter + Drop>(
        &mut self,
        line: &[u8],
        session: &Session<M>,
        page: &mut Page<O>,
    )
        ensures lists { (s : Setting) (d : Debugger) → StandsFor M.stands session.now s d
            → lists_of self.new.lists ≡ listed (numbers_for d (held self.old.prompt.holding) line.now) (lists_of self.old.lists) }
        ensures kept { spelled self.new.prompt.kept ≡ nothing_kept }
        ensures held { held self.new.prompt.holding ≡ held self.old.prompt.holding }
        ensures limit { self.new.prompt.most_steps ≡ self.old.prompt.most_steps }
    {
        self.prompt.kept = nothing();
        let numbers = numbers_for(line, &self.prompt.holding, session);
        tell_begun(
            line,
            numbers.as_slice(),
            &self.prompt.holding,
            session,
            page,
        );
        self.lists.list(numbers);
    }

    /// Does a line as by the prompt; then the lines wait of what stopped its last move, and those stay listed of what is there.
    fn do_other<M: ExpressionMachine + TellsCopies, O: AnswerWriter + Drop>(
        &mut self,
        alloc: Global,
        line: &[u8],
        source: Source<'_>,
        session: &mut Session<M>,
        page: &mut Page<O>,
    ) -> Turn
        ensures done { (s : Setting) (d : Debugger) → StandsFor M.stands session.old s d → s.limit ≡ self.old.prompt.most_steps
            → spec.DoesOther M.stands (sheet source.entry) (spelled self.old.prompt.kept) (held self.old.prompt.holding) (lists_of self.old.lists) s d line.now
            session.new (held self.new.prompt.holding) (lists_of self.new.lists) }
        ensures kept { spelled self.new.prompt.kept ≡ kept_after (spelled self.old.prompt.kept) line.now }
        ensures limit { self.new.prompt.most_steps ≡ self.old.prompt.most_steps }
        ensures turn { result ≡ turn_of page.new.has_failed (meant (spelled self.old.prompt.kept) line.now) }
    {
        self.prompt.holding.note_move(LastMove::Still);
        let turn = self
            .prompt
            .do_line(alloc, line, self.lists.lines(), source, session, page);
        let there = numbers_named(b"delete", &self.prompt.holding, session);
        self.lists
            .settle(self.prompt.holding.last_move(), there.as_slice());
        turn
    }
}

/// What a line of a list leads to.
fn turn_in_list<O: AnswerWriter + Drop>(page: &Page<O>) -> Turn
    ensures { result ≡ spec.turn_in_list page.now.has_failed }
{
    if page.has_failed() {
        Turn::Fails
    } else {
        Turn::Goes
    }
}
