//! Breakpoints and watches that a line names by their numbers: they are deleted, disabled or enabled, one after another.
ghost use Rattle.std.specs.Prelude.{◌≡◌, ◌≤◌, ◌++◌, ◌∷◌, [], filter, length, map, take};
ghost use Rattle.gang_model.specs.Debugger.Debugger.{Debugger, Setting};
ghost use Rattle.command_lists.specs.Lists.{HasDone};
ghost use Rattle.conditional_stops.specs.Watches.{watch_number};
ghost use Rattle.debug_session.specs.Sessions.{StandsFor};
ghost use Rattle.prompt_lines.specs.Numbers.{names_number};
ghost use Rattle.prompt_scenes.specs.Holding.{held};
ghost use Rattle.prompt_stops.specs.Breaking as breaking;
ghost use Rattle.prompt_stops.specs.Listed as listed;
ghost use Rattle.prompt_stops.specs.Numbers as named;

use crate::breaking::delete_by;
use arrayvec::ArrayVec;
use conditional_stops::Watch;
use debug_answers::NumberedStop;
use debug_session::Session;
use debug_traits::{AnswerWriter, RecordedMachine};
use prompt_lines::{are_numbers, is_alone, names_number};
use prompt_scenes::{Holding, Scene};
use prompt_texts::{Page, tell_unknown};
use prompt_values::tell_missing;

/// The most breakpoints and watches: 64 of the debugger, and 16 of variables of frames.
const MOST: usize = 80;

/// Numbers of breakpoints and watches.
pub type Numbers = ArrayVec<u32, MOST>;

/// Deletes the breakpoints and watches that a line names, and forgets what was said of them.
pub(crate) fn delete_named<M: RecordedMachine, O: AnswerWriter + Drop>(
    text: &[u8],
    holding: &mut Holding,
    scene: Scene<'_>,
    session: &mut Session<M>,
    page: &mut Page<O>,
)
    ensures { (s : Setting) (d : Debugger) → StandsFor M.stands session.old s d
        → HasDone M.stands s (breaking.deletes_named d (held holding.old) text.now) d session.new
        × (held holding.new ≡ breaking.after_named d (held holding.old) text.now) }
{
    if are_numbers(text) {
        let numbers = numbers_named(text, holding, session);
        tell_missing(text, holding, session, page);
        delete_each(numbers.as_slice(), holding, scene, session, page);
    } else {
        tell_unknown(scene.line, page);
    }
}

/// Deletes breakpoints and watches, one after another.
fn delete_each<M: RecordedMachine, O: AnswerWriter + Drop>(
    numbers: &[u32],
    holding: &mut Holding,
    scene: Scene<'_>,
    session: &mut Session<M>,
    page: &mut Page<O>,
)
    ensures { (s : Setting) (d : Debugger) → StandsFor M.stands session.old s d
        → HasDone M.stands s (breaking.deletes_each (held holding.old) numbers.now) d session.new
        × (held holding.new ≡ named.deleted_each numbers.now (held holding.old)) }
{
    for number in numbers {
        delete_by(Some(*number), holding, scene, session, page);
    }
}

/// Disables the breakpoints and watches that a line names.
pub fn disable<M: RecordedMachine, O: AnswerWriter + Drop>(
    text: &[u8],
    holding: &mut Holding,
    scene: Scene<'_>,
    session: &Session<M>,
    page: &mut Page<O>,
)
    ensures { (s : Setting) (d : Debugger) → StandsFor M.stands session.now s d
        → held holding.new ≡ breaking.after_disable d (held holding.old) text.now }
{
    if are_numbers(text) {
        let numbers = numbers_named(text, holding, session);
        tell_missing(text, holding, session, page);
        tell_if_none(text, numbers.as_slice(), page);
        disable_each(numbers.as_slice(), holding, page);
    } else {
        tell_unknown(scene.line, page);
    }
}

/// Disables breakpoints and watches, one after another.
fn disable_each<O: AnswerWriter + Drop>(numbers: &[u32], holding: &mut Holding, page: &mut Page<O>)
    ensures { held holding.new ≡ named.disabled_each numbers.now (held holding.old) }
{
    for number in numbers {
        holding.disable(*number);
        tell_done(b"disabled ", *number, page);
    }
}

/// Enables the breakpoints and watches that a line names.
pub fn enable<M: RecordedMachine, O: AnswerWriter + Drop>(
    text: &[u8],
    holding: &mut Holding,
    scene: Scene<'_>,
    session: &Session<M>,
    page: &mut Page<O>,
)
    ensures { (s : Setting) (d : Debugger) → StandsFor M.stands session.now s d
        → held holding.new ≡ breaking.after_enable d (held holding.old) text.now }
{
    if are_numbers(text) {
        let numbers = numbers_named(text, holding, session);
        tell_missing(text, holding, session, page);
        tell_if_none(text, numbers.as_slice(), page);
        enable_each(numbers.as_slice(), holding, page);
    } else {
        tell_unknown(scene.line, page);
    }
}

/// Enables breakpoints and watches, one after another.
fn enable_each<O: AnswerWriter + Drop>(numbers: &[u32], holding: &mut Holding, page: &mut Page<O>)
    ensures { held holding.new ≡ named.enabled_each numbers.now (held holding.old) }
{
    for number in numbers {
        holding.enable(*number);
        tell_done(b"enabled ", *number, page);
    }
}

/// Tells that there is nothing, where a line means all breakpoints and watches and none is there.
fn tell_if_none<O: AnswerWriter + Drop>(text: &[u8], numbers: &[u32], page: &mut Page<O>) {
    if numbers.is_empty() && is_alone(text) {
        page.put(b"no breakpoint or watch is there\n");
    }
}

/// Tells what was done with a breakpoint or watch.
fn tell_done<O: AnswerWriter + Drop>(done: &[u8], number: u32, page: &mut Page<O>) {
    page.put(done);
    page.put_number(i128::from(number));
    page.put(b"\n");
}

/// The numbers of the breakpoints and watches that a line names.
pub fn numbers_named<M: RecordedMachine>(
    text: &[u8],
    holding: &Holding,
    session: &Session<M>,
) -> Numbers
    ensures { (s : Setting) (d : Debugger) → StandsFor M.stands session.now s d
        → result.items ≡ named.numbers_named d (held holding.now) text.now }
{
    let mut numbers = Numbers::new();
    add_stops(text, session.stops(), &mut numbers);
    add_frames(text, holding.frames.as_slice(), &mut numbers);
    numbers
}

/// The numbers of those whose lines follow: those that a line names, or the one that was made last.
pub fn numbers_for<M: RecordedMachine>(
    line: &[u8],
    holding: &Holding,
    session: &Session<M>,
) -> Numbers
    ensures { (s : Setting) (d : Debugger) → StandsFor M.stands session.now s d
        → result.items ≡ listed.numbers_for d (held holding.now) line.now }
{
    if !are_numbers(line) {
        return Numbers::new();
    }
    let numbers = numbers_named(line, holding, session);
    if is_alone(line) {
        newest(numbers.as_slice())
    } else {
        numbers
    }
}

/// Of some numbers the one that was given last.
fn newest(numbers: &[u32]) -> Numbers
    ensures { result.items ≡ listed.newest numbers.now }
{
    let mut newest = Numbers::new();
    if let [first, rest @ ..] = numbers {
        newest.push(largest(*first, rest));
    }
    newest
}

/// The largest of a number and others.
fn largest(first: u32, numbers: &[u32]) -> u32
    ensures { result ≡ listed.largest first numbers.now }
{
    let mut found = first;
    for number in numbers {
        if found < *number {
            found = *number;
        }
    }
    found
}

/// Adds the numbers that a line names, of the debugger's breakpoints and watches.
fn add_stops(text: &[u8], stops: &[NumberedStop], numbers: &mut Numbers)
    requires { length numbers.old.items ≤ MOST }
    ensures items { numbers.new.items ≡ take MOST (numbers.old.items ++ filter (λ number. names_number number text.now) (map (λ entry. entry.number) stops.now)) }
    ensures few { length numbers.new.items ≤ MOST }
{
    for entry in stops {
        add_if_named(text, entry.number, numbers);
    }
}

/// Adds the numbers that a line names, of the watches of frames.
fn add_frames(text: &[u8], frames: &[Watch], numbers: &mut Numbers)
    requires { length numbers.old.items ≤ MOST }
    ensures items { numbers.new.items ≡ take MOST (numbers.old.items ++ filter (λ number. names_number number text.now) (map watch_number frames.now)) }
    ensures few { length numbers.new.items ≤ MOST }
{
    for watch in frames {
        add_if_named(text, watch.number(), numbers);
    }
}

/// Adds a number that a line names, where there is room.
#[tactic(auto, using(crate::proofs::Numbered::is_added))]
fn add_if_named(text: &[u8], number: u32, numbers: &mut Numbers)
    requires { length numbers.old.items ≤ MOST }
    ensures items { numbers.new.items ≡ take MOST (numbers.old.items ++ filter (λ n. names_number n text.now) (number ∷ [])) }
    ensures few { length numbers.new.items ≤ MOST }
{
    if !names_number(number, text) {
        return;
    }
    add(number, numbers);
}

/// Adds a number, where there is room.
#[tactic(auto, using(crate::proofs::Numbered::full_stays, crate::proofs::Numbered::one_more))]
fn add(number: u32, numbers: &mut Numbers)
    requires { length numbers.old.items ≤ MOST }
    ensures items { numbers.new.items ≡ take MOST (numbers.old.items ++ number ∷ []) }
    ensures few { length numbers.new.items ≤ MOST }
{
    if numbers.is_full() {
        return;
    }
    numbers.push(number);
}
