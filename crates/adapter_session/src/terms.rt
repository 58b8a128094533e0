//! The conditions and the counts of an editor's breakpoints and watches, the messages of those that write a text in place of stopping, which
//! breakpoints are functions', and in which function the program began.
ghost use Rattle.std.specs.Prelude.{◌≡◌, ◌∷◌, [], drop, map, Some};
ghost use Rattle.conditional_stops.specs.Tables.{Table, condition_of, nothing, passes_of};
ghost use Rattle.conditional_stops.specs.Views.{table_of};
ghost use Rattle.log_points.specs.Points.{logs_of, silenced};
ghost use Rattle.adapter_session.specs.Changes.{asked_view, change_view, text_of};
ghost use Rattle.adapter_session.specs.Given.{all_numbers};
ghost use Rattle.adapter_session.specs.Terms as spec;
ghost use Rattle.adapter_session.specs.Terms.{function_of, terms_of};

use crate::changes::{Asked, Change};
use crate::functions::{FunctionStops, carried_functions, given_functions};
use crate::logging::{carried_logs, given_logs};
use conditional_stops::Conditions;
use debug_answers::NumberedStop;
use gang_types::Spot;
use log_points::Logs;

/// The conditions and the counts of breakpoints and watches, by their numbers: as they were asked for, and as the run has left them. And
/// those that write a text, which stop nowhere, with what the run has left of their conditions and counts; and which are functions', by
/// the functions' names. Beside these, the number of the function in which the program began, once it is known.
#[derive(Drop)]
pub struct Terms {
    pub(crate) asked: Conditions,
    pub(crate) left: Conditions,
    pub(crate) logs: Logs,
    pub(crate) functions: FunctionStops,
    pub(crate) entry: Option<usize>,
}

impl Terms {
    /// No condition, no count and no message, and no breakpoint of a function.
    pub fn new() -> Self
        ensures { terms_of result ≡ spec.anew nothing [] [] }
    {
        Terms {
            asked: Conditions::new(),
            left: Conditions::new(),
            logs: Logs::new(Conditions::new()),
            functions: FunctionStops::new(),
            entry: None,
        }
    }

    /// Those of which no stop was passed yet, by three tables that are the same.
    fn anew(asked: Conditions, left: Conditions, logs: Logs, functions: FunctionStops) -> Self
        ensures { (table : Table) → table_of asked ≡ table → table_of left ≡ table → table_of logs.terms ≡ table
            → terms_of result ≡ spec.anew table (logs_of logs) (map function_of functions.items) }
    {
        let left = silenced(&logs, left);
        Terms {
            asked,
            left,
            logs,
            functions,
            entry: None,
        }
    }

    /// Notes in which function the program began, by where its outermost frame stands; nothing where no frame is left.
    pub(crate) fn note(&mut self, outermost: Option<Spot>)
        ensures { terms_of self.new ≡ spec.noted outermost (terms_of self.old) }
    {
        if let Some(spot) = outermost {
            self.entry = Some(spot.function.0);
        }
    }

    /// Gives those that came in place of others what is asked for them; the others of these stops have their own still.
    pub(crate) fn change(&mut self, stops: &[NumberedStop], change: &Change<'_>)
        ensures { terms_of self.new ≡ spec.changed (all_numbers stops.now) (drop (change_view change.now).staying (all_numbers stops.now))
            (change_view change.now).asked (terms_of self.old) }
    {
        let came = behind(stops, change.staying);
        let changed = self.changed(stops, came, change.asked.as_slice());
        *self = changed;
    }

    /// Those of stops that stand, of which some came.
    fn changed(&self, stops: &[NumberedStop], came: &[NumberedStop], asked: &[Asked<'_>]) -> Self
        ensures { terms_of result ≡ spec.changed (all_numbers stops.now) (all_numbers came.now) (map asked_view asked.now) (terms_of self.now) }
    {
        let terms = given(self.logs.terms(), stops, came, asked);
        let logs = given_logs(&self.logs, stops, came, asked, terms);
        let left = given(&self.left, stops, came, asked);
        Terms {
            asked: given(&self.asked, stops, came, asked),
            left: silenced(&logs, left),
            logs,
            functions: given_functions(self.functions.as_slice(), stops, came, asked),
            entry: self.entry,
        }
    }

    /// Those that were asked for breakpoints, for the ones that stand in place of them.
    pub(crate) fn carried(&self, old: &[NumberedStop], stops: &[NumberedStop]) -> Self
        ensures { terms_of result ≡ spec.anew (spec.carried (terms_of self.now).asked (all_numbers old.now) (all_numbers stops.now) nothing)
            (spec.carried_logs (terms_of self.now).logs (all_numbers old.now) (all_numbers stops.now) [])
            (spec.carried_functions (terms_of self.now).functions (all_numbers old.now) (all_numbers stops.now) []) }
    {
        let asked = carried(&self.asked, old, stops);
        let left = carried(&self.asked, old, stops);
        let terms = carried(&self.asked, old, stops);
        let logs = carried_logs(&self.logs, old, stops, terms);
        let functions = carried_functions(self.functions.as_slice(), old, stops);
        Terms::anew(asked, left, logs, functions)
    }
}

/// A table in which those that write a text stop nowhere.
fn silenced(logs: &Logs, table: Conditions) -> Conditions
    ensures { table_of result ≡ silenced (logs_of logs.now) (table_of table) }
{
    let mut table = table;
    logs.silence(&mut table);
    table
}

/// The stops behind so many.
#[tactic(auto, using(crate::proofs::TermLists::none_behind))]
fn behind(stops: &[NumberedStop], many: usize) -> &[NumberedStop]
    ensures { all_numbers result.now ≡ drop many (all_numbers stops.now) }
{
    if many < stops.len() {
        &stops[many..]
    } else {
        &[]
    }
}

/// A table for stops that stand, and for those of them that came.
fn given(
    table: &Conditions,
    stops: &[NumberedStop],
    came: &[NumberedStop],
    asked: &[Asked<'_>],
) -> Conditions
    ensures { table_of result ≡ spec.given (all_numbers stops.now) (all_numbers came.now) (map asked_view asked.now) (table_of table.now) }
{
    let mut kept = carried(table, stops, stops);
    give_all(&mut kept, came, asked);
    kept
}

/// Gives stops, one after another, the condition and the count that are asked for each.
fn give_all(table: &mut Conditions, came: &[NumberedStop], asked: &[Asked<'_>])
    ensures { table_of table.new ≡ spec.numbered (map asked_view asked.now) (all_numbers came.now) (table_of table.old) }
{
    let mut stops = came;
    for one in asked {
        stops = give_next(table, stops, *one);
    }
}

/// Gives the first of some stops its condition and its count, and says which stand behind it.
fn give_next<'a>(
    table: &mut Conditions,
    stops: &'a [NumberedStop],
    asked: Asked<'_>,
) -> &'a [NumberedStop]
    ensures given { table_of table.new ≡ spec.first_given (all_numbers stops.now) (asked_view asked.entry).condition (asked_view asked.entry).passes (table_of table.old) }
    ensures behind { all_numbers result.now ≡ drop 1 (all_numbers stops.now) }
{
    match stops {
        [first, others @ ..] => {
            give(table, first.number, bytes_of(asked.condition), asked.passes);
            others
        }
        [] => stops,
    }
}

/// The bytes of a text that may be there.
pub(crate) fn bytes_of(text: Option<&str>) -> Option<&[u8]>
    ensures { text_of result ≡ text_of text.entry }
{
    match text {
        Some(text) => Some(text.as_bytes()),
        None => None,
    }
}

/// The table that was asked for stops, for the ones that stand in place of them.
fn carried(asked: &Conditions, old: &[NumberedStop], stops: &[NumberedStop]) -> Conditions
    ensures { table_of result
        ≡ spec.carried (table_of asked.now) (all_numbers old.now) (all_numbers stops.now) nothing }
{
    let mut table = Conditions::new();
    let mut stops = stops;
    for entry in old {
        stops = carry(asked, entry.number, &mut table, stops);
    }
    table
}

/// Gives the first of some stops what was asked for another one, and says which stand behind it.
fn carry<'a>(
    asked: &Conditions,
    number: u32,
    table: &mut Conditions,
    stops: &'a [NumberedStop],
) -> &'a [NumberedStop]
    ensures given { table_of table.new ≡ spec.first_given (all_numbers stops.now) (condition_of number (table_of asked.now))
        (passes_of number (table_of asked.now)) (table_of table.old) }
    ensures behind { all_numbers result.now ≡ drop 1 (all_numbers stops.now) }
{
    match stops {
        [first, others @ ..] => {
            give(
                table,
                first.number,
                asked.condition(number),
                asked.passes(number),
            );
            others
        }
        [] => stops,
    }
}

/// Gives a breakpoint or watch its condition and its count.
fn give(table: &mut Conditions, number: u32, condition: Option<&[u8]>, passes: u32)
    ensures { table_of table.new ≡ spec.first_given (number ∷ []) (text_of condition.entry) passes (table_of table.old) }
{
    give_condition(table, number, condition);
    give_count(table, number, passes);
}

/// Gives a breakpoint or watch its condition, if it has one, where there is room.
fn give_condition(table: &mut Conditions, number: u32, condition: Option<&[u8]>)
    ensures { table_of table.new ≡ spec.conditioned number (text_of condition.entry) (table_of table.old) }
{
    match condition {
        Some(text) => set_condition(table, number, text),
        None => {}
    }
}

/// Gives a breakpoint or watch a condition, where there is room.
fn set_condition(table: &mut Conditions, number: u32, text: &[u8])
    ensures { table_of table.new ≡ spec.conditioned number (Some text.now) (table_of table.old) }
{
    match table.set_condition(number, text) {
        Ok(()) => {}
        Err(_) => {}
    }
}

/// Lets so many stops of a breakpoint or watch be passed, where there is room.
fn give_count(table: &mut Conditions, number: u32, passes: u32)
    ensures { table_of table.new ≡ spec.counted number passes (table_of table.old) }
{
    match table.set_passes(number, passes) {
        Ok(()) => {}
        Err(_) => {}
    }
}
