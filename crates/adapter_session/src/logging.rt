//! The messages of an editor's breakpoints that write a text in place of stopping.
ghost use Rattle.std.specs.Prelude.{◌≡◌, [], drop, map};
ghost use Rattle.conditional_stops.specs.Views.{table_of};
ghost use Rattle.log_points.specs.Points.{logs_of, message_of};
ghost use Rattle.adapter_session.specs.Changes.{asked_view, text_of};
ghost use Rattle.adapter_session.specs.Given.{all_numbers};
ghost use Rattle.adapter_session.specs.Terms as spec;

use crate::changes::Asked;
use conditional_stops::Conditions;
use debug_answers::NumberedStop;
use log_points::Logs;

/// Those that write a text, of stops that stand and of those of them that came, with these conditions and counts.
pub(crate) fn given_logs(
    logs: &Logs,
    stops: &[NumberedStop],
    came: &[NumberedStop],
    asked: &[Asked<'_>],
    terms: Conditions,
) -> Logs
    ensures points { logs_of result ≡ spec.given_logs (all_numbers stops.now) (all_numbers came.now) (map asked_view asked.now) (logs_of logs.now) }
    ensures terms { table_of result.terms ≡ table_of terms }
{
    let mut kept = carried_logs(logs, stops, stops, terms);
    log_all(&mut kept, came, asked);
    kept
}

/// Gives stops, one after another, the message that is asked for each.
fn log_all(logs: &mut Logs, came: &[NumberedStop], asked: &[Asked<'_>])
    ensures points { logs_of logs.new ≡ spec.logged (map asked_view asked.now) (all_numbers came.now) (logs_of logs.old) }
    ensures terms { logs.new.terms ≡ logs.old.terms }
{
    let mut stops = came;
    for one in asked {
        stops = log_next(logs, stops, one.log);
    }
}

/// Gives the first of some stops its message, if it has one, and says which stand behind it.
fn log_next<'a>(
    logs: &mut Logs,
    stops: &'a [NumberedStop],
    message: Option<&str>,
) -> &'a [NumberedStop]
    ensures given { logs_of logs.new ≡ spec.first_logged (all_numbers stops.now) (text_of message.entry) (logs_of logs.old) }
    ensures behind { all_numbers result.now ≡ drop 1 (all_numbers stops.now) }
    ensures terms { logs.new.terms ≡ logs.old.terms }
{
    match stops {
        [first, others @ ..] => {
            put(logs, first.number, message);
            others
        }
        [] => stops,
    }
}

/// Gives a breakpoint a message, if it has one.
fn put(logs: &mut Logs, number: u32, message: Option<&str>)
    ensures points { logs_of logs.new ≡ spec.messaged number (text_of message.entry) (logs_of logs.old) }
    ensures terms { logs.new.terms ≡ logs.old.terms }
{
    match message {
        Some(message) => logs.put(number, message),
        None => {}
    }
}

/// Those that are to write a text, for the stops that stand in place of others, with these conditions and counts.
pub(crate) fn carried_logs(
    asked: &Logs,
    old: &[NumberedStop],
    stops: &[NumberedStop],
    terms: Conditions,
) -> Logs
    ensures points { logs_of result ≡ spec.carried_logs (logs_of asked.now) (all_numbers old.now) (all_numbers stops.now) [] }
    ensures terms { table_of result.terms ≡ table_of terms }
{
    let mut logs = Logs::new(terms);
    let mut stops = stops;
    for entry in old {
        stops = carry_log(asked, entry.number, &mut logs, stops);
    }
    logs
}

/// Gives the first of some stops the message of another one, and says which stand behind it.
fn carry_log<'a>(
    asked: &Logs,
    number: u32,
    logs: &mut Logs,
    stops: &'a [NumberedStop],
) -> &'a [NumberedStop]
    ensures given { logs_of logs.new ≡ spec.first_logged (all_numbers stops.now) (message_of number (logs_of asked.now)) (logs_of logs.old) }
    ensures behind { all_numbers result.now ≡ drop 1 (all_numbers stops.now) }
    ensures terms { logs.new.terms ≡ logs.old.terms }
{
    match stops {
        [first, others @ ..] => {
            put(logs, first.number, asked.message(number));
            others
        }
        [] => stops,
    }
}
