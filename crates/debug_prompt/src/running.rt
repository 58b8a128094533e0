//! `run`, and the debugger's own words.
ghost use Rattle.std.specs.Prelude.{◌≡◌, None};
ghost use Rattle.gang_model.specs.Debugger.Debugger.{Debugger, Setting};
ghost use Rattle.gang_model.specs.Texts.CommandText.{command_of};
ghost use Rattle.debug_session.specs.Sessions.{StandsFor};
ghost use Rattle.prompt_scenes.specs.Holding.{held, sheet};
ghost use Rattle.prompt_going.specs.GoingOn as going_on;
ghost use Rattle.prompt_texts.specs.Shown.{Puts};
ghost use Rattle.prompt_values.specs.Numbered.{kept};
ghost use Rattle.debug_prompt.specs.Lines as lines;
ghost use Rattle.debug_prompt.specs.Written as written;

use debug_commands::read_command;
use debug_session::Session;
use debug_traits::AnswerWriter;
use frame_expressions::ExpressionMachine;
use prompt_going::{begin_run, do_typed};
use prompt_lines::{index, is_alone, split_word, stripped};
use prompt_moves::run;
use prompt_scenes::{Holding, Scene};
use prompt_texts::{Page, tell_unknown};
use prompt_values::Values;

/// Begins the program, or, where it has begun, takes everything back and begins it anew: on to a stop that counts, where conditions,
/// counts or watches by steps are there.
pub(crate) fn run_to_stop<M: ExpressionMachine, O: AnswerWriter + Drop>(
    text: &[u8],
    holding: &mut Holding,
    scene: Scene<'_>,
    session: &mut Session<M>,
    page: &mut Page<O>,
)
    ensures { (s : Setting) (d : Debugger) → StandsFor M.stands session.old s d → s.limit ≡ scene.entry.most_steps
        → lines.DoesRun M.stands (sheet scene.entry.source) s d (held holding.old) text.now (lines.runs_plainly (held holding.old) text.now) session.new (held holding.new) }
{
    if runs_plainly(text, holding) {
        run(text, holding, scene, session, page);
    } else {
        begin_run(holding, scene, session, page);
    }
}

/// Whether `run` is a list of commands: nothing is said of any stop, and none are watched step by step; or more than one word was typed.
fn runs_plainly(text: &[u8], holding: &Holding) -> bool
    ensures { result ≡ lines.runs_plainly (held holding.now) text.now }
{
    (holding.conditions.is_empty() && !holding.has_frames()) || !is_alone(text)
}

/// Does the command that a command line spells; where it spells none and asks for the values that were printed, lists those.
pub(crate) fn do_own_words<M: ExpressionMachine, O: AnswerWriter + Drop>(
    text: &[u8],
    values: &Values,
    holding: &mut Holding,
    scene: Scene<'_>,
    session: &mut Session<M>,
    page: &mut Page<O>,
)
    ensures done { (s : Setting) (d : Debugger) → StandsFor M.stands session.old s d → s.limit ≡ scene.entry.most_steps
        → going_on.DoesTyped M.stands s d (held holding.old) (command_of text.now) (going_on.walks_by (held holding.old) (command_of text.now)) session.new (held holding.new) }
    ensures listed { command_of text.now ≡ None → written.ListsValues (λ line. Puts line page.old.has_failed page.new.has_failed (O.written page.old.writer) (O.written page.new.writer)) text.now (kept values.now) }
{
    match read_command(text) {
        Some(_) => do_typed(text, holding, scene, session, page),
        None => list_values(text, values, scene, page),
    }
}

/// Lists the values that were printed, where a command line asks for them; says of another one that it is no command.
fn list_values<O: AnswerWriter + Drop>(
    text: &[u8],
    values: &Values,
    scene: Scene<'_>,
    page: &mut Page<O>,
)
    ensures { written.ListsValues (λ line. Puts line page.old.has_failed page.new.has_failed (O.written page.old.writer) (O.written page.new.writer)) text.now (kept values.now) }
{
    match values_asked(text) {
        Some(number) => values.list(number, page),
        None => tell_unknown(scene.line, page),
    }
}

/// Around which number `show values` lists, if a command line is that: the last ones where none is named.
fn values_asked(text: &[u8]) -> Option<Option<u32>>
    ensures { result ≡ written.values_asked text.now }
{
    let (show, rest) = split_word(text);
    let (values, rest) = split_word(rest);
    if show == b"show".as_slice() && values == b"values".as_slice() {
        around_named(stripped(rest))
    } else {
        None
    }
}

/// Around which number values are listed: none where no number stands there.
fn around_named(text: &[u8]) -> Option<Option<u32>>
    ensures { result ≡ written.around_named text.now }
{
    match text {
        [] => Some(None),
        number => match index(number) {
            Some(number) => Some(Some(number)),
            None => None,
        },
    }
}
