//! Watches of what sets a variable: how they are made.
ghost use Rattle.std.specs.Prelude.{◌≡◌, Some};
ghost use Rattle.gang_model.specs.Debugger.Debugger.{Debugger, Setting};
ghost use Rattle.command_lists.specs.Lists.{HasDone};
ghost use Rattle.debug_commands.specs.Views.{target_view};
ghost use Rattle.debug_session.specs.Sessions.{StandsFor};
ghost use Rattle.prompt_lines.specs.Readings.{bytes_option};
ghost use Rattle.prompt_scenes.specs.Holding.{held};
ghost use Rattle.prompt_scenes.specs.SelectedFrame as selection;
ghost use Rattle.prompt_stops.specs.Breaking as breaking;

use crate::breaking::{NO_ROOM, set_made};
use crate::expressions::{if_any, written_in};
use crate::taking::take_number;
use crate::watches::tell_made;
use conditional_stops::SetPlace;
use debug_commands::Target;
use debug_session::Session;
use debug_traits::{AnswerWriter, FramedMachine, RecordedMachine};
use prompt_lines::{printing_line, split_word};
use prompt_scenes::{Holding, Scene, place_named, print_of, selected_depth, trimmed};
use prompt_texts::{Page, tell_usage};

/// How `watch -w` is used.
const USAGE: &[u8] =
    b"`watch -w NAME` stops behind each statement that sets a variable in sight, whether its value changes or not, and `watch -w NAME[N]` an element of an array.";

/// The text of the variable or the element that a command line names to watch what sets it.
pub(crate) fn write_name(text: &[u8]) -> Option<&[u8]>
    ensures { bytes_option result ≡ breaking.write_name text.now }
{
    match written_in(text) {
        Some(written) => name_behind(written),
        None => None,
    }
}

/// What stands behind `-w`.
fn name_behind(text: &[u8]) -> Option<&[u8]>
    ensures { bytes_option result ≡ breaking.name_behind text.now }
{
    let (first, name) = split_word(text);
    if first == b"-w".as_slice() {
        if_any(trimmed(name))
    } else {
        None
    }
}

/// Watches what sets the variable or the element that a text names in the frame that is selected, or of the file, with a condition.
pub(crate) fn watch_writes<M: FramedMachine, O: AnswerWriter + Drop>(
    name: &[u8],
    condition: Option<&[u8]>,
    holding: &mut Holding,
    scene: Scene<'_>,
    session: &mut Session<M>,
    page: &mut Page<O>,
)
    ensures { (s : Setting) (d : Debugger) → StandsFor M.stands session.old s d
        → HasDone M.stands s (breaking.writes_watched s d (held holding.old) name.now) d session.new
        × (held holding.new ≡ breaking.writes_watched_then s d (held holding.old) name.now (bytes_option condition.entry)) }
{
    let line = printing_line(name);
    match print_of(line.as_slice()) {
        Some(target) => watch_named(target, condition, holding, scene, session, page),
        None => tell_usage(USAGE, scene.line, page),
    }
}

/// Watches what sets what a target means in the frame that is selected, or of the file, with a condition.
fn watch_named<M: FramedMachine, O: AnswerWriter + Drop>(
    target: Target<'_>,
    condition: Option<&[u8]>,
    holding: &mut Holding,
    scene: Scene<'_>,
    session: &mut Session<M>,
    page: &mut Page<O>,
)
    ensures { (s : Setting) (d : Debugger) → StandsFor M.stands session.old s d
        → HasDone M.stands s (breaking.writes_of s d (held holding.old) (Some (target_view target.entry))) d session.new
        × (held holding.new ≡ breaking.writes_of_then s d (held holding.old) (Some (target_view target.entry)) (bytes_option condition.entry)) }
{
    let depth = selected_depth(holding, session);
    match place_named(target, depth, session.machine()) {
        Some(place) => {
            watch_place(
                target.name,
                depth,
                place,
                condition,
                holding,
                scene,
                session,
                page,
            )
        }
        None => tell_usage(USAGE, scene.line, page),
    }
}

/// Watches what sets a place that is in sight in the frame at a depth, with a condition, where there is room.
fn watch_place<M: RecordedMachine, O: AnswerWriter + Drop>(
    name: &[u8],
    depth: usize,
    place: SetPlace,
    condition: Option<&[u8]>,
    holding: &mut Holding,
    scene: Scene<'_>,
    session: &mut Session<M>,
    page: &mut Page<O>,
)
    ensures { (s : Setting) (d : Debugger) → StandsFor M.stands session.old s d → depth ≡ selection.depth_of s d (held holding.old)
        → HasDone M.stands s (breaking.writes_by s d (held holding.old) (Some place)) d session.new
        × (held holding.new ≡ breaking.writes_then s d (held holding.old) name.now (Some place) (bytes_option condition.entry)) }
{
    if holding.has_room() {
        let number = take_number(scene, session, page);
        holding.add_writes(number, name, depth, place);
        tell_made(number, holding, page);
        set_made(number, condition, holding, page);
    } else {
        page.put(NO_ROOM);
    }
}
