//! What changed a variable of a frame, or a lane or an element of one, within that frame.
ghost use Rattle.std.specs.Prelude.{◌≡◌, ◌++◌, [], is_none, if◌then◌else◌};
ghost use Rattle.gang_model.specs.Debugger.Debugger as model;
ghost use Rattle.gang_model.specs.Debugger.Debugger.{Debugger, Setting, kept_steps, now};
ghost use Rattle.debug_traits.specs.Frames.{found_at};
ghost use Rattle.command_lists.specs.Lists.{HasDone};
ghost use Rattle.conditional_stops.specs.Sights as sights;
ghost use Rattle.conditional_stops.specs.SightViews.{sight_view};
ghost use Rattle.debug_commands.specs.Views.{target_view};
ghost use Rattle.debug_session.specs.Sessions.{StandsFor};
ghost use Rattle.prompt_scenes.specs.Holding.{held};
ghost use Rattle.prompt_scenes.specs.Changes as changes;
ghost use Rattle.prompt_moves.specs.Following as following;
ghost use Rattle.prompt_moves.specs.Moments as moments;
ghost use Rattle.prompt_past.specs.Past as past;
ghost use Rattle.prompt_past.specs.FramePast as spec;

use crate::past::IS_SET;
use arrayvec::ArrayVec;
use conditional_stops::{FrameWatch, Sight, differ, sight, words_of};
use debug_answers::Answer;
use debug_commands::{Command, Target};
use debug_session::Session;
use debug_traits::{AnswerWriter, FramedMachine, RecordedMachine, Shown};
use frame_expressions::ExpressionMachine;
use gang_types::{IntType, VarId};
use prompt_moves::{is_unset, show_displays, step_on};
use prompt_scenes::{Holding, Scene, depth, local_named, selected_depth};
use prompt_texts::{Before, Beginning, Page, Watched, tell_move, tell_since};

/// What `watch` of a target would watch of the frame at a depth, if its name stands for a variable of a function there.
fn part_named<M: FramedMachine>(target: Target<'_>, depth: usize, machine: &M) -> Option<FrameWatch>
    ensures { (s : Setting) (d : Debugger) → M.stands machine.now s d → result ≡ spec.part_named s d depth (target_view target.entry) }
{
    let id = local_named(target, depth, machine)?;
    let Ok(name) = ArrayVec::try_from(target.name) else {
        return None;
    };
    Some(FrameWatch {
        number: 0,
        depth,
        id,
        at: target.at,
        name,
    })
}

/// The same in the frame that is selected.
pub(crate) fn part_of<M: FramedMachine>(
    target: Target<'_>,
    holding: &Holding,
    session: &Session<M>,
) -> Option<FrameWatch>
    ensures { (s : Setting) (d : Debugger) → StandsFor M.stands session.now s d → result ≡ past.part_of s d (held holding.now) (target_view target.entry) }
{
    part_named(target, selected_depth(holding, session), session.machine())
}

/// Goes back to the last change of a variable of a frame, to its declaration, or to where its frame began.
pub(crate) fn seek_in_frame<M: ExpressionMachine, O: AnswerWriter + Drop>(
    watch: &FrameWatch,
    target: Target<'_>,
    holding: &mut Holding,
    scene: Scene<'_>,
    session: &mut Session<M>,
    page: &mut Page<O>,
)
    ensures { (s : Setting) (d : Debugger) → StandsFor M.stands session.old s d
        → HasDone M.stands s (spec.back_in_frame s watch.now d ++ following.shown (held holding.old).displays) d session.new
        × (held holding.new ≡ changes.started (held holding.old)) }
{
    go_and_tell(watch, target, scene, session, page);
    show_displays(holding.displays(), scene, session, page);
    holding.start();
}

/// Goes back to the last change of a variable of a frame, and tells it.
fn go_and_tell<M: FramedMachine, O: AnswerWriter + Drop>(
    watch: &FrameWatch,
    target: Target<'_>,
    scene: Scene<'_>,
    session: &mut Session<M>,
    page: &mut Page<O>,
)
    ensures { (s : Setting) (d : Debugger) → StandsFor M.stands session.old s d
        → StandsFor M.stands session.new s (moments.led s (spec.back_in_frame s watch.now d) d) }
{
    let value_type = type_of(watch, session.machine());
    let shown = back_to_change(watch, session);
    let end = end_of(&shown, watch, session);
    into_frame(watch, session);
    let newer = Watched::showing(target, value_type, words(&shown));
    tell_found(&newer, end, watch, session, page);
    let here = Before::note(session.machine());
    tell_move(
        &Answer::Here,
        scene.line,
        &here,
        scene.source,
        session,
        page,
    );
}

/// Tells what the statement changed to which the way back led, or since when the variable has had its value.
fn tell_found<M: FramedMachine, O: AnswerWriter + Drop>(
    newer: &Watched<'_>,
    end: Option<Beginning>,
    watch: &FrameWatch,
    session: &Session<M>,
    page: &mut Page<O>,
) {
    match end {
        None => {
            let older = sight(session.machine(), watch);
            newer.tell_last(&newer.with_words(words(&older)), page);
        }
        Some(beginning) => tell_since(newer.target(), beginning, session, page),
    }
}

/// Takes single steps back, up to the first at which a variable of a frame does not show the words that it shows here. Gives these.
fn back_to_change<M: FramedMachine>(watch: &FrameWatch, session: &mut Session<M>) -> Sight
    ensures { (s : Setting) (d : Debugger) → StandsFor M.stands session.old s d
        → StandsFor M.stands session.new s (moments.led s (spec.back_to_change s watch.now d) d) × (sight_view result ≡ sights.sight s d watch.now) }
{
    let shown = sight(session.machine(), watch);
    go_back(&shown, watch, session);
    shown
}

/// Takes single steps back, as far as any are kept, up to the first at which a variable of a frame does not show these words.
fn go_back<M: FramedMachine>(shown: &Sight, watch: &FrameWatch, session: &mut Session<M>)
    ensures { (s : Setting) (d : Debugger) → StandsFor M.stands session.old s d
        → StandsFor M.stands session.new s (moments.led s (spec.to_change (kept_steps d) s watch.now (sight_view shown.now) d) d) }
{
    let mut left = session.machine().kept_steps() as u64;
    while left > 0 {
        let _ = session.do_command(Command::ReverseStep(1));
        if !goes_on(shown, watch, session) {
            return;
        }
        left -= 1;
    }
}

/// Whether the way back goes on from here: a variable of a frame shows these words still, or an inner one of its name hides it.
fn goes_on<M: FramedMachine>(shown: &Sight, watch: &FrameWatch, session: &Session<M>) -> bool
    ensures { (s : Setting) (d : Debugger) → StandsFor M.stands session.now s d → result ≡ spec.goes_on s watch.now (sight_view shown.now) d }
{
    is_kept(shown, &sight(session.machine(), watch)) || is_hidden(watch, session)
}

/// Whether an inner variable of its name hides a variable of a frame.
fn is_hidden<M: FramedMachine>(watch: &FrameWatch, session: &Session<M>) -> bool
    ensures { (s : Setting) (d : Debugger) → StandsFor M.stands session.now s d → result ≡ spec.is_hidden s watch.now d }
{
    !is_left(watch, session) && names_inner(watch, session.machine())
}

/// Whether the frame of a variable is not there.
fn is_left<M: RecordedMachine>(watch: &FrameWatch, session: &Session<M>) -> bool
    ensures { (s : Setting) (d : Debugger) → StandsFor M.stands session.now s d → result ≡ sights.is_gone (model.depth (now s d)) watch.now }
{
    depth(session) < watch.depth
}

/// Whether the name of a variable of a frame stands for an inner one there.
fn names_inner<M: FramedMachine>(watch: &FrameWatch, machine: &M) -> bool
    ensures { (s : Setting) (d : Debugger) → M.stands machine.now s d
        → result ≡ spec.is_inner watch.now.id (found_at s.program watch.now.depth (now s d) watch.now.name.items) }
{
    shows_inner(
        watch.id,
        machine.find_at(watch.depth, watch.name.as_slice()),
    )
}

/// Whether what is shown of a name is of an inner variable.
fn shows_inner(one: VarId, shown: Option<Shown>) -> bool
    ensures { result ≡ spec.shows_inner one shown }
{
    match shown {
        Some(shown) => is_later(one, shown.id),
        None => false,
    }
}

/// Whether a variable was declared behind another one of its function.
fn is_later(one: VarId, other: VarId) -> bool
    ensures { result ≡ spec.is_later one other }
{
    match (one, other) {
        (VarId::Local(one), VarId::Local(other)) => one < other,
        (VarId::File(_), _) | (_, VarId::File(_)) => false,
    }
}

/// Whether a variable is still shown, with the same words in all lanes.
fn is_kept(shown: &Sight, now: &Sight) -> bool
    ensures { result ≡ spec.is_kept (sight_view shown.now) (sight_view now.now) }
{
    now.is_some() && !differ(words_of(shown), now)
}

/// Where a frame is not there any more, makes one step on, to where it began.
fn into_frame<M: RecordedMachine>(watch: &FrameWatch, session: &mut Session<M>)
    ensures { (s : Setting) (d : Debugger) → StandsFor M.stands session.old s d
        → StandsFor M.stands session.new s (moments.led s (spec.into_frame s watch.now d) d) }
{
    if is_left(watch, session) {
        let _ = session.do_command(Command::Step(1));
    }
}

/// Where the way back to a change ended, unless a change was found.
fn end_of<M: FramedMachine>(
    shown: &Sight,
    watch: &FrameWatch,
    session: &Session<M>,
) -> Option<Beginning>
    ensures { (s : Setting) (d : Debugger) → StandsFor M.stands session.now s d
        → is_none result ≡ sights.differ (sight_view shown.now) (sights.sight s d watch.now) }
{
    let now = sight(session.machine(), watch);
    if differ(words_of(shown), &now) {
        None
    } else {
        Some(beginning_at(&now, watch, session))
    }
}

/// Where the way back ended: in history, where the variable is shown still or hidden; else its frame is not there, or it is not declared yet.
fn beginning_at<M: FramedMachine>(
    now: &Sight,
    watch: &FrameWatch,
    session: &Session<M>,
) -> Beginning {
    if now.is_some() || is_hidden(watch, session) {
        Beginning::Start
    } else if is_left(watch, session) {
        Beginning::Entry
    } else {
        Beginning::Declaration
    }
}

/// Lists the last changes of a variable of a frame, where single steps lead back to where the program stands.
pub(crate) fn tell_in_frame<M: FramedMachine, O: AnswerWriter + Drop>(
    watch: &FrameWatch,
    target: Target<'_>,
    most: u32,
    scene: Scene<'_>,
    session: &mut Session<M>,
    page: &mut Page<O>,
)
    ensures { (s : Setting) (d : Debugger) → StandsFor M.stands session.old s d
        → StandsFor M.stands session.new s (moments.led s (if moments.is_unset d then spec.told_in_frame most s watch.now d else []) d) }
{
    if !is_unset(session) {
        page.put(IS_SET);
        return;
    }
    let steps = session.machine().kept_steps() as u64;
    tell_back(watch, target, most, scene, session, page);
    let here = session.machine().kept_steps() as u64;
    let _ = step_on(steps.saturating_sub(here), session);
}

/// Goes back over so many changes of a variable of a frame, within it, and lists them.
fn tell_back<M: FramedMachine, O: AnswerWriter + Drop>(
    watch: &FrameWatch,
    target: Target<'_>,
    most: u32,
    scene: Scene<'_>,
    session: &mut Session<M>,
    page: &mut Page<O>,
)
    ensures { (s : Setting) (d : Debugger) → StandsFor M.stands session.old s d
        → StandsFor M.stands session.new s (moments.led s (spec.changes_back most s watch.now d) d) }
{
    let mut newer = noted(watch, target, session.machine());
    let mut left = most;
    while left > 0 {
        let shown = back_to_change(watch, session);
        if let Some(beginning) = end_of(&shown, watch, session) {
            newer.tell_beginning(beginning, scene.source, session, page);
            return;
        }
        let now = sight(session.machine(), watch);
        let older = newer.with_words(words(&now));
        newer = newer.tell_change(older, scene.source, session, page);
        left -= 1;
    }
}

/// Notes what a target shows, a variable of a frame.
fn noted<'a, M: FramedMachine>(watch: &FrameWatch, target: Target<'a>, machine: &M) -> Watched<'a> {
    let shown = sight(machine, watch);
    Watched::showing(target, type_of(watch, machine), words(&shown))
}

/// The type of a variable of a frame.
fn type_of<M: FramedMachine>(watch: &FrameWatch, machine: &M) -> IntType {
    match machine.find_at(watch.depth, watch.name.as_slice()) {
        Some(shown) => shown.value_type,
        None => IntType::Int32,
    }
}

/// The words that are shown, none where nothing is.
fn words(shown: &Sight) -> &[u64] {
    match words_of(shown) {
        Some(words) => words,
        None => &[],
    }
}
