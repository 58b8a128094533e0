//! The page of a run, to a file or to standard output.
ghost use Rattle.std.specs.Prelude.{◌≡◌};
ghost use Rattle.ispc_options.specs.Ranges.{AreInRange};
ghost use Rattle.ispc_debugger.specs.Runs.{lanes_of};

use crate::counting::{Counted, length_of, tell_size};
use crate::drawing::{do_lines, read_commands};
use crate::files::{read_texts, reason, without_returns};
use crate::overwriting::{Written, refuse_overwriting};
use crate::places::places_in;
use crate::refusing::{Texts, refuse, refuse_because, refuse_file, refuse_program, write_fault};
use debug_answers::Answer;
use debug_commands::Command;
use debug_streams::StreamWriter;
use debug_traits::RecordedMachine;
use desk_options::{Program, RunPage};
use ispc_debugger::{ProgramSession, open_session};
use ispc_options::Width;
use ispc_refusals::Refusal;
use page_viewer::{front_parts, rest_parts};
use run_page::{PageEnd, Subject, Viewer, write_page};
use std::fs;
use std::io::{LineWriter, Write};
use std::process::ExitCode;

/// What is said where the run does not get so far.
pub(crate) const NOT_SO_FAR: &[u8] = b"--from: the run ends before this step, or --steps is less";

/// What is said where `--around` names no steps.
const NO_PLACES: &[u8] =
    b"--around takes numbers of steps, 16 at most, with commas between them, and not ";

/// Writes the page of a program's run. Its files are read first, the source before the input and this before the commands.
pub(crate) fn page_run(rt: &HostRuntime, page: &RunPage<'_>) -> ExitCode
    requires { AreInRange page.now.program.options }
{
    if let Err(status) = refuse_overwriting(
        rt,
        Written::RunPage,
        page.to,
        &page.program,
        page.commands,
        page.force,
    ) {
        return status;
    }
    let (source, input) = match read_texts(rt, page.program.source, page.program.input) {
        Ok(texts) => texts,
        Err(status) => return status,
    };
    let commands = match read_commands(rt, page.commands) {
        Ok(commands) => commands,
        Err(status) => return status,
    };
    let places = match read_places(rt, page.around) {
        Ok(places) => places,
        Err(status) => return status,
    };
    let Ok(shown) = without_returns(rt.alloc(), source.as_slice()) else {
        return refuse(rt, &Refusal::Memory);
    };
    let texts = Texts::new(page.program.source, source.as_slice(), input.as_slice());
    let plan = Plan {
        page,
        texts,
        shown: shown.as_slice(),
        commands: commands.as_slice(),
        places: places.as_slice(),
    };
    match page.program.options.width {
        Width::Four => page_wide::<4>(rt, &plan, &page.program),
        Width::Eight => page_wide::<8>(rt, &plan, &page.program),
        Width::Sixteen => page_wide::<16>(rt, &plan, &page.program),
    }
}

/// The steps that `--around` names, none where it is not given; or the status where it names no steps.
fn read_places(rt: &HostRuntime, around: Option<&str>) -> Result<Vec<u32>, ExitCode> {
    let Some(text) = around else {
        return Ok(Vec::new(rt.alloc()));
    };
    match places_in(rt.alloc(), text.as_bytes()) {
        Ok(Some(places)) => Ok(places),
        Ok(None) => Err(refuse_because(rt, NO_PLACES, text.as_bytes())),
        Err(_) => Err(refuse(rt, &Refusal::Memory)),
    }
}

fn page_wide<const W: usize>(rt: &HostRuntime, plan: &Plan<'_>, program: &Program<'_>) -> ExitCode
    requires width { W ≡ lanes_of program.now.options.width }
    requires range { AreInRange program.now.options }
{
    let (source, input) = (plan.texts.source.text, plan.texts.input.text);
    match open_session::<W>(rt.alloc(), source, input, &program.options) {
        Err(refusal) => refuse_program(rt, &refusal, program, plan.texts),
        Ok(mut session) => {
            do_lines(plan.commands, &mut session);
            if !goes_to_first::<W>(plan.page.from, &mut session) {
                return refuse_because(rt, NOT_SO_FAR, b"");
            }
            page_session::<W>(rt, plan, &mut session)
        }
    }
}

/// Does the steps before the first one that is told of: whether the run gets so far.
pub(crate) fn goes_to_first<const W: usize>(from: u32, session: &mut ProgramSession<W>) -> bool {
    if from <= 1 {
        return true;
    }
    let answer = session.do_command(Command::Step(from - 1));
    matches!(answer, Answer::Here) && session.machine().position().is_some()
}

/// Writes the page of a session, to the file that is named or to standard output.
fn page_session<const W: usize>(
    rt: &HostRuntime,
    plan: &Plan<'_>,
    session: &mut ProgramSession<W>,
) -> ExitCode {
    let Some(path) = plan.page.to else {
        return page_on::<W, _>(rt, plan, rt.stdout(), session);
    };
    match fs::create(rt, path) {
        Ok(file) => page_on::<W, _>(rt, plan, file, session),
        Err(fault) => refuse_file(rt, b"cannot write ", path, reason(fault.kind())),
    }
}

/// Writes the page of a session on a writer.
fn page_on<const W: usize, O: Write + Drop>(
    rt: &HostRuntime,
    plan: &Plan<'_>,
    file: O,
    session: &mut ProgramSession<W>,
) -> ExitCode {
    let Ok(lines) = LineWriter::new(rt.alloc(), file) else {
        return refuse(rt, &Refusal::Memory);
    };
    let subject = plan.subject();
    let (front, rest) = (front_parts(), rest_parts());
    let viewer = Viewer {
        front: &front,
        rest: &rest,
    };
    let mut writer = Counted::new(StreamWriter::new(lines));
    match write_page(rt.alloc(), session, &subject, &viewer, &mut writer) {
        Err(_) => refuse(rt, &Refusal::Memory),
        Ok(written) if written.end == PageEnd::WriteFault => write_fault(rt),
        Ok(written) => {
            let last = u64::from(subject.first_number) + u64::from(subject.most_steps);
            let viewer_bytes = length_of(viewer.front).saturating_add(length_of(viewer.rest));
            tell_size(rt, last, written, writer.bytes, viewer_bytes, session);
            ExitCode::SUCCESS
        }
    }
}

/// What a page is asked for, with the texts of its files, the source as it is shown, and the steps that `--around` names.
#[derive(Drop)]
struct Plan<'a> {
    page: &'a RunPage<'a>,
    texts: Texts<'a>,
    shown: &'a [u8],
    commands: &'a [u8],
    places: &'a [u32],
}

impl Plan<'_> {
    /// What the page is of. It goes as far as its moments may lie apart.
    fn subject(&self) -> Subject<'_> {
        Subject {
            title: self.texts.source.name,
            source: self.shown,
            first_number: self.page.from,
            most_steps: self.page.most.saturating_mul(self.page.each),
            most_words: self.page.elements,
            each: self.page.each,
            around: self.places,
        }
    }
}
