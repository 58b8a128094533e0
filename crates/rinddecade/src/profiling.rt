//! The profile of a run, to a file or to standard output.
ghost use Rattle.std.specs.Prelude.{◌≡◌};
ghost use Rattle.ispc_options.specs.Ranges.{AreInRange};
ghost use Rattle.ispc_debugger.specs.Runs.{lanes_of};

use crate::files::{read_texts, reason};
use crate::overwriting::is_read;
use crate::paging::NOT_SO_FAR;
use crate::porting::holds_something;
use crate::refusing::{Texts, refuse, refuse_because, refuse_file, refuse_program, write_fault};
use crate::terminal::has_colours;
use debug_streams::StreamWriter;
use debug_traits::{RecordedMachine, WriteFault};
use desk_options::{Profile, Program};
use element_accesses::Accesses;
use frame_expressions::ExpressionMachine;
use ispc_debugger::open_machine;
use ispc_options::{Options, Width};
use ispc_refusals::Refusal;
use lane_counts::Tally;
use lane_meetings::Meetings;
use lane_picture::StepsEnd;
use lane_profile::{count_run, do_steps};
use profile_texts::{
    Compared, ComparedRun, Counted as Told, Form, Subject, write_comparison, write_profile,
};
use std::alloc::{AllocError, Global};
use std::fs;
use std::io::{IsTerminal, LineWriter, Write};
use std::process::ExitCode;

const OVER_SOURCE: &[u8] = b"the profile would be written over what it is made from: ";

const OVER_OTHER: &[u8] = b"only --force writes over a file that holds something: ";

const ONE_FORM: &[u8] = b"only one of --by, --annotate, --json and --compare may be given";

const NO_ROWS: &[u8] = b"--by takes line, function, form, access or parting, and not ";

/// What is shown.
#[derive(Clone, Copy, Debug, PartialEq, Eq)]
enum Shown {
    /// One run, in a form.
    Run(Form),
    /// Runs by gangs of all widths.
    Widths,
}

/// What was counted.
#[derive(Drop)]
enum Counted {
    Run(Form, Run),
    Widths(Run, Run, Run),
}

/// The counts of a run, and how it ended.
#[derive(Drop)]
struct Run {
    tally: Tally,
    accesses: Accesses,
    meetings: Meetings,
    end: StepsEnd,
}

impl Run {
    /// What is compared of it.
    fn compared(&self) -> ComparedRun<'_> {
        ComparedRun {
            tally: &self.tally,
            end: self.end,
        }
    }
}

/// Profiles the run of a program. What the words ask for is judged first, then the source is read, and the input after it.
pub(crate) fn profile_run(rt: &HostRuntime, profile: &Profile<'_>) -> ExitCode
    requires { AreInRange profile.now.program.options }
{
    let shown = match shown_as(rt, profile) {
        Ok(shown) => shown,
        Err(status) => return status,
    };
    let is_terminal = profile.to.is_none() && rt.stdout().is_terminal();
    let is_coloured = match has_colours(rt, profile.color, is_terminal) {
        Ok(is_coloured) => is_coloured,
        Err(status) => return status,
    };
    if let Err(status) = refuse_writing_over(rt, profile) {
        return status;
    }
    let (source, input) = match read_texts(rt, profile.program.source, profile.program.input) {
        Ok(texts) => texts,
        Err(status) => return status,
    };
    let texts = Texts::new(profile.program.source, source.as_slice(), input.as_slice());
    let counted = match shown {
        Shown::Run(form) => count_run_of(rt, profile, form, texts),
        Shown::Widths => count_widths(rt, profile, texts),
    };
    match counted {
        Ok(counted) => write_counted(rt, profile, is_coloured, texts, &counted),
        Err(status) => status,
    }
}

/// Counts the run that is asked for.
fn count_run_of(
    rt: &HostRuntime,
    profile: &Profile<'_>,
    form: Form,
    texts: Texts<'_>,
) -> Result<Counted, ExitCode>
    requires { AreInRange profile.now.program.options }
{
    let is_touching = form == Form::Accesses || form == Form::Json;
    match count(
        rt,
        profile,
        profile.program.options.width,
        is_touching,
        texts,
    ) {
        Ok(run) => Ok(Counted::Run(form, run)),
        Err(status) => Err(status),
    }
}

/// Counts the runs by gangs of all widths.
fn count_widths(
    rt: &HostRuntime,
    profile: &Profile<'_>,
    texts: Texts<'_>,
) -> Result<Counted, ExitCode>
    requires { AreInRange profile.now.program.options }
{
    let four = match count(rt, profile, Width::Four, false, texts) {
        Ok(run) => run,
        Err(status) => return Err(status),
    };
    let eight = match count(rt, profile, Width::Eight, false, texts) {
        Ok(run) => run,
        Err(status) => return Err(status),
    };
    match count(rt, profile, Width::Sixteen, false, texts) {
        Ok(sixteen) => Ok(Counted::Widths(four, eight, sixteen)),
        Err(status) => Err(status),
    }
}

/// What the words ask to show, or the status where they ask for two things.
fn shown_as(rt: &HostRuntime, profile: &Profile<'_>) -> Result<Shown, ExitCode> {
    match (profile.by, profile.annotate, profile.json, profile.compare) {
        (None, false, false, false) => Ok(Shown::Run(Form::Lines)),
        (Some("line"), false, false, false) => Ok(Shown::Run(Form::Lines)),
        (Some("function"), false, false, false) => Ok(Shown::Run(Form::Functions)),
        (Some("form"), false, false, false) => Ok(Shown::Run(Form::Forms)),
        (Some("access"), false, false, false) => Ok(Shown::Run(Form::Accesses)),
        (Some("parting"), false, false, false) => Ok(Shown::Run(Form::Partings)),
        (Some(other), false, false, false) => Err(refuse_because(rt, NO_ROWS, other.as_bytes())),
        (None, true, false, false) => Ok(Shown::Run(Form::Annotated)),
        (None, false, true, false) => Ok(Shown::Run(Form::Json)),
        (None, false, false, true) => Ok(Shown::Widths),
        _ => Err(refuse_because(rt, ONE_FORM, b"")),
    }
}

/// Refuses to write over the files that the profile is made from, and over another that holds something, unless that is asked for.
fn refuse_writing_over(rt: &HostRuntime, profile: &Profile<'_>) -> Result<(), ExitCode> {
    let Some(path) = profile.to else {
        return Ok(());
    };
    if is_read(rt, path, &profile.program, None) {
        return Err(refuse_because(rt, OVER_SOURCE, path.as_bytes()));
    }
    if !profile.force && holds_something(rt, path) {
        return Err(refuse_because(rt, OVER_OTHER, path.as_bytes()));
    }
    Ok(())
}

/// Counts the run by a gang of a width, and what its accesses touch if that is asked for.
fn count(
    rt: &HostRuntime,
    profile: &Profile<'_>,
    width: Width,
    is_touching: bool,
    texts: Texts<'_>,
) -> Result<Run, ExitCode>
    requires { AreInRange profile.now.program.options }
{
    let asked = profile.program.options;
    let program = Program {
        source: profile.program.source,
        input: profile.program.input,
        options: Options {
            width,
            history: asked.history,
            steps: asked.steps,
            entry: asked.entry,
            lane_pure: asked.lane_pure,
        },
    };
    match program.options.width {
        Width::Four => count_wide::<4>(rt, &program, profile, is_touching, texts),
        Width::Eight => count_wide::<8>(rt, &program, profile, is_touching, texts),
        Width::Sixteen => count_wide::<16>(rt, &program, profile, is_touching, texts),
    }
}

fn count_wide<const W: usize>(
    rt: &HostRuntime,
    program: &Program<'_>,
    profile: &Profile<'_>,
    is_touching: bool,
    texts: Texts<'_>,
) -> Result<Run, ExitCode>
    requires width { W ≡ lanes_of program.now.options.width }
    requires range { AreInRange program.now.options }
{
    let (source, input) = (texts.source.text, texts.input.text);
    match open_machine::<W>(rt.alloc(), source, input, &program.options) {
        Err(refusal) => Err(refuse_program(rt, &refusal, program, texts)),
        Ok(mut machine) => {
            if !goes_to_first(profile.from, program.options.steps, &mut machine) {
                return Err(refuse_because(rt, NOT_SO_FAR, b""));
            }
            match run_counted(rt.alloc(), is_touching, profile.most, &mut machine) {
                Ok(run) => Ok(run),
                Err(_) => Err(refuse(rt, &Refusal::Memory)),
            }
        }
    }
}

/// Does the steps before the first one that is counted, so many at most: whether the run gets so far.
fn goes_to_first<M: RecordedMachine>(from: u32, most_steps: u32, machine: &mut M) -> bool {
    let steps = from.saturating_sub(1);
    steps <= most_steps && matches!(do_steps(machine, steps), StepsEnd::StepLimit)
}

/// The counts of the run of a machine, with those of its accesses if they are asked for.
fn run_counted<M: ExpressionMachine>(
    alloc: Global,
    is_touching: bool,
    most: u32,
    machine: &mut M,
) -> Result<Run, AllocError> {
    let mut accesses = if is_touching {
        Accesses::of(alloc, machine.program())?
    } else {
        Accesses::none(alloc)
    };
    let (tally, end, meetings) = count_run(alloc, machine, &mut accesses, most)?;
    Ok(Run {
        tally,
        accesses,
        meetings,
        end,
    })
}

/// Writes what was counted, to the file that is named or to standard output.
fn write_counted(
    rt: &HostRuntime,
    profile: &Profile<'_>,
    is_coloured: bool,
    texts: Texts<'_>,
    counted: &Counted,
) -> ExitCode {
    let Some(path) = profile.to else {
        return write_on(rt, profile, is_coloured, texts, counted, rt.stdout());
    };
    match fs::create(rt, path) {
        Ok(file) => write_on(rt, profile, is_coloured, texts, counted, file),
        Err(fault) => refuse_file(rt, b"cannot write ", path, reason(fault.kind())),
    }
}

/// Writes what was counted on a writer.
fn write_on<O: Write + Drop>(
    rt: &HostRuntime,
    profile: &Profile<'_>,
    is_coloured: bool,
    texts: Texts<'_>,
    counted: &Counted,
    file: O,
) -> ExitCode {
    let Ok(lines) = LineWriter::new(rt.alloc(), file) else {
        return refuse(rt, &Refusal::Memory);
    };
    let mut writer = StreamWriter::new(lines);
    let written = match counted {
        Counted::Run(form, run) => {
            let subject = Subject {
                title: texts.source.name,
                source: texts.source.text,
                width: width_of(profile.program.options.width),
                first_number: profile.from,
                most_rows: profile.top as usize,
                has_colours: is_coloured,
            };
            let told = Told {
                tally: &run.tally,
                accesses: run.accesses.rows(),
                partings: run.meetings.rows(),
                end: run.end,
            };
            write_profile(rt.alloc(), *form, &told, &subject, &mut writer)
        }
        Counted::Widths(four, eight, sixteen) => {
            let compared = Compared {
                four: four.compared(),
                eight: eight.compared(),
                sixteen: sixteen.compared(),
                first_number: profile.from,
                has_colours: is_coloured,
            };
            write_comparison(rt.alloc(), compared, texts.source.text, &mut writer)
        }
    };
    judged(rt, written)
}

/// The status of a text that was not written.
fn judged(rt: &HostRuntime, written: Result<Result<(), WriteFault>, AllocError>) -> ExitCode {
    match written {
        Ok(Ok(())) => ExitCode::SUCCESS,
        Ok(Err(_)) => write_fault(rt),
        Err(_) => refuse(rt, &Refusal::Memory),
    }
}

fn width_of(width: Width) -> usize {
    match width {
        Width::Four => 4,
        Width::Eight => 8,
        Width::Sixteen => 16,
    }
}
