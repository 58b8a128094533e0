//! Profiles of a run: what is counted, and what is told of it.
use crate::ends::{Ended, end_of};
use crate::runs::machine;
use crate::samples::SOURCE;
use element_accesses::Accesses;
use foreach_forms::forms_of;
use frame_expressions::ExpressionMachine;
use gang_types::{FuncId, Mask, Spot};
use lane_counts::{Gang, StepAt, Tally};
use lane_meetings::Meetings;
use lane_picture::StepsEnd;
use lane_profile::count_run;
use profile_texts::{
    Compared, ComparedRun, Counted, Form, Subject, write_comparison, write_profile,
};
use std::alloc::Global;
use tests_devices::PieceWriter;

/// Makes the call of a name, if there is memory for what it is called on.
pub(crate) fn call(alloc: Global, name: &str) -> Option<Ended> {
    match name {
        "foreach_forms::forms_of" => Some(find_forms(alloc, &machine(alloc)?)),
        "lane_counts::Tally::enter" => Some(enter_frame(alloc)),
        "lane_counts::Tally::note" => Some(note_step(alloc)),
        "element_accesses::Accesses::of" => Some(find_accesses(alloc, &machine(alloc)?)),
        "lane_meetings::Meetings::note" => Some(note_parting(alloc)),
        "lane_meetings::Meetings::finish" => Some(end_of(&parted(alloc)?.finish())),
        "lane_profile::count_run" => Some(count(alloc, &mut machine(alloc)?)),
        "profile_texts::write_profile" => Some(write_table(alloc, &tally(alloc)?)),
        "profile_texts::write_comparison" => Some(compare(alloc, &tally(alloc)?)),
        _ => None,
    }
}

/// Finds the foreach forms of a program.
fn find_forms<M: ExpressionMachine>(alloc: Global, machine: &M) -> Ended {
    end_of(&forms_of(alloc, machine.program()))
}

/// Finds the accesses of a program.
fn find_accesses<M: ExpressionMachine>(alloc: Global, machine: &M) -> Ended {
    end_of(&Accesses::of(alloc, machine.program()))
}

/// Counts a run.
fn count<M: ExpressionMachine>(alloc: Global, machine: &mut M) -> Ended {
    end_of(&count_run(alloc, machine, &mut Accesses::none(alloc), 100))
}

/// Puts one frame below the steps that are counted.
fn enter_frame(alloc: Global) -> Ended {
    end_of(&Tally::new(alloc, Vec::new(alloc)).enter(alloc, b"go"))
}

/// Counts one step.
fn note_step(alloc: Global) -> Ended {
    end_of(&Tally::new(alloc, Vec::new(alloc)).note(alloc, step_of(Mask::none())))
}

/// Notes one step where lanes may part.
fn note_parting(alloc: Global) -> Ended {
    end_of(&Meetings::new(alloc).note(step_of(Mask::all::<4>())))
}

/// Lanes that have parted, if there is memory for them.
fn parted(alloc: Global) -> Option<Meetings> {
    let mut meetings = Meetings::new(alloc);
    meetings.note(step_of(Mask::all::<4>())).ok()?;
    meetings.note(step_of(Mask::only::<4>(1))).ok()?;
    Some(meetings)
}

/// A step that these lanes do.
fn step_of(lanes: Mask) -> StepAt<'static> {
    StepAt {
        line: 4,
        spot: Spot {
            function: FuncId(0),
            number: 1,
        },
        function: b"go",
        depth: 1,
        gang: Gang::Four,
        lanes,
    }
}

/// The counts of the run, if there is memory for them.
fn tally(alloc: Global) -> Option<Tally> {
    match count_run(alloc, &mut machine(alloc)?, &mut Accesses::none(alloc), 100) {
        Ok((tally, _, _)) => Some(tally),
        Err(_) => None,
    }
}

/// Writes the table of lines.
fn write_table(alloc: Global, tally: &Tally) -> Ended {
    let subject = Subject {
        title: b"it.ispc",
        source: SOURCE,
        width: 4,
        first_number: 1,
        most_rows: 100,
        has_colours: true,
    };
    let counted = Counted {
        tally,
        accesses: &[],
        partings: &[],
        end: StepsEnd::Ended,
    };
    let mut writer = PieceWriter::new(512, 512);
    end_of(&write_profile(alloc, Form::Lines, &counted, &subject, &mut writer))
}

/// Writes the shares at three widths.
fn compare(alloc: Global, tally: &Tally) -> Ended {
    let run = ComparedRun {
        tally,
        end: StepsEnd::Ended,
    };
    let compared = Compared {
        four: run,
        eight: run,
        sixteen: run,
        first_number: 1,
        has_colours: false,
    };
    let mut writer = PieceWriter::new(512, 512);
    end_of(&write_comparison(alloc, compared, SOURCE, &mut writer))
}
