//! Where a run begins.
ghost use Rattle.std.specs.Prelude.{◌≡◌};
ghost use Rattle.gang_model.specs.Debugger.Debugger.{Debugger, Setting};
ghost use Rattle.debug_session.specs.Sessions.{StandsFor};
ghost use Rattle.conditional_stops.specs.Reasons.{Asks, breakpoints_here};
ghost use Rattle.log_points.specs.Points.{no_text, written_of};
ghost use Rattle.log_points.specs.Writing.{WritesHere};
ghost use Rattle.adapter_session.specs.Terms.{terms_of};

use crate::terms::Terms;
use conditional_stops::{CountedStop, ask_breakpoints};
use debug_session::Session;
use frame_expressions::ExpressionMachine;
use log_points::{Written, write_here};
use std::alloc::Global;

/// What the breakpoints come to on the line of the next step.
#[derive(Drop)]
pub struct Beginning {
    /// The first that counts, if one does.
    pub first: Option<CountedStop>,
    /// The texts of those that write one.
    pub written: Written,
}

/// The first breakpoint on the line of the next step that counts, if one does, and the texts of those that write one. Memory is wanted
/// to read conditions, and for texts.
pub fn stop_at_beginning<M: ExpressionMachine>(
    alloc: Global,
    terms: &mut Terms,
    session: &Session<M>,
) -> Beginning
    ensures asks { (s : Setting) (d : Debugger) → StandsFor M.stands session.now s d
        → Asks s d (breakpoints_here s d d.stops) (terms_of terms.old).left result.first (terms_of terms.new).left }
    ensures writes { (s : Setting) (d : Debugger) → StandsFor M.stands session.now s d
        → WritesHere s d (terms_of terms.old).logs (terms_of terms.old).log_left no_text (terms_of terms.new).log_left (written_of result.written) }
    ensures asked { (terms_of terms.new).asked ≡ (terms_of terms.old).asked }
    ensures functions { (terms_of terms.new).functions ≡ (terms_of terms.old).functions }
    ensures logs { (terms_of terms.new).logs ≡ (terms_of terms.old).logs }
    ensures entry { (terms_of terms.new).entry ≡ (terms_of terms.old).entry }
{
    let first = ask_breakpoints(alloc, &mut terms.left, session);
    let mut written = Written::new(alloc);
    write_here(alloc, &mut terms.logs, session, &mut written);
    Beginning { first, written }
}
