//! A session is opened: a source is compiled, its input is read, and a machine stands at the first step.
ghost use Rattle.std.specs.Prelude.{◌≡◌, ◌⊎◌, ℕ, List, Option, Some, Ok, IfOk, IfErr, option_map};
ghost use Rattle.gang_types.specs.Masks.{IsGangWidth};
ghost use Rattle.gang_model.specs.Debugger.Debugger.{fresh};
ghost use Rattle.gang_model.specs.Debugger.Events.{Row};
ghost use Rattle.gang_model.specs.Source.Parsed.{Name};
ghost use Rattle.gang_model.specs.Texts.InputText.{rows_of};
ghost use Rattle.gang_model.specs.Texts.Transcript.{setting};
ghost use Rattle.gang_model.specs.Types.Tree.{Function, Program as ModelProgram};
ghost use Rattle.typed_tree.specs.Views.{program_view};
ghost use Rattle.debug_session.specs.Sessions.{StandsFor};
ghost use Rattle.machine_steps.specs.Beginning.{MayBegin};
ghost use Rattle.codegen.specs.Programs.{IsRunnable};
ghost use Rattle.gang_machine.specs.Standings.{Stands};
ghost use Rattle.ispc_compiler.specs.Front.{Compiles};
ghost use Rattle.ispc_options.specs.Ranges.{AreInRange};
ghost use Rattle.ispc_debugger.specs.Records.{Fit};
ghost use Rattle.ispc_debugger.specs.Runs.{AreAcceptedAs, AreAcceptedOnce, AreNotAccepted, IsRight, IsRightForInput, asked_of, lanes_of, options_view, told};

use crate::records::NewRecord;
use debug_inputs::{InputFault, read_inputs};
use debug_session::Session;
use gang_machine::{Machine, PreparedProgram, open};
use input_rows::InputRow;
use ispc_compiler::{Compiled, compile_source};
use ispc_options::Options;
use ispc_refusals::Refusal;
use source_answers::SourceFault;
use std::alloc::{AllocError, Global};
use undo_log::DeltaRing;

/// A debugger over a program at a width, which keeps the old words of each event.
pub type ProgramSession<const W: usize> = Session<Machine<W, DeltaRing>>;

/// A debugger before the first step of a source, with no breakpoint or watch. It begins with the exported function of the name
/// that the options ask for, or with the first exported one where they ask for none, and with the rows of the input. The width
/// is that of the options, which also say how many events it keeps, and how many moves one forward command may do.
///
/// # Errors
///
/// Why there is no such session: the source, the entry that is asked for, the input, in this order, or out of memory.
pub fn open_session<const W: usize>(
    alloc: Global,
    source: &[u8],
    input: &[u8],
    options: &Options<'_>,
) -> Result<ProgramSession<W>, Refusal>
    requires width { W ≡ lanes_of options.now.width }
    requires range { AreInRange options.now }
    ensures opened { IfOk result (λ session. (program : ModelProgram) × (entry : ℕ) × (rows : List Row)
        × AreAcceptedAs source.now (asked_of options.now) input.now program entry rows
        × StandsFor Stands session (setting program entry rows (options_view options.now)) (fresh options.now.history)) }
    // The source and the input have no other program, entry and rows.
    ensures one { AreAcceptedOnce source.now (asked_of options.now) input.now }
    ensures refused { IfErr result (IsRight source.now (asked_of options.now) input.now) }
    // Where they are refused they have none, unless memory ran out.
    ensures none { IfErr result (λ refusal. (refusal ≡ Refusal.Memory) ⊎ AreNotAccepted source.now (asked_of options.now) input.now) }
{
    open_session_over::<W, DeltaRing>(alloc, source, input, options)
}

/// Such a session over a record of any kind.
pub(crate) fn open_session_over<const W: usize, T: NewRecord>(
    alloc: Global,
    source: &[u8],
    input: &[u8],
    options: &Options<'_>,
) -> Result<Session<Machine<W, T>>, Refusal>
    requires width { W ≡ lanes_of options.now.width }
    requires range { AreInRange options.now }
    requires fits { Fit W.row T.row T.Timeline }
    ensures opened { IfOk result (λ session. (program : ModelProgram) × (entry : ℕ) × (rows : List Row)
        × AreAcceptedAs source.now (asked_of options.now) input.now program entry rows
        × StandsFor Stands session (setting program entry rows (options_view options.now)) (fresh options.now.history)) }
    ensures refused { IfErr result (IsRight source.now (asked_of options.now) input.now) }
{
    let machine = open_machine_over::<W, T>(alloc, source, input, options)?;
    Ok(Session::open(machine, options.steps))
}

/// The machine of such a session.
///
/// # Errors
///
/// Why there is none, as of the session.
pub fn open_machine<const W: usize>(
    alloc: Global,
    source: &[u8],
    input: &[u8],
    options: &Options<'_>,
) -> Result<Machine<W, DeltaRing>, Refusal>
    requires width { W ≡ lanes_of options.now.width }
    requires range { AreInRange options.now }
    ensures opened { IfOk result (λ machine. (program : ModelProgram) × (entry : ℕ) × (rows : List Row)
        × AreAcceptedAs source.now (asked_of options.now) input.now program entry rows
        × Stands machine (setting program entry rows (options_view options.now)) (fresh options.now.history)) }
    // The source and the input have no other program, entry and rows.
    ensures one { AreAcceptedOnce source.now (asked_of options.now) input.now }
    ensures refused { IfErr result (IsRight source.now (asked_of options.now) input.now) }
    // Where they are refused they have none, unless memory ran out.
    ensures none { IfErr result (λ refusal. (refusal ≡ Refusal.Memory) ⊎ AreNotAccepted source.now (asked_of options.now) input.now) }
{
    open_machine_over::<W, DeltaRing>(alloc, source, input, options)
}

/// Such a machine over a record of any kind.
fn open_machine_over<const W: usize, T: NewRecord>(
    alloc: Global,
    source: &[u8],
    input: &[u8],
    options: &Options<'_>,
) -> Result<Machine<W, T>, Refusal>
    requires width { W ≡ lanes_of options.now.width }
    requires range { AreInRange options.now }
    requires fits { Fit W.row T.row T.Timeline }
    ensures opened { IfOk result (λ machine. (program : ModelProgram) × (entry : ℕ) × (rows : List Row)
        × AreAcceptedAs source.now (asked_of options.now) input.now program entry rows
        × Stands machine (setting program entry rows (options_view options.now)) (fresh options.now.history)) }
    ensures refused { IfErr result (IsRight source.now (asked_of options.now) input.now) }
{
    match compile_source(alloc, source, asked_entry(options)) {
        Err(SourceFault::Refused(refusal)) => Err(Refusal::Source(refusal)),
        Err(SourceFault::Memory) => Err(Refusal::Memory),
        Ok(None) => Err(Refusal::NoEntry),
        Ok(Some(compiled)) => open_compiled::<W, T>(alloc, compiled, input, options),
    }
}

/// The bytes of the name of the entry that is asked for, if one is.
fn asked_entry<'a>(options: &Options<'a>) -> Option<&'a [u8]>
    ensures { option_map (λ name. name.now) result ≡ asked_of options.now }
{
    options.entry.map(|name| name.as_bytes())
}

/// The machine of a compiled source at a width, with an input.
fn open_compiled<const W: usize, T: NewRecord>(
    alloc: Global,
    compiled: Compiled,
    input: &[u8],
    options: &Options<'_>,
) -> Result<Machine<W, T>, Refusal>
    requires width { W ≡ lanes_of options.now.width }
    requires compiled { (text : List ℕ) × (asked : Option Name) × Compiles text asked (Some compiled) }
    requires range { AreInRange options.now }
    requires fits { Fit W.row T.row T.Timeline }
    ensures opened { IfOk result (λ machine. (rows : List Row) × (rows_of (program_view compiled.program) compiled.entry.0 input.now ≡ Ok rows)
        × Stands machine (setting (program_view compiled.program) compiled.entry.0 rows (options_view options.now)) (fresh options.now.history)) }
    ensures refused { IfErr result (IsRightForInput (rows_of (program_view compiled.program) compiled.entry.0 input.now)) }
{
    let rows = match read_inputs(alloc, input, &compiled.program, compiled.entry) {
        Ok(rows) => rows,
        Err(fault) => return Err(refused_input(fault)),
    };
    match begun::<W, T>(alloc, compiled, &rows, options) {
        Err(_) => Err(Refusal::Memory),
        Ok(machine) => Ok(machine),
    }
}

/// The refusal of a run whose input has a fault.
fn refused_input(fault: InputFault) -> Refusal
    ensures { result ≡ told fault }
{
    match &fault {
        InputFault::Memory => Refusal::Memory,
        _ => Refusal::Input(fault),
    }
}

/// The machine of a program at a width, before its first step.
fn begun<const W: usize, T: NewRecord>(
    alloc: Global,
    compiled: Compiled,
    rows: &[InputRow],
    options: &Options<'_>,
) -> Result<Machine<W, T>, AllocError>
    requires width { IsGangWidth W }
    requires runnable { IsRunnable compiled.program }
    requires begins { (f : Function) × (given : List Row) × MayBegin compiled.program compiled.entry.0 f given rows.now }
    requires range { AreInRange options.now }
    requires fits { Fit W.row T.row T.Timeline }
    ensures { (f : Function) (given : List Row) → MayBegin compiled.program compiled.entry.0 f given rows.now → IfOk result (λ machine. Stands machine
        (setting (program_view compiled.program) compiled.entry.0 given (record { width = W; history = options.now.history; steps = options.now.steps }))
        (fresh options.now.history)) }
{
    let prepared = PreparedProgram::new::<W>(alloc, compiled.program, compiled.entry, rows)?;
    let timeline = T::with_room(
        alloc,
        prepared.words(),
        options.history as usize,
        prepared.cells::<W>(),
    )?;
    let machine = open::<W, T>(alloc, prepared, compiled.entry, rows, timeline)?;
    Ok(machine)
}
