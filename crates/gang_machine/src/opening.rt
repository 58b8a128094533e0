//! A machine before the first step of a program.
ghost use Rattle.std.specs.Prelude.{◌≡◌, ℕ, ◌+◌, ◌*◌, ◌≤◌, List, sum, IfOk};
ghost use Rattle.gang_types.specs.Masks.{IsGangWidth};
ghost use Rattle.gang_model.specs.Types.Tree.{Function};
ghost use Rattle.gang_model.specs.Debugger.Debugger.{fresh, step_lines};
ghost use Rattle.gang_model.specs.Debugger.Events.{Row};
ghost use Rattle.gang_model.specs.Texts.Transcript.{setting};
ghost use Rattle.machine_states.specs.Cells.{cells_of};
ghost use Rattle.machine_states.specs.Nesting.{most_levels};
ghost use Rattle.codegen.specs.Programs.{IsRunnable};
ghost use Rattle.typed_tree.specs.Views.{program_view};
ghost use Rattle.gang_memory.specs.Layouts.{layout_sizes};
ghost use Rattle.gang_memory.specs.Ranges.{sizes_of};
ghost use Rattle.machine_words.specs.Ranges.{head_sizes, machine_sizes};
ghost use Rattle.machine_steps.specs.Beginning.{MayBegin};
ghost use Rattle.gang_machine.specs.Openings.{IsNew, IsPrepared, MayOpen};
ghost use Rattle.gang_machine.specs.Standings.{Stands};

use crate::machine::Machine;
use crate::mover::Mover;
use codegen::{cells, compile};
use expression_runs::Stacks;
use frame_steps::CompiledProgram;
use gang_memory::{Layout, Recorded};
use gang_types::FuncId;
use input_rows::InputRow;
use machine_names::step_lines;
use machine_steps::{entry_lengths, start};
use machine_words::MachineWords;
use std::alloc::{AllocError, Global};
use typed_tree::Program;
use undo_log::Timeline;

/// How many words the machine has itself: the number of frames.
const OWN: [usize; 1] = [1];

/// The sizes of the parts of a frame's head, where so many foreach forms stand in one another.
fn head_sizes<const W: usize>(alloc: Global, levels: usize) -> Result<Vec<usize>, AllocError>
    ensures { IfOk result (λ sizes. sizes.items ≡ head_sizes W levels) }
{
    let mut sizes = Vec::from_array(alloc, [1, 1, 1, W, 1, W])?;
    for _ in 0..levels {
        sizes.push(1)?;
        sizes.push(9)?;
        sizes.push(W)?;
        sizes.push(W)?;
    }
    Ok(sizes)
}

/// A program with its code, the lines of its steps, and where its words lie at a width. It says how large a record a machine of it
/// needs, before one is opened.
#[derive(Drop)]
pub struct PreparedProgram {
    pub compiled: CompiledProgram,
    pub lines: Vec<u32>,
    pub layout: Layout,
}

impl PreparedProgram {
    /// Prepares a program for a gang of this width, whose entry is given arrays as long as these rows of an input.
    ///
    /// # Errors
    ///
    /// Out of memory, also where the words would be more than a `usize` counts.
    pub fn new<const W: usize>(
        alloc: Global,
        program: Program,
        entry: FuncId,
        rows: &[InputRow],
    ) -> Result<Self, AllocError>
        requires width { IsGangWidth W }
        requires runnable { IsRunnable program }
        ensures prepared { IfOk result (IsPrepared W) }
        ensures program { IfOk result (λ prepared. prepared.compiled.program ≡ program) }
        ensures rows { (f : Function) (given : List Row) → MayBegin program entry.0 f given rows.now
            → IfOk result (λ prepared. MayOpen prepared entry.0 f given rows.now) }
    {
        let lines = step_lines(alloc, &program.functions)?;
        let code = compile(alloc, &program)?;
        let lengths = entry_lengths(alloc, &program, entry.0, rows)?;
        let head = head_sizes::<W>(alloc, code.levels)?;
        let layout = Layout::plan::<W>(alloc, &program, &lengths, &OWN, &head)?;
        let compiled = CompiledProgram { program, code };
        Ok(PreparedProgram {
            compiled,
            lines,
            layout,
        })
    }

    /// How many words a machine has.
    pub fn words(&self) -> usize
        ensures layout { result ≡ self.now.layout.words }
        ensures sizes { (width : ℕ) → IsPrepared width self.now → result ≡ sum (layout_sizes width self.now.compiled.program (sizes_of self.now.layout.entry.items) machine_sizes (head_sizes width (most_levels (program_view self.now.compiled.program)))) }
    {
        self.layout.words
    }

    /// The most words that one event sets: a step, or a poke.
    pub fn cells<const W: usize>(&self) -> usize
        requires width { IsGangWidth W }
        requires prepared { IsPrepared W self.now }
        ensures exact { result ≡ cells_of W (program_view self.now.compiled.program) }
        ensures few { result ≤ 9 * W + 16 }
    {
        cells(&self.compiled.code, W)
    }
}

/// A machine before the first step of a program's entry, which these rows of an input are given to, over a new record of any kind that has
/// room for what one event sets. All memory that it needs is taken by then.
///
/// # Errors
///
/// Out of memory.
pub fn open<const W: usize, T: Timeline + Drop>(
    alloc: Global,
    prepared: PreparedProgram,
    entry: FuncId,
    rows: &[InputRow],
    timeline: T,
) -> Result<Machine<W, T>, AllocError>
    requires width { IsGangWidth W }
    requires prepared { IsPrepared W prepared }
    requires rows { (f : Function) × (given : List Row) × MayOpen prepared entry.0 f given rows.now }
    requires fresh { IsNew prepared.layout.words (T.history timeline) }
    requires limit { 1 ≤ (T.history timeline).limit }
    requires room { cells_of W (program_view prepared.compiled.program) ≤ (T.history timeline).room }
    ensures { (f : Function) (given : List Row) → MayOpen prepared entry.0 f given rows.now → IfOk result (λ machine. (steps : ℕ) → Stands machine
        (setting (program_view prepared.compiled.program) entry.0 given (record { width = W; history = (T.history timeline).limit; steps = steps }))
        (fresh (T.history timeline).limit)) }
{
    let stacks = Box::new(alloc, Stacks::new())?;
    Ok(started::<W, T>(prepared, entry, rows, timeline, stacks))
}

/// The machine before the first step of the entry.
fn started<const W: usize, T: Timeline + Drop>(
    prepared: PreparedProgram,
    entry: FuncId,
    rows: &[InputRow],
    timeline: T,
    stacks: Box<Stacks<W>>,
) -> Machine<W, T>
    requires width { IsGangWidth W }
    requires prepared { IsPrepared W prepared }
    requires rows { (f : Function) × (given : List Row) × MayOpen prepared entry.0 f given rows.now }
    requires fresh { IsNew prepared.layout.words (T.history timeline) }
    requires limit { 1 ≤ (T.history timeline).limit }
    requires room { cells_of W (program_view prepared.compiled.program) ≤ (T.history timeline).room }
    ensures { (f : Function) (given : List Row) → MayOpen prepared entry.0 f given rows.now → (steps : ℕ) → Stands result
        (setting (program_view prepared.compiled.program) entry.0 given (record { width = W; history = (T.history timeline).limit; steps = steps }))
        (fresh (T.history timeline).limit) }
{
    let PreparedProgram {
        compiled,
        lines,
        layout,
    } = prepared;
    let store = Recorded { timeline };
    let mut words = MachineWords { layout, store };
    start::<W, T>(&compiled, entry.0, rows, &mut words);
    Machine {
        entry: entry.0,
        compiled,
        lines,
        words,
        mover: Mover::new(stacks),
    }
}
