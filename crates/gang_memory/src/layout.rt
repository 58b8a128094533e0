//! Where every word of a program lies.
ghost use Rattle.std.specs.Prelude.{◌≡◌, ◌+◌, ◌≤◌, All, IfOk, length, map, sum};
ghost use Rattle.gang_types.specs.Masks.{IsGangWidth};
ghost use Rattle.gang_memory.specs.Layouts.{IsLayoutOf, global_words, most_variables};
ghost use Rattle.gang_memory.specs.Ranges.{ranges_from};

use crate::frames::{Frames, MOST_FRAMES};
use crate::parts::Part;
use crate::scalars::word_count;
use std::alloc::{AllocError, Global};
use typed_tree as tree;

/// Where the words of a program lie, one range behind the other: the variables of the file, the entry's arrays, the parts
/// that the machine asks for itself, and the frames. It follows from the program, and no run changes it.
#[derive(Drop)]
pub struct Layout {
    pub file: Vec<Part>,
    pub entry: Vec<Part>,
    pub machine: Vec<Part>,
    pub frames: Frames,
    pub words: usize,
}

impl Layout {
    /// The layout of a program whose entry has arrays of these lengths, with parts of these sizes for the machine itself and
    /// for the head of each frame.
    ///
    /// # Errors
    ///
    /// Out of memory, also where the words would be more than a `usize` counts.
    pub fn plan<const W: usize>(
        alloc: Global,
        program: &tree::Program,
        lengths: &[usize],
        machine: &[usize],
        head: &[usize],
    ) -> Result<Self, AllocError>
        requires { IsGangWidth W }
        ensures { IfOk result (IsLayoutOf W program.now lengths.now machine.now head.now) }
    {
        let sizes = global_sizes::<W>(alloc, &program.globals)?;
        let file = lay_out(alloc, 0, &sizes)?;
        let entry = lay_out(alloc, file.end, lengths)?;
        let own = lay_out(alloc, entry.end, machine)?;
        let head = lay_out(alloc, 0, head)?;
        let frames = Frames {
            first: own.end,
            head: head.parts,
            head_words: head.end,
            variables: most_variables(&program.functions),
            count: MOST_FRAMES,
        };
        let Some(words) = frames.end::<W>() else {
            return Err(AllocError);
        };
        Ok(Layout {
            file: file.parts,
            entry: entry.parts,
            machine: own.parts,
            frames,
            words,
        })
    }
}

// Ranges one behind the other, and the first word behind them.
#[derive(Drop)]
struct Laid {
    parts: Vec<Part>,
    end: usize,
}

// Ranges of these sizes, from word `first` on.
fn lay_out(alloc: Global, first: usize, sizes: &[usize]) -> Result<Laid, AllocError>
    ensures ranges { IfOk result (λ laid. laid.parts.items ≡ ranges_from first sizes.now) }
    ensures end { IfOk result (λ laid. laid.end ≡ first + sum sizes.now) }
{
    let mut parts = Vec::new(alloc);
    let mut next = first;
    for &len in sizes {
        let Some(end) = next.checked_add(len) else {
            return Err(AllocError);
        };
        parts.push(Part { first: next, len })?;
        next = end;
    }
    Ok(Laid { parts, end: next })
}

// How many words each variable of the file has.
fn global_sizes<const W: usize>(
    alloc: Global,
    globals: &[tree::Global],
) -> Result<Vec<usize>, AllocError>
    ensures { IfOk result (λ sizes. sizes.items ≡ map (global_words W) globals.now) }
{
    let mut sizes = Vec::new(alloc);
    for global in globals {
        sizes.push(global_size::<W>(global))?;
    }
    Ok(sizes)
}

// How many words a variable of the file has.
fn global_size<const W: usize>(global: &tree::Global) -> usize
    ensures { result ≡ global_words W global.now }
{
    if global.variable.is_array {
        global.length as usize
    } else {
        word_count::<W>(global.variable.rate)
    }
}

// The most variables that a function has.
fn most_variables(functions: &[tree::Function]) -> usize
    ensures most { result ≡ most_variables functions.now }
    ensures enough { All (λ f. length f.variables.items ≤ result) functions.now }
{
    let mut most = 0;
    for function in functions {
        most = most.max(function.variables.len());
    }
    most
}
