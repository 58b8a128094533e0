//! Where the words of a variable stand that are shown.
ghost use Rattle.std.specs.Prelude.{◌≡◌, ◌<◌, None, Some, IfSome};
ghost use Rattle.gang_types.specs.Masks.{IsGangWidth};
ghost use Rattle.typed_tree.specs.Views.{variable_view};
ghost use Rattle.machine_words.specs.Words.{AreLaid, regions_in};
ghost use Rattle.frame_steps.specs.Standing.{AreSound};
ghost use Rattle.machine_shown.specs.Frames.{regions_up_to};
ghost use Rattle.machine_shown.specs.ShownWords.{HasNoWords, HasWords, count_shown, has_part, shown_of, shown_view};

use crate::frames::step_at;
use frame_steps::{CompiledProgram, region_of};
use gang_types::{Rate, VarId};
use machine_words::{MachineWords, Region, View};
use typed_tree::Variable;
use undo_log::Timeline;

/// The words of a variable that are shown: those of a scalar, the first of a region, or the elements of a part of an array.
#[derive(Clone, Copy)]
pub(crate) enum ShownWords {
    Scalar { region: Region, rate: Rate },
    Elements(View),
}

impl ShownWords {
    /// How many they are.
    pub(crate) fn count<const W: usize>(self) -> usize
        ensures { result ≡ count_shown W (shown_view self) }
    {
        match self {
            ShownWords::Scalar { region: _, rate } => match rate {
                Rate::Uniform => 1,
                Rate::Varying => W,
            },
            ShownWords::Elements(view) => view.len,
        }
    }

    /// Whether one of them can be set by itself: a lane of a varying scalar, or an element.
    pub(crate) fn has<const W: usize>(self, index: usize) -> bool
        ensures { result ≡ has_part W (shown_view self) (Some index) }
    {
        match self {
            ShownWords::Scalar { region: _, rate } => match rate {
                Rate::Uniform => false,
                Rate::Varying => index < W,
            },
            ShownWords::Elements(view) => index < view.len,
        }
    }
}

/// The words of the variable of the file, or of the function of the frame at a depth, that has this number.
pub(crate) fn find_shown<const W: usize, T: Timeline + Drop>(
    compiled: &CompiledProgram,
    words: &MachineWords<T>,
    depth: usize,
    id: VarId,
) -> Option<ShownWords>
    requires sound { AreSound T.history W compiled.now words.now }
    ensures found { IfSome result (λ shown. HasWords W compiled.now (regions_up_to depth (regions_in T.history W words.now)) id (shown_view shown)) }
    ensures none { result ≡ None → HasNoWords W compiled.now (regions_up_to depth (regions_in T.history W words.now)) id }
{
    match id {
        VarId::File(number) => {
            let global = compiled.program.globals.get(number)?;
            Some(shown_words::<W, T>(words, 0, id, &global.variable))
        }
        VarId::Local(number) => {
            let active = step_at::<W, T>(compiled, words, depth)?;
            let function = &compiled.program.functions[active.function];
            let variable = function.variables.get(number)?;
            Some(shown_words::<W, T>(words, active.frame, id, variable))
        }
    }
}

/// The words of a variable of a frame, or of the file.
fn shown_words<const W: usize, T: Timeline + Drop>(
    words: &MachineWords<T>,
    frame: usize,
    id: VarId,
    variable: &Variable,
) -> ShownWords
    requires width { IsGangWidth W }
    requires laid { AreLaid T.history W words.now }
    requires there { frame < 64 }
    ensures { shown_view result ≡ shown_of (regions_in T.history W words.now) frame id (variable_view variable.now) }
{
    if variable.is_array {
        ShownWords::Elements(words.view::<W>(frame, id))
    } else {
        ShownWords::Scalar {
            region: region_of(frame, id),
            rate: variable.rate,
        }
    }
}
