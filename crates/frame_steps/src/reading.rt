//! The words of variables, as the top frame reads them.
ghost use Rattle.std.specs.Prelude.{◌≡◌, ℕ, ◌<◌, ◌≤◌, length, slice_index};
ghost use Rattle.gang_types.specs.Masks.{IsGangWidth};
ghost use Rattle.gang_model.specs.Running.Lanes.{at};
ghost use Rattle.expression_instructions.specs.Read.{place_in};
ghost use Rattle.machine_words.specs.Views.{region_view};
ghost use Rattle.machine_words.specs.Words.{AreLaid, regions_in};
ghost use Rattle.machine_words.proofs.Facts.{laid_fact};
ghost use Rattle.frame_steps.specs.Read.{HasRegions};

use expression_instructions::Words;
use gang_types::{FaultName, Mask, Rate, VarId};
use machine_words::{MachineWords, Region};
use typed_tree::Var;
use undo_log::Timeline;

/// The words of the variables of the file and of the frame of this number, declared or not.
#[derive(Drop)]
pub struct TopVariables<'a, const W: usize, T: Timeline + Drop> {
    pub words: &'a MachineWords<T>,
    pub frame: usize,
    pub ghost laid: { AreLaid T.history W words.now } by { laid_fact W words.now.layout (T.history words.now.store.timeline).words },
    pub ghost is_there: { frame < 64 },
}

impl<const W: usize, T: Timeline + Drop> Words<W> for TopVariables<'_, W, T> {
    ghost shows = { λ store state. HasRegions (regions_in T.history W store.words.now) store.frame state };

    #[inline(always)]
    fn words(&self, variable: Var) -> [u64; W] {
        let layout = &self.words.layout;
        match variable.id {
            VarId::File(number) if number < layout.file.len() => {
                let len = layout.file[number].len;
                spread::<W, T>(self.words, Region::File(number), len, variable.rate)
            }
            VarId::Local(number) if number < layout.frames.variables => {
                spread::<W, T>(
                    self.words,
                    Region::Local(self.frame, number),
                    W,
                    variable.rate,
                )
            }
            _ => [0; W],
        }
    }

    fn elements(
        &self,
        array: VarId,
        mask: Mask,
        indices: &[u64; W],
    ) -> Result<[u64; W], (usize, FaultName)> {
        let view = self.words.view::<W>(self.frame, array);
        self.words.elements::<W>(view, mask, *indices)
    }
}

/// The words of a region that has so many, one for each lane; its first one in each lane for a uniform variable. A word that the
/// region does not have is 0.
#[inline(always)]
pub(crate) fn spread<const W: usize, T: Timeline + Drop>(
    words: &MachineWords<T>,
    region: Region,
    len: usize,
    rate: Rate,
) -> [u64; W]
    requires width { IsGangWidth W }
    requires laid { AreLaid T.history W words.now }
    requires long { len ≡ length (regions_in T.history W words.now (region_view region)) }
    ensures { (k : ℕ) → k < W → slice_index result k ≡ at (regions_in T.history W words.now (region_view region)) (place_in rate k) }
{
    match rate {
        Rate::Varying if len == W => words.lanes::<W>(region),
        Rate::Varying => first_words::<W, T>(words, region, len),
        Rate::Uniform if len == 0 => [0; W],
        Rate::Uniform => [words.word::<W>(region, 0); W],
    }
}

/// The words of a region that has so many, and 0 behind them.
fn first_words<const W: usize, T: Timeline + Drop>(
    words: &MachineWords<T>,
    region: Region,
    len: usize,
) -> [u64; W]
    requires width { IsGangWidth W }
    requires laid { AreLaid T.history W words.now }
    requires long { len ≡ length (regions_in T.history W words.now (region_view region)) }
    ensures { (k : ℕ) → k < W → slice_index result k ≡ at (regions_in T.history W words.now (region_view region)) k }
{
    let mut found = [0; W];
    for lane in 0..W {
        if lane < len {
            found[lane] = words.word::<W>(region, lane);
        }
    }
    found
}
