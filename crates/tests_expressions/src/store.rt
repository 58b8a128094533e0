//! The words of variables, of no state.
ghost use Rattle.gang_types.specs.Masks.{IsGangWidth};

use expression_instructions::Words;
use gang_types::{FaultName, Mask, VarId};
use typed_tree::Var;

/// The words of a function's variables by their numbers, and the elements of the file's arrays by theirs.
#[derive(Clone, Copy)]
pub(crate) struct Memory<'a, const W: usize> {
    pub(crate) locals: &'a [[u64; W]],
    pub(crate) arrays: &'a [&'a [u64]],
}

impl<const W: usize> Memory<'_, W> {
    // The element for one lane, 0 where the lane is not active.
    fn element(
        &self,
        array: VarId,
        mask: Mask,
        lane: usize,
        index: u64,
    ) -> Result<u64, (usize, FaultName)>
        requires { IsGangWidth W }
    {
        if !mask.has::<W>(lane) {
            return Ok(0);
        }
        let elements = match array {
            VarId::File(number) => self.arrays.get(number).copied().unwrap_or(&[]),
            VarId::Local(_) => &[],
        };
        match elements.get(index as usize) {
            Some(element) => Ok(*element),
            None => Err((lane, FaultName::Index)),
        }
    }
}

impl<const W: usize> Words<W> for Memory<'_, W> {
    ghost shows = { λ store state. ⊥ };

    fn words(&self, variable: Var) -> [u64; W] {
        let found = match variable.id {
            VarId::Local(number) => self.locals.get(number),
            VarId::File(_) => None,
        };
        match found {
            Some(words) => *words,
            None => [0; W],
        }
    }

    fn elements(
        &self,
        array: VarId,
        mask: Mask,
        indices: &[u64; W],
    ) -> Result<[u64; W], (usize, FaultName)> {
        let mut found = [0; W];
        for lane in 0..W {
            found[lane] = self.element(array, mask, lane, indices[lane])?;
        }
        Ok(found)
    }
}
