//! A store with the variables `x` and `i` and the array `a`.
ghost use Rattle.std.specs.Prelude.{◌≡◌};
ghost use Rattle.expression_bench.specs.Sum.{HasElements, HasVariables, named};

use expression_instructions::Words;
use gang_memory::{Part, gather};
use gang_types::{FaultName, Mask, Rate, VarId};
use typed_tree::Var;

pub(crate) const ELEMENTS: usize = 64;

pub(crate) const X: VarId = VarId::Local(0);

pub(crate) const I: VarId = VarId::File(0);

pub(crate) const A: VarId = VarId::File(1);

/// The words of `x` and `i` for each lane, and the elements of `a`, the one array.
#[derive(Drop)]
pub(crate) struct Store<const W: usize> {
    pub(crate) x: [u64; W],
    pub(crate) i: [u64; W],
    pub(crate) a: Vec<u64>,
}

impl<const W: usize> Store<W> {
    // The words of `i`, the variable of the file, or of `x`.
    fn named(&self, variable: VarId) -> [u64; W]
        ensures { result ≡ named self.now.x self.now.i variable }
    {
        match variable {
            VarId::File(_) => self.i,
            VarId::Local(_) => self.x,
        }
    }
}

impl<const W: usize> Words<W> for Store<W> {
    ghost shows = { λ store state. HasVariables store.x store.i state × HasElements store.a.items state };

    fn words(&self, variable: Var) -> [u64; W] {
        let words = self.named(variable.id);
        match variable.rate {
            Rate::Uniform => [words[0]; W],
            Rate::Varying => words,
        }
    }

    fn elements(
        &self,
        _array: VarId,
        mask: Mask,
        indices: &[u64; W],
    ) -> Result<[u64; W], (usize, FaultName)> {
        let all = Part {
            first: 0,
            len: self.a.len(),
        };
        gather(&self.a, all, mask, *indices)
    }
}
