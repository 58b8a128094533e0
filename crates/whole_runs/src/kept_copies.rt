//! What is told of the copies of a run.
ghost use Rattle.std.specs.Prelude.{◌≡◌, ◌≤◌, ◌*◌, length, suc};
ghost use Rattle.whole_runs.specs.Copies.{kept_words};
ghost use Rattle.whole_runs.specs.Runs.{moments_of};

use crate::copies_over::CopiesOver;
use crate::whole_run::WholeRun;

/// How many copies of other moments than the start there are, how many there can be, and of how many words that of the start is.
#[derive(Clone, Copy, Debug, PartialEq, Eq)]
pub struct KeptCopies {
    pub count: usize,
    pub most: usize,
    pub words: usize,
}

/// A machine that tells what copies it keeps of moments of its run.
pub trait TellsCopies {
    ghost use Rattle.whole_runs.specs.Copies.{KeptMoments};

    // What it keeps of moments of its run.
    ghost moments: { Self → KeptMoments };

    /// How many there are, how many there can be, and of how many words one is.
    fn kept_copies(&self) -> KeptCopies
        ensures count { result.count ≡ length (moments self.now).copies }
        ensures most { result.most ≡ (moments self.now).most }
        ensures words { result.words ≡ length (moments self.now).start }
        ensures few { result.count ≤ result.most }
        // What they take together, with the start.
        ensures memory { kept_words (moments self.now) ≡ suc result.count * result.words };
}

impl<M: CopiesOver> TellsCopies for WholeRun<M> {
    ghost moments = { moments_of };

    fn kept_copies(&self) -> KeptCopies {
        KeptCopies {
            count: self.copies.all.len(),
            most: self.copies.plan.most,
            words: self.start.len(),
        }
    }
}
