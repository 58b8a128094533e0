//! A machine that is begun again: its words are copied, and put back.
ghost use Rattle.std.specs.Prelude.{◌≡◌, ℕ, List, [], length, IfOk};
ghost use Rattle.undo_log.specs.History.{put_words};
ghost use Rattle.gang_model.specs.Debugger.Debugger.{Debugger, Setting};
ghost use Rattle.debug_traits.specs.Beginnings.{StandsAt, with_events};

use crate::machine::Machine;
use debug_traits::BeginsAgain;
use machine_words::MachineWords;
use std::alloc::{AllocError, Global};
use undo_log::{Timeline, all_words, put_back};
use whole_runs::CopiesOver;

impl<const W: usize, T: Timeline + Drop> BeginsAgain for Machine<W, T> {
    ghost use Rattle.gang_machine.specs.Again.{CanHave, Copies, can_have_so, copies_so};

    ghost can_have = { CanHave };

    ghost copies = { Copies };

    fn copied(&self, alloc: Global) -> Result<Vec<u64>, AllocError> {
        let copy = all_words(alloc, &self.words.store.timeline, self.words.layout.words)?;
        Ok(copy)
    }

    fn begin_again(&mut self, words: &[u64]) {
        put(&mut self.words, words);
    }

    ghost can_have_so = { can_have_so };

    ghost copies_so = { copies_so };
}

/// Sets all words, where no event is kept.
fn put<T: Timeline + Drop>(words: &mut MachineWords<T>, copy: &[u64])
    requires long { length copy.now ≡ length (T.history words.old.store.timeline).words }
    requires none_kept { (T.history words.old.store.timeline).past ≡ [] }
    ensures put { T.history words.new.store.timeline ≡ put_words copy.now (T.history words.old.store.timeline) }
    ensures layout { words.new.layout ≡ words.old.layout }
{
    put_back(&mut words.store.timeline, copy);
}

impl<const W: usize, T: Timeline + Drop> CopiesOver for Machine<W, T> {
    ghost use Rattle.gang_machine.specs.Again.{are_as_many, word_count};

    ghost word_count = { word_count };

    fn copy_over(&self, words: &mut [u64]) {
        copy_words(&self.words, words);
    }

    ghost are_as_many = { are_as_many };
}

/// Copies all words over others, as many.
fn copy_words<T: Timeline + Drop>(words: &MachineWords<T>, copy: &mut [u64])
    requires { length copy.old ≡ length (T.history words.now.store.timeline).words }
    ensures { copy.new ≡ (T.history words.now.store.timeline).words }
{
    for index in 0..copy.len() {
        copy[index] = words.store.timeline.word(index);
    }
}
