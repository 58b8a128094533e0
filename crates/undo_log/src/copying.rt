//! All words, copied and put back.
ghost use Rattle.std.specs.Prelude.{◌≡◌, [], length, IfOk};
ghost use Rattle.undo_log.specs.History.{put_words};

use crate::timeline::Timeline;
use std::alloc::{AllocError, Global};

/// A copy of all words, so many.
///
/// # Errors
///
/// Out of memory.
pub fn all_words<T: Timeline>(
    alloc: Global,
    timeline: &T,
    count: usize,
) -> Result<Vec<u64>, AllocError>
    requires { length (T.history timeline.now).words ≡ count }
    ensures { IfOk result (λ copy. copy.items ≡ (T.history timeline.now).words) }
{
    let mut copy = Vec::new(alloc);
    for index in 0..count {
        copy.push(timeline.word(index))?;
    }
    Ok(copy)
}

/// Sets all words, where no event is kept.
pub fn put_back<T: Timeline>(timeline: &mut T, copy: &[u64])
    requires long { length copy.now ≡ length (T.history timeline.old).words }
    requires none_kept { (T.history timeline.old).past ≡ [] }
    ensures { T.history timeline.new ≡ put_words copy.now (T.history timeline.old) }
{
    for index in 0..copy.len() {
        timeline.set(index, copy[index]);
    }
}
