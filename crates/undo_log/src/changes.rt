//! Words that were set, and what they were before.
ghost use Rattle.std.specs.Prelude.{◌≡◌, ◌+◌, ◌-◌, ◌^◌, ◌<◌, ◌≤◌, ◌&&◌, nat_le, nat_lt, length, reverse, take, All};
ghost use Rattle.std.specs.List.{list_any};
ghost use Rattle.std.specs.Simd.Lanes.{put_chunk};
ghost use Rattle.circular_buffer.specs.Buffer.{buffer, keep_last};
ghost use Rattle.undo_log.specs.DeltaRings.{run_changes, taken_back};

use circular_buffer::HeapCircularBuffer;

/// A word that was set, and what it was before.
#[derive(Clone, Copy, Debug)]
pub(crate) struct Change {
    pub(crate) index: usize,
    pub(crate) old: u64,
}

impl Change {
    /// Whether it is of a word of an index from `first` on and before `end`.
    #[inline(always)]
    fn is_between(self, first: usize, end: usize) -> bool
        ensures { result ≡ (nat_le first self.index && nat_lt self.index end) }
    {
        first <= self.index && self.index < end
    }
}

/// Whether one of the last `count` changes is of a word of an index from `first` on and before `end`.
#[inline(always)]
pub(crate) fn is_any_between(
    changes: &HeapCircularBuffer<Change>,
    count: usize,
    first: usize,
    end: usize,
) -> bool
    ensures { result ≡ list_any (λ c. nat_le first c.index && nat_lt c.index end) (keep_last count changes.now.items) }
{
    let oldest = changes.len().saturating_sub(count);
    let (front, back) = changes.as_slices();
    let in_front = oldest.min(front.len());
    let in_back = back.len().saturating_sub(count);
    is_one_between(&back[in_back..], first, end) || is_one_between(&front[in_front..], first, end)
}

/// Whether one of these changes is of a word of an index from `first` on and before `end`.
#[inline(always)]
fn is_one_between(changes: &[Change], first: usize, end: usize) -> bool
    ensures { result ≡ list_any (λ c. nat_le first c.index && nat_lt c.index end) changes.now }
{
    for change in changes {
        if change.is_between(first, end) {
            return true;
        }
    }
    false
}

/// Takes `count` changes back, the newest first, and answers how many words it wrote.
#[inline(always)]
pub(crate) fn write_back(
    words: &mut [u64],
    changes: &mut HeapCircularBuffer<Change>,
    count: usize,
) -> usize
    requires there { count ≤ length changes.old.items }
    requires in_range { All (λ c. c.index < length words.old) changes.old.items }
    ensures words { words.new ≡ taken_back (take count (reverse changes.old.items)) words.old }
    ensures changes { changes.new ≡ buffer (take (length changes.old.items - count) changes.old.items) changes.old.capacity }
    ensures written { result ≡ count }
{
    let oldest = changes.len() - count;
    let (front, back) = changes.as_slices();
    let in_front = oldest.min(front.len());
    let in_back = back.len().saturating_sub(count);
    write_each(words, &back[in_back..]);
    write_each(words, &front[in_front..]);
    changes.truncate_back(oldest);
    count
}

/// Takes these changes back, of which the newest comes last, the newest first.
#[inline(always)]
fn write_each(words: &mut [u64], changes: &[Change])
    requires in_range { All (λ c. c.index < length words.old) changes.now }
    ensures { words.new ≡ taken_back (reverse changes.now) words.old }
{
    let mut left = changes.len();
    while left > 0 {
        left -= 1;
        let change = changes[left];
        words[change.index] = change.old;
    }
}

/// Sets the words from `first` on to these `W`, and answers what they were before.
#[inline(always)]
pub(crate) fn exchange<const W: usize>(
    words: &mut [u64],
    first: usize,
    values: &[u64],
) -> [Change; W]
    requires width { length values.now ≡ W }
    requires small { first + length values.now < 2 ^ 64 }
    requires in_range { first + length values.now ≤ length words.old }
    ensures words { words.new ≡ put_chunk first words.old values.now }
    ensures changes { result ≡ run_changes first (length values.now) words.old }
{
    let mut changes = [Change {
        index: first,
        old: 0,
    }; W];
    for index in 0..values.len() {
        changes[index] = Change {
            index: first + index,
            old: words[first + index],
        };
        words[first + index] = values[index];
    }
    changes
}
