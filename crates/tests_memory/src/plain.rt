//! What lanes load and store, by plain loops over lanes and elements.
//!
//! A store of the tests has 12 words, and the word at slot s is 100 + 3 s. A part begins at slot 2 and has at most 8 elements.

use gang_types::FaultName;

/// The words of a store.
pub type Words = [u64; 12];

/// The words before anything is stored.
pub fn words_before() -> Words {
    let mut words = [100; 12];
    for slot in 0..12 {
        words[slot] = 100 + 3 * slot as u64;
    }
    words
}

// The value that a lane stores: less by 1 for each lane.
fn value_of(lane: usize) -> u64 {
    1_000_000u64.saturating_sub(lane as u64)
}

/// The value that each lane stores.
pub fn values<const W: usize>() -> [u64; W] {
    let mut values = [0; W];
    for lane in 0..W {
        values[lane] = value_of(lane);
    }
    values
}

/// Which lanes are in the mask that a word keeps, by the word's binary digits.
pub fn lanes_in<const W: usize>(word: u64) -> [bool; W] {
    let mut lanes = [false; W];
    let mut left = word;
    for lane in 0..W {
        lanes[lane] = left % 2 == 1;
        left /= 2;
    }
    lanes
}

/// How many lanes of the mask there are.
pub fn count<const W: usize>(lanes: [bool; W]) -> usize {
    lanes.iter().filter(|is_in| **is_in).count()
}

/// In each lane how many lanes of the mask are below it.
pub fn lanes_below<const W: usize>(lanes: [bool; W]) -> [u64; W] {
    let mut below = [0; W];
    let mut lower: u64 = 0;
    for lane in 0..W {
        below[lane] = lower;
        lower = lower.saturating_add(u64::from(lanes[lane]));
    }
    below
}

/// The fault of the lowest lane of the mask whose index is not below the length.
pub fn missing<const W: usize>(
    lanes: [bool; W],
    indices: [u64; W],
    len: usize,
) -> Option<(usize, FaultName)> {
    let mut found = None;
    for passed in 0..W {
        let lane = W - 1 - passed;
        if lanes[lane] && indices[lane] as i128 >= len as i128 {
            found = Some((lane, FaultName::Index));
        }
    }
    found
}

/// In each lane of the mask the element that it names, if that is there, and 0 in the others.
pub fn loaded<const W: usize>(lanes: [bool; W], indices: [u64; W], len: usize) -> [u64; W] {
    let mut words = [0; W];
    for element in 0..8 {
        for lane in 0..W {
            if element < len && lanes[lane] && indices[lane] == element as u64 {
                words[lane] = 106 + 3 * element as u64;
            }
        }
    }
    words
}

/// The words after a store: each element has the value of the highest lane that names it.
pub fn stored<const W: usize>(lanes: [bool; W], indices: [u64; W], len: usize) -> Words {
    let mut words = words_before();
    for element in 0..8 {
        if element < len
            && let Some(value) = highest_value(lanes, indices, element)
        {
            words[2 + element] = value;
        }
    }
    words
}

// The value of the highest lane of the mask that names the element.
fn highest_value<const W: usize>(
    lanes: [bool; W],
    indices: [u64; W],
    element: usize,
) -> Option<u64> {
    for passed in 0..W {
        let lane = W - 1 - passed;
        if lanes[lane] && indices[lane] == element as u64 {
            return Some(value_of(lane));
        }
    }
    None
}
