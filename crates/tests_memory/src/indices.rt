//! The ends of the index types, and words that would name an element if they were cut: an index is a whole number of its
//! type, and is compared with the length before it is cut.

use crate::told::holds_at_index;
use gang_memory::{Part, gather, part_from, scatter};
use gang_types::{FaultName, IntType, Mask, wrap};
use std::alloc::{AllocError, Global};
use std::process::Abort;

// Indices: a type, a value of it, and that value modulo 2 ^ 64, which is its word.
const INDICES: &[(IntType, i128, u64)] = &[
    (IntType::Int8, 127, 0x7f),
    (IntType::Int8, -1, 0xffff_ffff_ffff_ffff),
    (IntType::Int8, -128, 0xffff_ffff_ffff_ff80),
    (IntType::Int16, 32_767, 0x7fff),
    (IntType::Int16, -1, 0xffff_ffff_ffff_ffff),
    (IntType::Int16, -256, 0xffff_ffff_ffff_ff00),
    (IntType::Int16, -32_768, 0xffff_ffff_ffff_8000),
    (IntType::Int32, 2_147_483_647, 0x7fff_ffff),
    (IntType::Int32, -1, 0xffff_ffff_ffff_ffff),
    (IntType::Int32, -65_536, 0xffff_ffff_ffff_0000),
    (IntType::Int32, -2_147_483_648, 0xffff_ffff_8000_0000),
    (
        IntType::Int64,
        9_223_372_036_854_775_807,
        0x7fff_ffff_ffff_ffff,
    ),
    (IntType::Int64, -1, 0xffff_ffff_ffff_ffff),
    (IntType::Int64, -4_294_967_296, 0xffff_ffff_0000_0000),
    (
        IntType::Int64,
        -9_223_372_036_854_775_807,
        0x8000_0000_0000_0001,
    ),
    (
        IntType::Int64,
        -9_223_372_036_854_775_808,
        0x8000_0000_0000_0000,
    ),
    (IntType::Uint8, 0, 0),
    (IntType::Uint8, 255, 0xff),
    (IntType::Uint16, 256, 0x100),
    (IntType::Uint16, 65_535, 0xffff),
    (IntType::Uint32, 65_536, 0x1_0000),
    (IntType::Uint32, 4_294_967_295, 0xffff_ffff),
    (IntType::Uint64, 4_294_967_296, 0x1_0000_0000),
    (IntType::Uint64, 4_294_967_297, 0x1_0000_0001),
    (
        IntType::Uint64,
        9_223_372_036_854_775_808,
        0x8000_0000_0000_0000,
    ),
    (
        IntType::Uint64,
        9_223_372_036_854_775_809,
        0x8000_0000_0000_0001,
    ),
    (
        IntType::Uint64,
        18_446_744_073_709_551_615,
        0xffff_ffff_ffff_ffff,
    ),
];

// Lengths on both sides of each index that an array of such a length has.
const LENGTHS: &[usize] = &[
    0, 1, 2, 127, 128, 255, 256, 257, 32_767, 32_768, 65_535, 65_536, 65_537, 65_538,
];

// Words of which each is its slot and 1000 more. A part begins at slot 1.
fn words(alloc: Global) -> Result<Vec<u64>, AllocError> {
    let mut words = Vec::new(alloc);
    for slot in 0..65_540 {
        words.push(1000 + slot)?;
    }
    Ok(words)
}

// Whether each word is its slot and 1000 more.
fn is_as_before(words: &[u64]) -> bool {
    let mut others = 0..65_540;
    for &word in words {
        if others.next() != Some(word.wrapping_sub(1000)) {
            return false;
        }
    }
    others.is_empty()
}

// Lanes 1 and 3 load and store at an index.
fn elements_at(rt: &impl Abort, store: &mut Vec<u64>, len: usize, value: i128, word: u64) {
    assert!(rt; len < store.len());
    let part = Part { first: 1, len };
    let mask = Mask::from_word::<4>(0b1010);
    let indices = [u64::MAX, word, u64::MAX, word];
    let loaded = gather(store, part, mask, indices);
    let stored = scatter(store, part, mask, indices, [1, 2, 3, 4]);
    if 0 <= value && value < len as i128 {
        let slot = 1 + value as usize;
        let old = 1000 + slot as u64;
        holds_at_index(rt, loaded == Ok([0, old, 0, old]), "load", value, len);
        holds_at_index(rt, stored == Ok(()), "store", value, len);
        holds_at_index(rt, store[slot] == 4, "stored word", value, len);
        store[slot] = old;
    } else {
        let fault = (1, FaultName::Index);
        holds_at_index(rt, loaded == Err(fault), "fault of a load", value, len);
        holds_at_index(rt, stored == Err(fault), "fault of a store", value, len);
    }
}

// The part from an index on, which may be the length.
fn part_at(rt: &impl Abort, len: usize, value: i128, word: u64) {
    assert!(rt; len < 70_000);
    let mask = Mask::from_word::<4>(0b1010);
    assert!(rt; !mask.is_empty::<4>());
    let part = part_from::<4>(Part { first: 1, len }, mask, word);
    if 0 <= value && value <= len as i128 {
        let passed = value as usize;
        let rest = Part {
            first: 1 + passed,
            len: len - passed,
        };
        holds_at_index(rt, part == Ok(rest), "part", value, len);
    } else {
        let fault = (1, FaultName::Index);
        holds_at_index(rt, part == Err(fault), "fault of a part", value, len);
    }
}

#[test]
fn a_value_of_a_narrow_type_has_all_bits_of_its_sign(rt: HostRuntime) {
    for &(value_type, value, word) in INDICES {
        holds_at_index(&rt, wrap(value_type, value) == word, "word", value, 0);
    }
}

#[test]
fn an_index_names_the_element_of_its_value_or_none(rt: HostRuntime) -> Result<(), AllocError> {
    let mut store = words(rt.alloc())?;
    for &len in LENGTHS {
        for &(_, value, word) in INDICES {
            elements_at(&rt, &mut store, len, value, word);
        }
        holds_at_index(&rt, is_as_before(&store), "other words", 0, len);
    }
    Ok(())
}

#[test]
fn a_part_begins_at_the_value_of_its_index_or_nowhere(rt: HostRuntime) {
    for &len in LENGTHS {
        for &(_, value, word) in INDICES {
            part_at(&rt, len, value, word);
        }
    }
}
