//! The words of the types, and the values that they stand for.
ghost use Rattle.std.specs.Prelude.{◌≡◌, ℕ, ◌+◌, ◌-◌, ◌*◌, ◌/◌, ◌%◌, ◌^◌, ◌<◌, ◌≤◌, pos, if◌then◌else◌, neg_ℤ, ◌≤ℤ◌, ◌<ℤ◌};
ghost use Rattle.gang_types.specs.Values.{width, half, is_signed, is_bool, value_of, wrapped, converted};
ghost use Rattle.gang_types.specs.Ranges.{InType, IsWrapped};
ghost use Rattle.gang_types.specs.Laws.{narrowed, narrow_word, bias};

use crate::types::IntType;

/// Whether the type is `bool`.
pub fn is_bool(ty: IntType) -> bool
    ensures { result ≡ is_bool ty }
{
    match ty {
        IntType::Bool => true,
        _ => false,
    }
}

/// Whether the type has values below 0.
pub fn is_signed(ty: IntType) -> bool
    ensures { result ≡ is_signed ty }
{
    match ty {
        IntType::Int8 | IntType::Int16 | IntType::Int32 | IntType::Int64 => true,
        _ => false,
    }
}

/// The type's width in bits.
pub fn width(ty: IntType) -> u32
    ensures { result ≡ width ty }
{
    match ty {
        IntType::Bool => 1,
        IntType::Int8 | IntType::Uint8 => 8,
        IntType::Int16 | IntType::Uint16 => 16,
        IntType::Int32 | IntType::Uint32 => 32,
        IntType::Int64 | IntType::Uint64 => 64,
    }
}

/// How many of the type's values are below 0.
pub fn half(ty: IntType) -> u64
    ensures { result ≡ half ty }
{
    match ty {
        IntType::Int8 => 1 << 7,
        IntType::Int16 => 1 << 15,
        IntType::Int32 => 1 << 31,
        IntType::Int64 => 1 << 63,
        _ => 0,
    }
}

/// The word with the type's lowest bits, as many as its width, all 1.
pub fn low_bits(ty: IntType) -> u64
    ensures { result ≡ 2 ^ width ty - 1 }
{
    match ty {
        IntType::Bool => 1,
        IntType::Int8 | IntType::Uint8 => 0xff,
        IntType::Int16 | IntType::Uint16 => 0xffff,
        IntType::Int32 | IntType::Uint32 => 0xffff_ffff,
        IntType::Int64 | IntType::Uint64 => u64::MAX,
    }
}

/// What is added to a word so that words order as their values do.
pub fn bias(ty: IntType) -> u64
    ensures { result ≡ bias ty }
{
    match ty {
        IntType::Int8 | IntType::Int16 | IntType::Int32 | IntType::Int64 => 1 << 63,
        _ => 0,
    }
}

/// The whole number that a word stands for: a signed type's by its highest bit, and else the word itself.
pub fn value(ty: IntType, word: u64) -> i128
    ensures value { result ≡ value_of ty word }
    ensures low { neg_ℤ (pos (2 ^ 63)) ≤ℤ result }
    ensures high { result <ℤ pos (2 ^ 64) }
{
    if is_signed(ty) {
        word.cast_signed() as i128
    } else {
        word as i128
    }
}

// The low bits of the word, taken as a number of the type: half is added before and taken away after.
fn narrow_integer(ty: IntType, word: u64) -> u64
    ensures { result ≡ narrowed ty word }
{
    let half = half(ty);
    (word.wrapping_add(half) & low_bits(ty)).wrapping_sub(half)
}

// What is kept of a word at a type.
pub(crate) fn narrow(ty: IntType, word: u64) -> u64
    ensures { result ≡ narrow_word ty word }
{
    if is_bool(ty) {
        if word == 0 { 0 } else { 1 }
    } else {
        narrow_integer(ty, word)
    }
}

/// The word of the one value of the type that is congruent to `v`; of `bool`, of whether `v` is not 0.
pub fn wrap(ty: IntType, v: i128) -> u64
    ensures value { result ≡ wrapped ty v }
    ensures meaning { IsWrapped ty v result }
{
    wrapped_word(ty, v)
}

pub(crate) fn wrapped_word(ty: IntType, v: i128) -> u64
    ensures { result ≡ wrapped ty v }
{
    if is_bool(ty) {
        if v == 0 { 0 } else { 1 }
    } else {
        narrow_integer(ty, v.rem_euclid(1 << 64) as u64)
    }
}

/// The value of a word of one type, wrapped into another.
pub fn convert(from: IntType, to: IntType, word: u64) -> u64
    ensures value { result ≡ converted from to word }
    ensures of_type { InType to (value_of to result) }
    ensures kept { InType to (value_of from word) → value_of to result ≡ value_of from word }
{
    wrapped_word(to, value(from, word))
}

pub(crate) fn truth(b: bool) -> u64
    ensures { result ≡ (if b then 1 else 0) }
{
    if b { 1 } else { 0 }
}
