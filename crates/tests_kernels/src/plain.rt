//! Plain loops over the lanes, each by the operation on one value.
ghost use Rattle.std.specs.Prelude.{◌≡◌, ℕ, ◌<◌, true, length, slice_index, nat_eq, MatchResult, if◌then◌else◌};
ghost use Rattle.gang_types.specs.Values.{binary_of, binary_result, unary_of, converted, divides};
ghost use Rattle.gang_types.specs.Library.{lesser, larger, clamped, absolute, bit_count};
ghost use Rattle.gang_types.specs.Masks.{IsGangWidth, lanes_of};
ghost use Rattle.lane_kernels.specs.Lanes.{InEachLane, OfEachLane, Divided, Faulted};
ghost use Rattle.tests_kernels.specs.Plain.{word_or_zero};

use gang_types::{BinaryOp, FaultName, IntType, Mask, UnaryOp, value, width, wrap};

/// The operation in each lane, and 0 where it cannot be done.
pub fn binary<const W: usize>(op: BinaryOp, ty: IntType, a: [u64; W], b: [u64; W]) -> [u64; W]
    requires { IsGangWidth W }
    ensures { (i : ℕ) → i < W → slice_index result i ≡ word_or_zero (binary_result op ty (slice_index a.entry i) (slice_index b.entry i)) }
{
    let mut words = [0; W];
    for i in 0..W {
        words[i] = match gang_types::binary(op, ty, a[i], b[i]) {
            Ok(word) => word,
            Err(_) => 0,
        };
    }
    words
}

/// The division in each lane of the mask, and 0 in the others.
///
/// # Errors
///
/// `DivideByZero` with the lowest lane of the mask whose divisor is 0, where there is one.
pub fn divide<const W: usize>(
    op: BinaryOp,
    ty: IntType,
    active: Mask,
    a: [u64; W],
    b: [u64; W],
) -> Result<[u64; W], (usize, FaultName)>
    requires width { IsGangWidth W }
    requires division { divides op ≡ true }
    ensures { MatchResult result (Divided W (lanes_of W active) (binary_of op ty) a.entry b.entry) (Faulted (lanes_of W active) b.entry) }
{
    let mut words = [0; W];
    for i in 0..W {
        if active.has::<W>(i) {
            match gang_types::binary(op, ty, a[i], b[i]) {
                Ok(word) => words[i] = word,
                Err(fault) => return Err((i, fault)),
            }
        }
    }
    Ok(words)
}

/// The operation on one word in each lane.
pub fn unary<const W: usize>(op: UnaryOp, ty: IntType, a: [u64; W]) -> [u64; W]
    requires { IsGangWidth W }
    ensures { OfEachLane W (unary_of op ty) a.entry result }
{
    let mut words = [0; W];
    for i in 0..W {
        words[i] = gang_types::unary(op, ty, a[i]);
    }
    words
}

/// The conversion in each lane.
pub fn convert<const W: usize>(from: IntType, to: IntType, a: [u64; W]) -> [u64; W]
    requires { IsGangWidth W }
    ensures { OfEachLane W (converted from to) a.entry result }
{
    let mut words = [0; W];
    for i in 0..W {
        words[i] = gang_types::convert(from, to, a[i]);
    }
    words
}

/// The word of `a` where the word of `chosen` is not 0, and of `b` where it is.
pub fn select<const W: usize>(chosen: [u64; W], a: [u64; W], b: [u64; W]) -> [u64; W]
    requires { IsGangWidth W }
    ensures { (i : ℕ) → i < W → slice_index result i ≡ (if nat_eq (slice_index chosen.entry i) 0 then slice_index b.entry i else slice_index a.entry i) }
{
    let mut words = [0; W];
    for i in 0..W {
        words[i] = if chosen[i] == 0 { b[i] } else { a[i] };
    }
    words
}

/// The lesser value in each lane.
pub fn min<const W: usize>(ty: IntType, a: [u64; W], b: [u64; W]) -> [u64; W]
    requires { IsGangWidth W }
    ensures { InEachLane W (lesser ty) a.entry b.entry result }
{
    let mut words = [0; W];
    for i in 0..W {
        words[i] = lesser(ty, a[i], b[i]);
    }
    words
}

fn lesser(ty: IntType, a: u64, b: u64) -> u64
    ensures { result ≡ lesser ty a b }
{
    if value(ty, b) < value(ty, a) { b } else { a }
}

/// The larger value in each lane.
pub fn max<const W: usize>(ty: IntType, a: [u64; W], b: [u64; W]) -> [u64; W]
    requires { IsGangWidth W }
    ensures { InEachLane W (larger ty) a.entry b.entry result }
{
    let mut words = [0; W];
    for i in 0..W {
        words[i] = larger(ty, a[i], b[i]);
    }
    words
}

fn larger(ty: IntType, a: u64, b: u64) -> u64
    ensures { result ≡ larger ty a b }
{
    if value(ty, a) < value(ty, b) { b } else { a }
}

/// The value brought up to the low end, and then down to the high end, in each lane.
pub fn clamp<const W: usize>(ty: IntType, a: [u64; W], low: [u64; W], high: [u64; W]) -> [u64; W]
    requires { IsGangWidth W }
    ensures { (i : ℕ) → i < W → slice_index result i ≡ clamped ty (slice_index a.entry i) (slice_index low.entry i) (slice_index high.entry i) }
{
    let mut words = [0; W];
    for i in 0..W {
        words[i] = lesser(ty, larger(ty, a[i], low[i]), high[i]);
    }
    words
}

/// The value without its sign in each lane.
pub fn abs<const W: usize>(ty: IntType, a: [u64; W]) -> [u64; W]
    requires { IsGangWidth W }
    ensures { OfEachLane W (absolute ty) a.entry result }
{
    let mut words = [0; W];
    for i in 0..W {
        words[i] = absolute(ty, a[i]);
    }
    words
}

fn absolute(ty: IntType, word: u64) -> u64
    ensures { result ≡ absolute ty word }
{
    let number = value(ty, word);
    if number < 0 {
        wrap(ty, -number)
    } else {
        wrap(ty, number)
    }
}

/// How many of the lowest bits, as many as the type's width, are 1, in each lane.
pub fn popcnt<const W: usize>(ty: IntType, a: [u64; W]) -> [u64; W]
    requires { IsGangWidth W }
    ensures { OfEachLane W (bit_count ty) a.entry result }
{
    let mut words = [0; W];
    for i in 0..W {
        words[i] = set_bits(ty, a[i]);
    }
    words
}

#[tactic(auto, using(crate::proofs::Numbers::next_bit))]
fn set_bits(ty: IntType, word: u64) -> u64
    ensures { result ≡ bit_count ty word }
{
    let mut rest = word;
    let mut count = 0;
    for _bit in 0..width(ty) as u64 {
        count += rest % 2;
        rest /= 2;
    }
    count
}
