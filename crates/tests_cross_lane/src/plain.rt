//! The calls as plain loops over lanes, on values and not on words.
ghost use Rattle.std.specs.Prelude.{◌≤◌};
ghost use Rattle.gang_types.specs.Masks.{IsGangWidth};

use gang_types::{FaultName, IntType, Mask, value, wrap};

// The type of a sum.
pub fn sum_type(ty: IntType) -> IntType {
    match ty {
        IntType::Int8 => IntType::Int16,
        IntType::Int16 => IntType::Int32,
        IntType::Bool | IntType::Int32 | IntType::Int64 => IntType::Int64,
        IntType::Uint8 => IntType::Uint16,
        IntType::Uint16 => IntType::Uint32,
        IntType::Uint32 | IntType::Uint64 => IntType::Uint64,
    }
}

// The word of lane `lane`, and 0 where there is none in the mask.
pub fn lane_word<const W: usize>(mask: Mask, words: [u64; W], lane: i128) -> u64
    requires { IsGangWidth W }
{
    for k in 0..W {
        if k as i128 == lane && mask.has::<W>(k) {
            return words[k];
        }
    }
    0
}

pub fn is_lane<const W: usize>(lane: i128) -> bool {
    0 <= lane && lane < W as i128
}

// How many lanes of the mask have a word that is 0 or, where `wanted`, one that is not.
fn number<const W: usize>(mask: Mask, words: [u64; W], wanted: bool) -> u64
    requires { IsGangWidth W }
{
    let mut number = 0u64;
    for k in 0..W {
        if mask.has::<W>(k) && (words[k] != 0) == wanted {
            number = number.wrapping_add(1);
        }
    }
    number
}

pub fn any<const W: usize>(mask: Mask, words: [u64; W]) -> u64
    requires { IsGangWidth W }
{
    if number(mask, words, true) > 0 { 1 } else { 0 }
}

pub fn all<const W: usize>(mask: Mask, words: [u64; W]) -> u64
    requires { IsGangWidth W }
{
    if number(mask, words, false) == 0 {
        1
    } else {
        0
    }
}

pub fn none<const W: usize>(mask: Mask, words: [u64; W]) -> u64
    requires { IsGangWidth W }
{
    if number(mask, words, true) == 0 { 1 } else { 0 }
}

pub fn popcnt_lanes<const W: usize>(mask: Mask, words: [u64; W]) -> u64
    requires { IsGangWidth W }
{
    number(mask, words, true)
}

pub fn packmask<const W: usize>(mask: Mask, words: [u64; W]) -> u64
    requires { IsGangWidth W }
{
    let mut bits = 0;
    let mut bit = 1u64;
    for k in 0..W {
        if mask.has::<W>(k) && words[k] != 0 {
            bits |= bit;
        }
        bit = bit.wrapping_mul(2);
    }
    bits
}

// The sum of the values of the lanes of the mask below lane `end`.
pub fn sum<const W: usize>(ty: IntType, mask: Mask, words: [u64; W], end: usize) -> i128
    requires { IsGangWidth W }
{
    let mut sum = 0i128;
    for k in 0..W {
        if k < end && mask.has::<W>(k) {
            sum = sum.wrapping_add(value(ty, words[k]));
        }
    }
    sum
}

pub fn reduce_add<const W: usize>(ty: IntType, mask: Mask, words: [u64; W]) -> u64
    requires { IsGangWidth W }
{
    wrap(sum_type(ty), sum(ty, mask, words, W))
}

pub fn reduce_min<const W: usize>(ty: IntType, mask: Mask, words: [u64; W]) -> u64
    requires { IsGangWidth W }
{
    let mut least: Option<u64> = None;
    for k in 0..W {
        if mask.has::<W>(k) {
            least = match least {
                Some(word) if value(ty, word) <= value(ty, words[k]) => Some(word),
                _ => Some(words[k]),
            };
        }
    }
    least.unwrap_or(0)
}

pub fn reduce_max<const W: usize>(ty: IntType, mask: Mask, words: [u64; W]) -> u64
    requires { IsGangWidth W }
{
    let mut greatest: Option<u64> = None;
    for k in 0..W {
        if mask.has::<W>(k) {
            greatest = match greatest {
                Some(word) if value(ty, word) >= value(ty, words[k]) => Some(word),
                _ => Some(words[k]),
            };
        }
    }
    greatest.unwrap_or(0)
}

pub fn reduce_equal<const W: usize>(mask: Mask, words: [u64; W]) -> u64
    requires { IsGangWidth W }
{
    for j in 0..W {
        for k in 0..W {
            if mask.has::<W>(j) && mask.has::<W>(k) && words[j] != words[k] {
                return 0;
            }
        }
    }
    1
}

// The bits that all words of the lanes of the mask below lane `end` have, of the bits of -1.
fn common_bits<const W: usize>(ty: IntType, mask: Mask, words: [u64; W], end: usize) -> u64
    requires { IsGangWidth W }
{
    let mut bits = wrap(ty, -1);
    for k in 0..W {
        if k < end && mask.has::<W>(k) {
            bits &= words[k];
        }
    }
    bits
}

fn joined_bits<const W: usize>(mask: Mask, words: [u64; W], end: usize) -> u64
    requires { IsGangWidth W }
{
    let mut bits = 0;
    for k in 0..W {
        if k < end && mask.has::<W>(k) {
            bits |= words[k];
        }
    }
    bits
}

pub fn exclusive_scan_add<const W: usize>(ty: IntType, mask: Mask, words: [u64; W]) -> [u64; W]
    requires { IsGangWidth W }
{
    let mut sums = [0; W];
    for k in 0..W {
        if mask.has::<W>(k) {
            sums[k] = wrap(ty, sum(ty, mask, words, k));
        }
    }
    sums
}

pub fn exclusive_scan_and<const W: usize>(ty: IntType, mask: Mask, words: [u64; W]) -> [u64; W]
    requires { IsGangWidth W }
{
    let mut bits = [0; W];
    for k in 0..W {
        if mask.has::<W>(k) {
            bits[k] = common_bits(ty, mask, words, k);
        }
    }
    bits
}

pub fn exclusive_scan_or<const W: usize>(mask: Mask, words: [u64; W]) -> [u64; W]
    requires { IsGangWidth W }
{
    let mut bits = [0; W];
    for k in 0..W {
        if mask.has::<W>(k) {
            bits[k] = joined_bits(mask, words, k);
        }
    }
    bits
}

pub fn lowest<const W: usize>(mask: Mask) -> usize
    requires { IsGangWidth W }
{
    for k in 0..W {
        if mask.has::<W>(k) {
            return k;
        }
    }
    0
}

pub fn extract<const W: usize>(
    mask: Mask,
    words: [u64; W],
    index: u64,
) -> Result<u64, (usize, FaultName)>
    requires { IsGangWidth W }
{
    let lane = value(IntType::Int32, index);
    if is_lane::<W>(lane) {
        Ok(lane_word(mask, words, lane))
    } else {
        Err((lowest::<W>(mask), FaultName::LaneIndex))
    }
}

pub fn broadcast<const W: usize>(
    mask: Mask,
    words: [u64; W],
    index: u64,
) -> Result<[u64; W], (usize, FaultName)>
    requires { IsGangWidth W }
{
    shuffle(mask, words, [index; W])
}

pub fn insert<const W: usize>(
    mask: Mask,
    words: [u64; W],
    index: u64,
    new: u64,
) -> Result<[u64; W], (usize, FaultName)>
    requires { IsGangWidth W }
{
    let lane = value(IntType::Int32, index);
    if !is_lane::<W>(lane) {
        return Err((lowest::<W>(mask), FaultName::LaneIndex));
    }
    let mut changed = [0; W];
    for k in 0..W {
        if mask.has::<W>(k) {
            changed[k] = if k as i128 == lane { new } else { words[k] };
        }
    }
    Ok(changed)
}

pub fn rotate<const W: usize>(mask: Mask, words: [u64; W], by: u64) -> [u64; W]
    requires { IsGangWidth W }
{
    let mut moved = [0; W];
    for k in 0..W {
        if mask.has::<W>(k) {
            let from = (k as i128).wrapping_add(value(IntType::Int32, by));
            moved[k] = lane_word(mask, words, from.rem_euclid(W as i128));
        }
    }
    moved
}

pub fn shift<const W: usize>(mask: Mask, words: [u64; W], by: u64) -> [u64; W]
    requires { IsGangWidth W }
{
    let mut moved = [0; W];
    for k in 0..W {
        if mask.has::<W>(k) {
            let from = (k as i128).wrapping_add(value(IntType::Int32, by));
            moved[k] = lane_word(mask, words, from);
        }
    }
    moved
}

pub fn shuffle<const W: usize>(
    mask: Mask,
    words: [u64; W],
    places: [u64; W],
) -> Result<[u64; W], (usize, FaultName)>
    requires { IsGangWidth W }
{
    let mut moved = [0; W];
    for k in 0..W {
        if mask.has::<W>(k) {
            let from = value(IntType::Int32, places[k]);
            if !is_lane::<W>(from) {
                return Err((k, FaultName::LaneIndex));
            }
            moved[k] = lane_word(mask, words, from);
        }
    }
    Ok(moved)
}

pub fn shuffle_two<const W: usize>(
    mask: Mask,
    first: [u64; W],
    second: [u64; W],
    places: [u64; W],
) -> Result<[u64; W], (usize, FaultName)>
    requires { IsGangWidth W }
{
    let mut moved = [0; W];
    for k in 0..W {
        if mask.has::<W>(k) {
            let from = value(IntType::Int32, places[k]);
            let above = from.wrapping_sub(W as i128);
            moved[k] = if is_lane::<W>(from) {
                lane_word(mask, first, from)
            } else if is_lane::<W>(above) {
                lane_word(mask, second, above)
            } else {
                return Err((k, FaultName::LaneIndex));
            };
        }
    }
    Ok(moved)
}

pub fn packed_places<const W: usize>(mask: Mask) -> ([usize; W], usize)
    requires { IsGangWidth W }
{
    let mut places = [0; W];
    let mut number = 0usize;
    for k in 0..W {
        if mask.has::<W>(k) && number < W {
            places[number] = k;
            number += 1;
        }
    }
    (places, number)
}
