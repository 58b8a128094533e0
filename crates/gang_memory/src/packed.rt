//! Packed calls: the lanes of the mask, from the lowest on, take the first elements of a part.
ghost use Rattle.std.specs.Prelude.{◌≡◌, ◌+◌, ◌^◌, ◌<◌, ◌≤◌, length, IfOk, OnOk, OnErr};
ghost use Rattle.gang_types.specs.Masks.{IsGangWidth, lanes_of};
ghost use Rattle.gang_model.specs.Running.Lanes.{members};
ghost use Rattle.gang_memory.specs.Packed.{IsPackedLoad, IsPackedStore, PacksIntoArrays, ranks_of};
ghost use Rattle.gang_memory.specs.Writes.{WritesOnly};

use crate::elements::{gather, scatter};
use crate::parts::Part;
use crate::store::WordStore;
use gang_types::{FaultName, Mask};

/// The elements that a packed load gives to lanes, one word for each lane, and how many they are.
#[derive(Clone, Copy, Debug, Drop)]
pub struct Loaded<const W: usize> {
    pub words: [u64; W],
    pub count: usize,
}

/// The first elements, in the lanes of the mask from the lowest on, and 0 in the others.
///
/// # Errors
///
/// `Index` with the lowest lane of the mask whose element is not there.
pub fn packed_load<const W: usize, S: WordStore>(
    store: &S,
    part: Part,
    mask: Mask,
) -> Result<Loaded<W>, (usize, FaultName)>
    requires width { IsGangWidth W }
    requires small { part.first + part.len < 2 ^ 64 }
    requires inside { part.first + part.len ≤ length (S.words store.now) }
    ensures words { IsPackedLoad (S.words store.now) part (lanes_of W mask) result }
    ensures count { IfOk result (λ loaded. loaded.count ≡ length (members (lanes_of W mask))) }
{
    let words = gather(store, part, mask, ranks(mask))?;
    Ok(Loaded {
        words,
        count: mask.count::<W>(),
    })
}

/// Stores the values of the lanes of the mask, from the lowest on, to the first elements, and answers how many they are.
///
/// # Errors
///
/// `Index` with the lowest lane of the mask whose element is not there. The store is then as it was.
pub fn packed_store<const W: usize, S: WordStore>(
    store: &mut S,
    part: Part,
    mask: Mask,
    values: [u64; W],
) -> Result<usize, (usize, FaultName)>
    requires width { IsGangWidth W }
    requires small { part.first + part.len < 2 ^ 64 }
    requires inside { part.first + part.len ≤ length (S.words store.old) }
    requires left { W ≤ S.left store.old }
    ensures answer { IsPackedStore part (lanes_of W mask) values.entry
        (S.words store.old) result (S.words store.new) }
    ensures array { OnOk result (PacksIntoArrays part (lanes_of W mask) values.entry
        (S.words store.old) (S.words store.new)) }
    ensures only { WritesOnly S.words S.left S.rest part.first part.len W store.old store.new }
    ensures count { IfOk result (λ count. count ≡ length (members (lanes_of W mask))) }
    ensures unchanged { OnErr result (store.new ≡ store.old) }
{
    scatter(store, part, mask, ranks(mask), values)?;
    Ok(mask.count::<W>())
}

// In each lane of the mask how many of its lanes lie below, and 0 in the others.
fn ranks<const W: usize>(mask: Mask) -> [u64; W]
    requires { IsGangWidth W }
    ensures { result ≡ ranks_of (lanes_of W mask) }
{
    let mut ranks = [0; W];
    let mut below = 0;
    for lane in 0..W {
        if mask.has::<W>(lane) {
            ranks[lane] = below;
            below += 1;
        }
    }
    ranks
}
