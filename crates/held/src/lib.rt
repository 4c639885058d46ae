// The extents of a stretch of a file, held in an array and lent as a slice, which is searched for the one that maps a block.
//
// An entry is 0 where no extent maps a block, and one more than its block on the device elsewhere.
#![tactic(auto)]

ghost use Rattle.std.specs.Prelude.{◌≡◌, ◌+◌, ◌^◌, ◌≤◌, ◌<◌, length, get_or, take};
ghost use Rattle.held.specs.Held.{no_extent, OnDevice, HeldRight, entry_through, held_entry, Mapped};

use format::extent::Extent;

// The most blocks of a stretch: the 256 of a read, and a unit at either end. Each extent of it maps one at least.
pub const MOST_STRETCH: usize = 288;

// The entry of `block` of the file of `object` through one extent: 0 where it does not map it.
fn entry_through(e: Extent, object: u64, block: u64) -> u32
    requires { OnDevice e }
    ensures { result ≡ entry_through object block e }
{
    if !e.covers(object, block) {
        return 0;
    }
    (e.block_of(block) + 1) as u32
}

// The same through the extent held at place `i`.
fn entry_at(held: &[Extent], i: usize, object: u64, block: u64) -> u32
    requires { (i < length held.now) × OnDevice (get_or held.now i no_extent) }
    ensures { result ≡ entry_through object block (get_or held.now i no_extent) }
{
    entry_through(held[i], object, block)
}

// The entry through the first of `k` held extents that maps the block.
pub fn held_entry(held: &[Extent], k: usize, object: u64, block: u64) -> u32
    requires { HeldRight k held.now }
    ensures { result ≡ held_entry object block (take k held.now) }
{
    let mut i: usize = 0;
    while i < k {
        let r = entry_at(held, i, object, block);
        if r != 0 {
            return r;
        }
        i += 1;
    }
    0
}

// The entries of the blocks from `first` on, by `k` held extents: the array is lent for each block.
pub fn map_held(held: [Extent; MOST_STRETCH], k: usize, object: u64, first: u64, blocks: &mut [u32])
    requires { HeldRight k held × (first + length blocks.old < 2 ^ 64) }
    ensures { Mapped object first (take k held) blocks.new (length blocks.new) }
{
    let a = held;
    let mut i: usize = 0;
    while i < blocks.len() {
        blocks[i] = held_entry(&a, k, object, first + i as u64);
        i += 1;
    }
}
