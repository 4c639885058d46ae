// The blocks of a change's units, put into the buffer one by one: those adjoining in file and device become one run there.
ghost use Rattle.std.specs.Prelude.{◌≡◌, ◌+◌, ◌*◌, ◌^◌, ◌≤◌, ◌<◌, length};
ghost use Rattle.rules.specs.Sizes.{unit_blocks};
ghost use Rattle.rules.specs.Extent.{extent_bytes};
ghost use Rattle.format.specs.Records.{extent_of};
ghost use Rattle.finish_extents.specs.Stretch.{one_block, single_at, singles, Small, PushedAll};

use super::made::push;
use format::extent::Extent;
use format::sizes::UNIT_BLOCKS;

// A block of a unit as an extent of its own.
fn single(object: u64, unit: u64, offset: u64, block: u32) -> Extent
    requires { (unit < 2 ^ 47) × (offset < unit_blocks) }
    ensures { extent_of result ≡ one_block object (unit * unit_blocks + offset) block }
{
    Extent {
        object,
        logical: unit * UNIT_BLOCKS as u64 + offset,
        physical: block as u64,
        count: 1,
    }
}

// Block `f` of all of them.
fn single_at(object: u64, units: &[u64], blocks: &[u32], f: usize) -> Extent
    requires f_in_bounds { (f < length blocks.now) × (length blocks.now ≤ unit_blocks * length units.now) }
    requires small { Small units.now }
    ensures { extent_of result ≡ single_at object units.now blocks.now f }
{
    single(
        object,
        units[f / UNIT_BLOCKS],
        (f % UNIT_BLOCKS) as u64,
        blocks[f],
    )
}

// All of them behind the `count` extents that were made.
pub fn push_blocks(
    object: u64,
    units: &[u64],
    blocks: &[u32],
    made: &mut [u8],
    count: usize,
) -> usize
    requires blocks_len_bound { length blocks.now ≤ unit_blocks * length units.now }
    requires small { Small units.now }
    requires blocks_in_bounds { extent_bytes * (count + length blocks.now) ≤ length made.old }
    ensures { (result ≤ count + length blocks.now) × PushedAll count made.old (singles object units.now blocks.now (length blocks.now)) result made.new }
{
    let mut n = count;
    for f in 0..blocks.len() {
        n = push(made, n, single_at(object, units, blocks, f));
    }
    n
}
