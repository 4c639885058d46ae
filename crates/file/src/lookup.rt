// What is looked up of the units of a change: where their blocks are, and their checksums.
ghost use Rattle.std.specs.Prelude.{◌≡◌, ℕ, ◌*◌, ◌^◌, ◌≤◌, ◌<◌, length, get_or};
ghost use Rattle.rules.specs.Sizes.{unit_blocks, most_blocks};
ghost use Rattle.rules.specs.Extent.{mapping};
ghost use Rattle.rules.specs.Group.{group_bytes, decode_group};
ghost use Rattle.rules.specs.Book.{decode_book};
ghost use Rattle.mapping.specs.Entries.{extents_in, ExtentsRight, slot_of};
ghost use Rattle.file.specs.LookUp.{EachBlock, EachUnit};

use format::sizes::UNIT_BLOCKS;

// The blocks of the units, sixteen to a unit.
pub fn unit_blocks(extents: &[u8], n: usize, object: u64, units: &[u64], old: &mut [u32])
    requires extents_right { ExtentsRight most_blocks n extents.now }
    requires by_index { (k : ℕ) → get_or units.now k 0 < 2 ^ 48 }
    requires len { length old.old ≡ unit_blocks * length units.now }
    ensures { EachBlock (mapping (extents_in n extents.now) object) (length units.now) units.now old.new }
{
    for (j, unit) in units.iter().enumerate() {
        let first = *unit * UNIT_BLOCKS as u64;
        let from = UNIT_BLOCKS * j;
        let end = from + UNIT_BLOCKS;
        mapping::extents::map_blocks(extents, n, object, first, &mut old[from..end]);
    }
}

// The checksums of the units, an entry for each.
pub fn unit_checksums(groups: &[u8], n: usize, object: u64, units: &[u64], slots: &mut [u64])
    requires n_in_bounds { group_bytes * n ≤ length groups.now }
    requires by_index { (k : ℕ) → get_or units.now k 0 < 2 ^ 48 }
    requires slots_len { length slots.old ≡ length units.now }
    ensures { EachUnit (slot_of (decode_book decode_group group_bytes n groups.now) object) (length units.now) units.now slots.new }
{
    for (j, unit) in units.iter().enumerate() {
        let end = j + 1;
        mapping::slots::unit_slots(groups, n, object, *unit, &mut slots[j..end]);
    }
}
