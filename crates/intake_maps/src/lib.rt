// Refusal 2's rules on the maps: mapped blocks are used, neither retired nor reserved; reserved ones are used and not retired; retired ones are used; and no
// bit is set past the last block. By words of 64 bits; a wrong extent ends it, a wrong word does not.
#![tactic(auto)]

ghost use Rattle.std.specs.Prelude.{◌≡◌, true, not, ◌+◌, ◌*◌, ◌≤◌, ◌<◌, length};
ghost use Rattle.rules.specs.Lists.{all};
ghost use Rattle.rules.specs.Extent.{extent_bytes, decode_extent};
ghost use Rattle.rules.specs.Book.{decode_book};
ghost use Rattle.book.specs.Places.{record_at};
ghost use Rattle.intake_maps.specs.MapTests.{blocks_mappable, extent_mappable, maps_alone, maps_right, placed, Paired, MapsSized};

use format::extent::EXTENT_BYTES;

// Both maps, and how many blocks are reserved.
#[derive(Clone, Copy)]
pub struct Maps<'a> {
    pub reserved: usize,
    pub used: &'a [u8],
    pub retired: &'a [u8],
    ghost paired: { Paired used.now retired.now },
}

impl<'a> Maps<'a> {
    // Whether the `count` blocks from `first` on are used, not retired and not reserved. Those of most extents lie in one word.
    fn blocks_mappable(&self, first: u64, count: u32) -> bool
        requires { (0 < count) × (first + count ≤ 8 * length self.now.used.now) }
        ensures { result ≡ blocks_mappable self.now.reserved self.now.used.now self.now.retired.now first count }
    {
        let a = first as usize;
        let n = count as usize;
        if a < self.reserved {
            false
        } else if n <= 64 - a % 64 {
            bitmap_pairs::only_in_word(self.used, self.retired, a, n)
        } else {
            bitmap_pairs::all_only(self.used, self.retired, a, a + n)
        }
    }

    // Whether the blocks of the extent at place `i` are.
    fn extent_mappable(&self, extents: &[u8], i: usize) -> bool
        requires extent_bytes_in_bounds { extent_bytes * i + extent_bytes ≤ length extents.now }
        requires i_value { placed (8 * length self.now.used.now) (record_at decode_extent extent_bytes extents.now i) ≡ true }
        ensures { result ≡ extent_mappable self.now.reserved self.now.used.now self.now.retired.now (record_at decode_extent extent_bytes extents.now i) }
    {
        let e = format::extent::decode_extent(extents, EXTENT_BYTES * i);
        self.blocks_mappable(e.physical, e.count)
    }

    // Whether the blocks of the first `n` extents are.
    pub fn extents_mappable(&self, extents: &[u8], n: usize) -> bool
        requires n_in_bounds { extent_bytes * n ≤ length extents.now }
        requires extents_value { all (placed (8 * length self.now.used.now)) (decode_book decode_extent extent_bytes n extents.now) ≡ true }
        ensures { result ≡ all (extent_mappable self.now.reserved self.now.used.now self.now.retired.now) (decode_book decode_extent extent_bytes n extents.now) }
    {
        (0..n).all(|i| self.extent_mappable(extents, i))
    }

    // Whether the maps keep the rules that speak of no extent.
    #[tactic(auto, using(crate::proofs::MapLaws::maps_alone_is), unfolding(rules::specs::Map::map_bytes))]
    pub fn alone(&self, blocks: usize) -> bool
        requires { MapsSized blocks self.now.reserved self.now.used.now self.now.retired.now }
        ensures { result ≡ maps_alone blocks self.now.reserved self.now.used.now self.now.retired.now }
    {
        bitmap_pairs::clear_behind(self.used, blocks)
            && bitmap_pairs::clear_behind(self.retired, blocks)
            && bitmap_pairs::all_inside(self.used, self.retired)
            && bitmap_pairs::all_only(self.used, self.retired, 0, self.reserved)
    }
}

// Whether the maps break a rule: the first `n` extents have blocks, and they lie on the device.
#[tactic(auto, using(crate::proofs::MapLaws::maps_right_is))]
pub fn maps_broken(
    extents: &[u8],
    n: usize,
    blocks: usize,
    reserved: usize,
    used: &[u8],
    retired: &[u8],
) -> bool
    requires maps_sized { MapsSized blocks reserved used.now retired.now }
    requires n_in_bounds { extent_bytes * n ≤ length extents.now }
    requires extents_value { all (placed blocks) (decode_book decode_extent extent_bytes n extents.now) ≡ true }
    ensures { result ≡ not (maps_right blocks reserved used.now retired.now (decode_book decode_extent extent_bytes n extents.now)) }
{
    let maps = Maps {
        reserved,
        used,
        retired,
    };
    !(maps.alone(blocks) && maps.extents_mappable(extents, n))
}
