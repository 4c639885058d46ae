// The call settle, its tests passed: both bits of every retired block cleared.
ghost use Rattle.std.specs.Prelude.{◌≡◌, false, not, ◌&&◌, length};
ghost use Rattle.rules.specs.Lists.{count, range};
ghost use Rattle.rules.specs.Bytes.{bit_set};
ghost use Rattle.rules.specs.Map.{map_bytes, encode_map};

// Both maps of so many blocks settled; the number of the retired blocks.
pub fn settle_maps(used: &mut [u8], retired: &mut [u8], blocks: usize) -> u64
    requires { (length used.old ≡ map_bytes blocks) × (length retired.old ≡ map_bytes blocks) }
    ensures { (result ≡ count (bit_set retired.old) (range 0 blocks)) × (used.new ≡ encode_map blocks (λ n. bit_set used.old n && not (bit_set retired.old n))) × (retired.new ≡ encode_map blocks (λ n. false)) }
{
    let count = bitmap::count_set(retired, 0, blocks);
    bitmap_pairs::difference::clear_where(used, retired);
    retired.fill(0);
    count as u64
}
