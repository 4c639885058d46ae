// The call fill, its tests passed.
ghost use Rattle.std.specs.Prelude.{◌≡◌, length, ◌-◌, ◌≤◌};
ghost use Rattle.rules.specs.Lists.{count, range};
ghost use Rattle.rules.specs.Sizes.{most_blocks};
ghost use Rattle.rules.specs.Bytes.{bit_set};
ghost use Rattle.rules.specs.Head.{head_bytes, decode_head};
ghost use Rattle.rules.specs.Map.{map_bytes};
ghost use Rattle.rules.specs.Settle.{per_mille};

// So many used blocks of those that can be used, per mille; 0 where none can.
fn per_mille(used: u64, usable: u64) -> u64
    requires { used ≤ most_blocks }
    ensures { result ≡ per_mille used usable }
{
    if usable == 0 {
        return 0;
    }
    used * 1000 / usable
}

// The number of blocks that a head says are reserved.
#[tactic(auto, unfolding(format::specs::Records::head_of))]
pub fn reserved_blocks(head: &[u8]) -> usize
    requires { length head.now ≡ head_bytes }
    ensures { result ≡ (decode_head head.now).reserved }
{
    let h = format::head::decode_head(head);
    h.reserved as usize
}

// The used blocks of a map of so many, per mille, the reserved ones left out: they are the first.
pub fn used_per_mille(used: &[u8], reserved: usize, blocks: usize) -> u64
    requires { (length used.now ≡ map_bytes blocks) × (reserved ≤ blocks) × (blocks ≤ most_blocks) }
    ensures { result ≡ per_mille (count (bit_set used.now) (range reserved (blocks - reserved))) (blocks - reserved) }
{
    let n = bitmap::count_set(used, reserved, blocks);
    let usable = blocks - reserved;
    per_mille(n as u64, usable as u64)
}
