// The call fresh, its tests passed: no record in the books, the first blocks used, none retired, and a head that says so. The image stays.
ghost use Rattle.std.specs.Prelude.{◌≡◌, false, ◌^◌, ◌≤◌, ◌<◌, ltb, length, replicate};
ghost use Rattle.rules.specs.Head.{head_bytes, uuid_bytes, encode_head};
ghost use Rattle.rules.specs.Map.{map_bytes, encode_map};
ghost use Rattle.store.specs.Buffers.{fresh_head};

use format::head::Head;

// Every byte of the three books zero.
pub fn fresh_books(cards: &mut [u8], extents: &mut [u8], groups: &mut [u8])
    ensures { (cards.new ≡ replicate (length cards.old) 0) × (extents.new ≡ replicate (length extents.old) 0) × (groups.new ≡ replicate (length groups.old) 0) }
{
    cards.fill(0);
    extents.fill(0);
    groups.fill(0);
}

// A used map in which the first `reserved` of so many blocks are set.
fn fresh_used(used: &mut [u8], blocks: usize, reserved: usize)
    requires { (length used.old ≡ map_bytes blocks) × (reserved ≤ blocks) }
    ensures { used.new ≡ encode_map blocks (λ n. ltb n reserved) }
{
    used.fill(0);
    bitmap::set_range(used, 0, reserved);
}

// Both maps.
pub fn fresh_maps(used: &mut [u8], retired: &mut [u8], blocks: usize, reserved: usize)
    requires { (length used.old ≡ map_bytes blocks) × (length retired.old ≡ map_bytes blocks) × (reserved ≤ blocks) }
    ensures { (used.new ≡ encode_map blocks (λ n. ltb n reserved)) × (retired.new ≡ encode_map blocks (λ n. false)) }
{
    fresh_used(used, blocks, reserved);
    retired.fill(0);
}

// A head with hint 0 and no records.
pub fn fresh_head(head: &mut [u8], uuid: &[u8], blocks: u64, reserved: u64)
    requires { (length head.old ≡ head_bytes) × (length uuid.now ≡ uuid_bytes) × (blocks < 2 ^ 17) × (reserved < 2 ^ 17) }
    ensures { head.new ≡ encode_head (fresh_head uuid.now blocks reserved) }
{
    let h = Head {
        uuid: format::head::read_uuid(uuid),
        blocks,
        reserved,
        hint: 0,
        cards: 0,
        extents: 0,
        groups: 0,
    };
    format::head::encode_head(head, h);
}
