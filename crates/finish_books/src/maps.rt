// The two maps after a change: the new blocks used, and those that the rewritten units no longer have retired. Both are told by arrays of the units' blocks side
// by side, a unit's sixteen after another's; the last unit may have fewer.
ghost use Rattle.std.specs.Prelude.{◌≡◌, ◌||◌, ℕ, ◌-◌, ◌*◌, ◌<◌, eqb, length, get_or};
ghost use Rattle.rules.specs.Lists.{member};
ghost use Rattle.rules.specs.Bytes.{bit_set};
ghost use Rattle.rules.specs.Map.{map_bytes, encode_map};
ghost use Rattle.rules.specs.Kept.{superseded};
ghost use Rattle.mapping.specs.Entries.{entries};
ghost use Rattle.finish_books.specs.Buffers.{new_of, gone_at, marked_if, NewInside, OldInside};

// The block at place `f` used, if it is new.
fn mark_new(used: &mut [u8], kept: &[u32], blocks: &[u32], f: usize)
    requires f_in_bounds { (f < length kept.now) × (length kept.now ≡ length blocks.now) }
    requires new_inside { NewInside (8 * length used.old) kept.now blocks.now }
    ensures { used.new ≡ marked_if (eqb (get_or kept.now f 0) 0) (get_or blocks.now f 0) used.old }
{
    if kept[f] == 0 {
        bitmap::set(used, blocks[f] as usize);
    }
}

// The used map with the new blocks: those of `blocks` in whose place nothing is kept.
pub fn mark_used(used: &mut [u8], kept: &[u32], blocks: &[u32])
    requires kept_len { length kept.now ≡ length blocks.now }
    requires new_inside { NewInside (8 * length used.old) kept.now blocks.now }
    ensures { (b : ℕ) → length used.old ≡ map_bytes b → used.new ≡ encode_map b (λ n. bit_set used.old n || member n (new_of kept.now blocks.now)) }
{
    for f in 0..kept.len() {
        mark_new(used, kept, blocks, f);
    }
}

// Whether an old block stood at place `f` and nothing is kept there.
#[tactic(auto, unfolding(crate::specs::Buffers::gone_at))]
fn gone(old: &[u32], kept: &[u32], f: usize) -> bool
    requires { f < length old.now }
    ensures { result ≡ gone_at old.now kept.now f }
{
    old[f] != 0 && kept.get(f).copied().unwrap_or(0) == 0
}

// The old block at place `f` retired, if it is gone.
fn mark_gone(retired: &mut [u8], old: &[u32], kept: &[u32], f: usize)
    requires f_in_bounds { f < length old.now }
    requires old_inside { OldInside (8 * length retired.old) old.now }
    ensures { retired.new ≡ marked_if (gone_at old.now kept.now f) (get_or old.now f 0 - 1) retired.old }
{
    if gone(old, kept, f) {
        bitmap::set(retired, old[f] as usize - 1);
    }
}

// The retired map with the old blocks that the units no longer have.
pub fn mark_retired(retired: &mut [u8], old: &[u32], kept: &[u32])
    requires { OldInside (8 * length retired.old) old.now }
    ensures { (b : ℕ) → length retired.old ≡ map_bytes b → retired.new ≡ encode_map b (λ n. bit_set retired.old n || member n (superseded (entries old.now) (entries kept.now))) }
{
    for f in 0..old.len() {
        mark_gone(retired, old, kept, f);
    }
}
