// The blocks of a unit that do not stay: how many it wants anew, where those given for them go, and how many of the old ones it no longer has.
ghost use Rattle.std.specs.Prelude.{◌≡◌, [], ◌∷◌, ℕ, ◌-◌, ◌≤◌, ◌<◌, length, take, drop, get_or};
ghost use Rattle.rules.specs.Sizes.{unit_blocks, most_blocks};
ghost use Rattle.rules.specs.Kept.{wanted, assigned, superseded};
ghost use Rattle.mapping.specs.Entries.{entry_of, entries};
ghost use Rattle.kept.specs.Blocks.{superseded_at};

use super::block_of;

// 1 for an entry that is none, 0 for one that is kept.
fn missing(entry: u32) -> usize
    ensures { (result ≡ wanted (entry_of entry ∷ [])) × (result ≤ 1) }
{
    usize::from(entry == 0)
}

// The blocks that a unit wants anew: one for each of its entries that is none.
pub fn wanted(kept: &[u32]) -> usize
    ensures { (result ≡ wanted (entries kept.now)) × (result ≤ length kept.now) }
{
    kept.iter().filter(|entry| **entry == 0).count()
}

// The block of an entry, and where it is none the `j`-th of those given.
fn block_at(entry: u32, new: &[u64], j: usize) -> u32
    requires { (entry ≡ 0 → j < length new.now) × (entry ≡ 0 → get_or new.now j 0 < most_blocks) }
    ensures { (entry ≡ 0 → result ≡ get_or new.now j 0) × ((entry ≡ 0 → ⊥) → result ≡ entry - 1) }
{
    match block_of(entry) {
        Some(block) => block,
        None => new[j] as u32,
    }
}

// A unit's blocks: those kept where they are kept, and those given, in their order, in the other places.
pub fn assign(kept: &[u32], new: &[u64], blocks: &mut [u32])
    requires n_in_bounds { length kept.now ≤ length blocks.old }
    requires kept_in_bounds { wanted (entries kept.now) ≤ length new.now }
    requires by_index { (i : ℕ) → i < wanted (entries kept.now) → get_or new.now i 0 < most_blocks }
    ensures { take (length kept.now) blocks.new ≡ assigned (entries kept.now) (take (wanted (entries kept.now)) new.now) }
{
    let mut j = 0;
    for (i, entry) in kept.iter().enumerate() {
        blocks[i] = block_at(*entry, new, j);
        j += missing(*entry);
    }
}

// Whether the old unit had a block in this entry, and the new one, which has those of `kept`, keeps none at place `i`.
#[tactic(auto, unfolding(crate::specs::Blocks::superseded_at))]
pub fn is_superseded(entry: u32, kept: &[u32], i: usize) -> bool
    ensures { result ≡ superseded_at entry kept.now i }
{
    entry != 0 && kept.get(i).copied().unwrap_or(0) == 0
}

// The unit's old blocks that it no longer has.
pub fn count_superseded(old: &[u32], kept: &[u32]) -> usize
    requires { length old.now ≡ unit_blocks }
    ensures { (result ≡ length (superseded (entries old.now) (entries kept.now))) × (result ≤ unit_blocks) }
{
    let mut n = 0;
    for (i, entry) in old.iter().enumerate() {
        n += usize::from(is_superseded(*entry, kept, i));
    }
    n
}
