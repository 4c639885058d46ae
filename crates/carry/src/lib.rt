// A planned change decided and carried out: refusals 15 and 16, and then all that it stores.
#![tactic(auto)]

ghost use Rattle.std.specs.Prelude.{◌≡◌, [], ℕ, ◌*◌, ◌≤◌, ◌<◌, length, get_or};
ghost use Rattle.rules.specs.Sizes.{unit_bytes, most_blocks, most_size};
ghost use Rattle.rules.specs.Extent.{extent_bytes};
ghost use Rattle.rules.specs.Group.{group_bytes};
ghost use Rattle.rules.specs.Refusal.{result as result_of};
ghost use Rattle.rules.specs.Units as rules;
ghost use Rattle.rules.specs.Rewrite as rewriting;
ghost use Rattle.rules.specs.Write.{carried_out};
ghost use Rattle.lent.specs.Lent.{store_of, SamePlaces};
ghost use Rattle.mapping.specs.Entries.{extents_in, ExtentsRight};
ghost use Rattle.finish_books.specs.Groups.{groups_in, UnitsRight};
ghost use Rattle.finish_extents.specs.Stretch.{Planned};
ghost use Rattle.file.specs.Change.{numbered};
ghost use Rattle.finish_fit.specs.Fits.{FitAnswer};
ghost use Rattle.file.specs.Flat.{flat_blocks};
ghost use Rattle.carry.specs.Carry.{CarryReady, CarryFor};

use finish_extents::Exchange;
use finish_fit::Fit;
use format::refusal::Refusal;
use format::sizes::{BLOCK_BYTES, UNIT_BLOCKS};
use lent::Store;

// The blocks of units side by side: every unit but the last has all of its own.
fn flat_blocks(new_size: u64, units: &[u64]) -> usize
    requires new_size_le_most_size { (new_size ≤ most_size) × (length units.now ≤ 18) }
    requires by_index { (i : ℕ) → i < length units.now → get_or units.now i 0 * unit_bytes < new_size }
    ensures { (c : rules.Change) → c.new_size ≡ new_size → result ≡ flat_blocks c units.now }
{
    let n = units.len();
    if n == 0 {
        return 0;
    }
    let valid = kept::tests::valid_length(new_size, units[n - 1]);
    UNIT_BLOCKS * (n - 1) + (valid + (BLOCK_BYTES - 1)) / BLOCK_BYTES
}

// Whether the books fit where `units` are rewritten, which may be none.
fn fit_change(
    store: &Store<'_>,
    e: usize,
    g: usize,
    object: u64,
    units: &[u64],
    blocks: &[u32],
    made: &mut [u8],
) -> Result<Fit, Refusal>
    requires extents_right { ExtentsRight most_blocks e store.now.extents.now × (0 < length units.now → Planned object units.now blocks.now (extents_in e store.now.extents.now)) }
    requires g_in_bounds { (group_bytes * g ≤ length store.now.groups.now) × UnitsRight object (groups_in g store.now.groups.now) units.now }
    requires extent_bytes_in_bounds { extent_bytes * 290 ≤ length made.old }
    ensures { FitAnswer object units.now blocks.now g store.now.groups.now e store.now.extents.now result made.new }
{
    if units.len() == 0 {
        let exchange = Exchange {
            place: 0,
            cut: 0,
            count: 0,
        };
        return Ok(Fit {
            groups: g,
            exchange,
        });
    }
    finish_fit::fit_books(
        store.extents,
        e,
        store.groups,
        g,
        object,
        units,
        blocks,
        made,
    )
}

// The units of a plan carried out, or 15 or 16: the arrays have what was looked up of them and what each keeps and is given. `made` has room for the
// extents that are put in.
pub fn carry_change(
    store: &mut Store<'_>,
    n: usize,
    m: usize,
    g: usize,
    uuid: &[u8],
    object: u64,
    old_size: u64,
    new_size: u64,
    offset: u64,
    bytes: &[u8],
    allocated: u64,
    seconds: u64,
    nanoseconds: u64,
    hint: u64,
    units: &[u64],
    slots: &[u64],
    old: &[u32],
    kept: &[u32],
    blocks: &[u32],
    made: &mut [u8],
) -> u32
    requires carry_ready { CarryReady (store_of store.old) n m g object old_size new_size offset bytes.now allocated seconds nanoseconds hint units.now slots.now old.now kept.now blocks.now }
    requires extent_bytes_in_bounds { extent_bytes * 290 ≤ length made.old }
    ensures same_places { SamePlaces store.old store.new }
    ensures carried { (limit : ℕ) (c : rules.Change) (p : rewriting.Progress) (k : rewriting.Plan) → CarryFor limit (store_of store.old) c p k uuid.now object old_size new_size offset bytes.now allocated hint units.now slots.now old.now kept.now blocks.now → numbered result (store_of store.new) ≡ result_of (store_of store.old) [] (carried_out 0 c (record { seconds = seconds; nanoseconds = nanoseconds }) (store_of store.old) k) }
{
    let flat = flat_blocks(new_size, units);
    let fit = match fit_change(store, m, g, object, units, &blocks[..flat], made) {
        Ok(fit) => fit,
        Err(r) => return r.number(),
    };
    file::carry_out::carry_out(
        store,
        n,
        m,
        g,
        uuid,
        object,
        old_size,
        new_size,
        offset,
        bytes,
        allocated,
        seconds,
        nanoseconds,
        hint,
        fit.groups as u64,
        fit.exchange,
        made,
        units,
        slots,
        old,
        kept,
        blocks,
        flat,
    );
    0
}
