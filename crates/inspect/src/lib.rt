// `inspect_unit`: a unit that is read, checked against its checksum.
//
// The caller has looked up the unit's slot and its blocks, and lends the tables of the checksum and its window. No byte is copied: the checksum is
// fed from the image where the blocks stand, a run of adjoining ones at once.
#![tactic(auto)]

ghost use Rattle.std.specs.Prelude.{◌≡◌, true, List, [], ℕ, ◌+◌, ◌-◌, ◌*◌, ◌^◌, min, ◌≤◌, ◌<◌, eqb, length, take, drop, get_or};
ghost use Rattle.rules.specs.Lists.{all, any, given, begun};
ghost use Rattle.rules.specs.Sizes.{block_bytes, unit_blocks, unit_bytes};
ghost use Rattle.rules.specs.Bytes.{all_zero};
ghost use Rattle.rules.specs.Checksum.{unit_checksum};
ghost use Rattle.rules.specs.Units.{valid_length};
ghost use Rattle.crc32c_tables.specs.Register.{Tables};
ghost use Rattle.crc32c.specs.Unit.{UnitFed};
ghost use Rattle.mapping.specs.Entries.{entry_of, entries, Inside};
ghost use Rattle.inspect.specs.Mapped.{slot_mapped, inspect_mapped, check_mapped};
ghost use Rattle.rules.specs.Answers.{checked_number};
ghost use Rattle.format.specs.Refusals.{number_in};
ghost use Rattle.inspect.specs.Answer.{Answers};
ghost use Rattle.inspect.specs.Runs.{Backed, Run, backed_bytes, bytes_before};

use format::refusal::Refusal;
use format::sizes::{BLOCK_BYTES, UNIT_BLOCKS, UNIT_BYTES};

// What a unit that is read is, where it is not refused: a hole; or checked, its bytes right where they stand.
#[derive(Clone, Copy)]
pub enum Inspected {
    Hole,
    Checked,
}

// How many of the unit's bytes the file has.
fn valid_length(size: u64, unit: u64) -> usize
    requires { unit * unit_bytes < size }
    ensures { result ≡ valid_length size unit }
{
    let left = size - unit * UNIT_BYTES as u64;
    left.min(UNIT_BYTES as u64) as usize
}

// Whether one of the entries names a block.
fn any_mapped(blocks: &[u32]) -> bool
    ensures { result ≡ any given (entries blocks.now) }
{
    blocks.iter().any(|b| *b != 0)
}

// Whether each of the first `n` does.
fn all_mapped(blocks: &[u32], n: usize) -> bool
    requires { n ≤ length blocks.now }
    ensures { result ≡ all given (take n (entries blocks.now)) }
{
    blocks[..n].iter().all(|b| *b != 0)
}

// Where the block that an entry names starts in the image.
fn block_start(entry: u32) -> usize
    requires { 0 < entry }
    ensures { result ≡ (entry - 1) * block_bytes }
{
    (entry - 1) as usize * BLOCK_BYTES
}

// Whether entry `b` names the block behind that of `a`.
fn adjoins(a: u32, b: u32) -> bool
    ensures { result ≡ eqb b (a + 1) }
{
    b as u64 == a as u64 + 1
}

// Where the run of adjoining blocks from place `i` on ends.
fn run_end(blocks: &[u32], i: usize, n: usize) -> usize
    requires { (i < n) × (n ≤ length blocks.now) }
    ensures { (i < result) × (result ≤ n) × Run blocks.now i result }
{
    for e in i + 1..n {
        if !adjoins(blocks[e - 1], blocks[e]) {
            return e;
        }
    }
    n
}

// How many valid bytes the blocks from place `i` up to `e` have.
fn run_bytes(valid: usize, i: usize, e: usize) -> usize
    requires { (i < e) × (e ≤ begun valid block_bytes) × (valid ≤ unit_bytes) }
    ensures { result ≡ min (e * block_bytes) valid - i * block_bytes }
{
    valid.min(e * BLOCK_BYTES) - i * BLOCK_BYTES
}

// The state after the valid bytes of the run from place `i` up to `e`.
fn feed_run(
    t: &[u32; 4096],
    w: &mut [u8],
    state: crc32c::unit::Running,
    image: &[u8],
    blocks: &[u32],
    n: usize,
    valid: usize,
    i: usize,
    e: usize,
) -> crc32c::unit::Running
    requires tables { Tables t.now }
    requires w_len { length w.old ≡ 4624 }
    requires backed { Backed image.now blocks.now n }
    requires n_value { (n ≡ begun valid block_bytes) × (valid ≤ unit_bytes) }
    requires i_lt_e { (i < e) × (e ≤ n) × Run blocks.now i e }
    ensures { (uuid : List ℕ) (object unit m : ℕ) → UnitFed state w.old uuid object unit m (bytes_before image.now blocks.now n valid i) → UnitFed result w.new uuid object unit m (bytes_before image.now blocks.now n valid e) }
{
    let start = block_start(blocks[i]);
    let end = start + run_bytes(valid, i, e);
    crc32c::unit::feed(t, w, state, &image[start..end])
}

// The state after the `valid` bytes of the first `n` blocks, from that before the first of them.
fn feed_blocks(
    t: &[u32; 4096],
    w: &mut [u8],
    state: crc32c::unit::Running,
    image: &[u8],
    blocks: &[u32],
    n: usize,
    valid: usize,
) -> crc32c::unit::Running
    requires tables { Tables t.now }
    requires w_len { length w.old ≡ 4624 }
    requires backed { Backed image.now blocks.now n }
    requires n_value { (n ≡ begun valid block_bytes) × (valid ≤ unit_bytes) }
    ensures { (uuid : List ℕ) (object unit m : ℕ) → UnitFed state w.old uuid object unit m [] → UnitFed result w.new uuid object unit m (take valid (backed_bytes image.now blocks.now n)) }
{
    let mut fed = state;
    let mut i: usize = 0;
    // The place jumps to where a run ends, which the entries say.
    while i < n {
        let e = run_end(blocks, i, n);
        fed = feed_run(t, w, fed, image, blocks, n, valid, i, e);
        i = e;
    }
    fed
}

// The checksum of a unit whose `valid` bytes stand in the first `n` blocks.
fn blocks_checksum(
    t: &[u32; 4096],
    w: &mut [u8],
    image: &[u8],
    uuid: &[u8],
    object: u64,
    unit: u64,
    blocks: &[u32],
    n: usize,
    valid: usize,
) -> u32
    requires tables { Tables t.now }
    requires w_len { length w.old ≡ 4624 }
    requires backed { Backed image.now blocks.now n }
    requires n_value { (n ≡ begun valid block_bytes) × (valid ≤ unit_bytes) }
    ensures { result ≡ unit_checksum uuid.now object unit (take valid (backed_bytes image.now blocks.now n)) }
{
    let begun = crc32c::unit::begin(t, w, uuid, object, unit, valid as u32);
    let fed = feed_blocks(t, w, begun, image, blocks, n, valid);
    crc32c::unit::finish(t, w, fed)
}

// Whether the last of the first `n` blocks is zero behind the `valid` bytes.
fn zero_past(image: &[u8], blocks: &[u32], n: usize, valid: usize) -> bool
    requires backed { Backed image.now blocks.now n }
    requires n_value { (n ≡ begun valid block_bytes) × (valid ≤ unit_bytes) }
    requires n_nonzero { 0 < n }
    ensures { result ≡ all_zero (drop valid (backed_bytes image.now blocks.now n)) }
{
    let last = n - 1;
    let start = block_start(blocks[last]);
    words::range::is_zero(
        image,
        start + (valid - last * BLOCK_BYTES),
        start + BLOCK_BYTES,
    )
}

// A unit that has the checksum `crc`: refusals 10 to 12 in their order.
fn slot_checked(
    t: &[u32; 4096],
    w: &mut [u8],
    image: &[u8],
    uuid: &[u8],
    object: u64,
    size: u64,
    unit: u64,
    crc: u32,
    blocks: &[u32],
) -> Result<Inspected, Refusal>
    requires tables { Tables t.now }
    requires w_len { length w.old ≡ 4624 }
    requires blocks_len { length blocks.now ≡ unit_blocks }
    requires inside { Inside image.now blocks.now }
    requires unit_bytes_bound { unit * unit_bytes < size }
    ensures { Answers result (slot_mapped image.now uuid.now object size unit (entries blocks.now) crc) }
{
    let valid = valid_length(size, unit);
    let n = valid.div_ceil(BLOCK_BYTES);
    if !all_mapped(blocks, n) {
        return Err(Refusal::NotBacked);
    }
    if !zero_past(image, blocks, n, valid) {
        return Err(Refusal::NonzeroPastEnd);
    }
    if blocks_checksum(t, w, image, uuid, object, unit, blocks, n, valid) != crc {
        return Err(Refusal::ChecksumDiffers);
    }
    Ok(Inspected::Checked)
}

// The unit, read: with `slot` 0 it has no checksum and is a hole, after refusal 9; else its checksum is one less.
pub fn inspect_unit(
    t: &[u32; 4096],
    w: &mut [u8],
    image: &[u8],
    uuid: &[u8],
    object: u64,
    size: u64,
    unit: u64,
    slot: u64,
    blocks: &[u32],
) -> Result<Inspected, Refusal>
    requires tables { Tables t.now }
    requires w_len { length w.old ≡ 4624 }
    requires blocks_len { length blocks.now ≡ unit_blocks }
    requires inside { Inside image.now blocks.now }
    requires unit_bytes_bound { unit * unit_bytes < size }
    requires slot_bound { slot ≤ 2 ^ 32 }
    ensures { Answers result (inspect_mapped image.now uuid.now object size unit (entries blocks.now) (entry_of slot)) }
{
    if slot == 0 {
        if any_mapped(blocks) {
            return Err(Refusal::NoChecksum);
        }
        return Ok(Inspected::Hole);
    }
    slot_checked(
        t,
        w,
        image,
        uuid,
        object,
        size,
        unit,
        (slot - 1) as u32,
        blocks,
    )
}

// Units one after another from `first` on, each with its slot and its sixteen blocks: the first refusal, if there is one.
pub fn check_units(
    t: &[u32; 4096],
    w: &mut [u8],
    image: &[u8],
    uuid: &[u8],
    object: u64,
    size: u64,
    first: u64,
    slots: &[u64],
    blocks: &[u32],
) -> Result<(), Refusal>
    requires tables { Tables t.now }
    requires w_len { length w.old ≡ 4624 }
    requires blocks_len { length blocks.now ≡ unit_blocks * length slots.now }
    requires inside { Inside image.now blocks.now }
    requires by_index { (k : ℕ) → k < length slots.now → ((first + k) * unit_bytes < size) × (get_or slots.now k 0 ≤ 2 ^ 32) }
    ensures { number_in result ≡ checked_number (check_mapped image.now uuid.now object size first (entries slots.now) (entries blocks.now)) }
{
    for (k, slot) in slots.iter().enumerate() {
        let start = UNIT_BLOCKS * k;
        let own = &blocks[start..start + UNIT_BLOCKS];
        inspect_unit(
            t,
            w,
            image,
            uuid,
            object,
            size,
            first + k as u64,
            *slot,
            own,
        )?;
    }
    Ok(())
}
