// The reads of a list checked one after another, refusals 1, 2 and 17 past: each unit that they touch is inspected once.
//
// A unit is inspected where no read before has it, and the count of inspections goes up there and nowhere else; so it
// is the number of different units. What a read touches is told by its triple and the size of its file, which is noted
// for each read. The count is lent from function to function, so that each says of it on a refusal too.
#![tactic(auto)]

ghost use Rattle.std.specs.Prelude.{◌≡◌, true, ℕ, ◌+◌, ◌*◌, ◌/◌, ◌^◌, ◌≤◌, ◌<◌, length};
ghost use Rattle.rules.specs.Lists.{any, range};
ghost use Rattle.rules.specs.Sizes.{unit_bytes};
ghost use Rattle.rules.specs.Head.{head_bytes, decode_head};
ghost use Rattle.rules.specs.Triples.{triple_bytes, most_triples};
ghost use Rattle.rules.specs.ReadMany.{same_pair};
ghost use Rattle.crc32c_tables.specs.Register.{Tables};
ghost use Rattle.read.specs.Range.{Readable};
ghost use Rattle.read.specs.Gives.{ReadReady};
ghost use Rattle.triples.specs.Triple.{triple_at};
ghost use Rattle.format.specs.Refusals.{number_in, count_in};
ghost use Rattle.read_checks.specs.Reads.{looked, unit_number, units_read, pairs_read, pair_is, pairs_before};
ghost use Rattle.read_checks.specs.Checked.{Earlier, NewChecked, UnitsChecked, ReadChecked, ListChecked};

use format::card::CARD_BYTES;
use format::refusal::Refusal;
use format::sizes::{UNIT_BLOCKS, UNIT_BYTES};
use triples::{MOST_TRIPLES, TRIPLE_BYTES};

// Whether `unit` is one of those that the read at place `j`, of a file of this size, touches, and `object` its file.
fn in_read(list: &[u8], j: usize, size: u64, object: u64, unit: u64) -> bool
    requires { triple_bytes * j + triple_bytes ≤ length list.now }
    ensures { result ≡ any (same_pair (pair_is object unit)) (pairs_read (triple_at list.now j) size) }
{
    let t = triples::triple_at(list, j);
    if t.object != object {
        return false;
    }
    let n = read::read_length(size, t.offset, t.len as usize);
    if n == 0 {
        return false;
    }
    let first = t.offset / UNIT_BYTES as u64;
    if unit < first {
        return false;
    }
    unit - first < read::units_touched(t.offset, n) as u64
}

// Whether one of the first `i` reads touches this unit.
fn seen_before(list: &[u8], sizes: &[u64], i: usize, object: u64, unit: u64) -> bool
    requires { (triple_bytes * i ≤ length list.now) × (i ≤ length sizes.now) }
    ensures { result ≡ any (same_pair (pair_is object unit)) (pairs_before list.now sizes.now i) }
{
    for j in 0..i {
        if in_read(list, j, sizes[j], object, unit) {
            return true;
        }
    }
    false
}

// A unit inspected, and one inspection more counted, whether it is refused or not. Nothing else inspects or counts.
fn check_unit(
    t: &[u32; 4096],
    w: &mut [u8],
    image: &[u8],
    head: &[u8],
    extents: &[u8],
    groups: &[u8],
    object: u64,
    size: u64,
    unit: u64,
    made: &mut u64,
) -> Result<(), Refusal>
    requires tables { Tables t.now }
    requires w_len { length w.old ≡ 4624 }
    requires head_len { length head.now ≡ head_bytes }
    requires readable { Readable image.now extents.now groups.now (decode_head head.now).extents (decode_head head.now).groups }
    requires unit_bytes_bound { unit * unit_bytes < size }
    requires made_bound { made.old + 1 < 2 ^ 64 }
    ensures { (number_in result ≡ unit_number (looked image.now head.now extents.now groups.now) object size unit) × (made.new ≡ made.old + 1) }
{
    let h = format::head::decode_head(head);
    let uuid = h.uuid;
    let e = h.extents as usize;
    let g = h.groups as usize;
    let mut blocks = [0u32; UNIT_BLOCKS];
    *made += 1;
    read::check_range(
        t,
        w,
        image,
        &uuid,
        extents,
        e,
        groups,
        g,
        object,
        size,
        unit,
        1,
        &mut blocks,
    )
}

// A unit of the read at place `i`, inspected where no read before touches it: else it was right.
fn check_new(
    t: &[u32; 4096],
    w: &mut [u8],
    image: &[u8],
    head: &[u8],
    extents: &[u8],
    groups: &[u8],
    list: &[u8],
    sizes: &[u64],
    i: usize,
    object: u64,
    size: u64,
    unit: u64,
    made: &mut u64,
) -> Result<(), Refusal>
    requires tables { Tables t.now }
    requires w_len { length w.old ≡ 4624 }
    requires head_len { length head.now ≡ head_bytes }
    requires readable { Readable image.now extents.now groups.now (decode_head head.now).extents (decode_head head.now).groups }
    requires i_in_bounds { (triple_bytes * i ≤ length list.now) × (i ≤ length sizes.now) }
    requires unit_bytes_bound { unit * unit_bytes < size }
    requires made_bound { made.old + 1 < 2 ^ 64 }
    requires unit_value { any (same_pair (pair_is object unit)) (pairs_before list.now sizes.now i) ≡ true → unit_number (looked image.now head.now extents.now groups.now) object size unit ≡ 0 }
    ensures { NewChecked (looked image.now head.now extents.now groups.now) object size unit (pairs_before list.now sizes.now i) made.old (number_in result) made.new }
{
    if seen_before(list, sizes, i, object, unit) {
        return Ok(());
    }
    check_unit(t, w, image, head, extents, groups, object, size, unit, made)
}

// The `k` units from `first` on of the read at place `i`.
fn check_stretch(
    t: &[u32; 4096],
    w: &mut [u8],
    image: &[u8],
    head: &[u8],
    extents: &[u8],
    groups: &[u8],
    list: &[u8],
    sizes: &[u64],
    i: usize,
    object: u64,
    size: u64,
    first: u64,
    k: usize,
    made: &mut u64,
) -> Result<(), Refusal>
    requires tables { Tables t.now }
    requires w_len { length w.old ≡ 4624 }
    requires head_len { length head.now ≡ head_bytes }
    requires readable { Readable image.now extents.now groups.now (decode_head head.now).extents (decode_head head.now).groups }
    requires i_in_bounds { (triple_bytes * i ≤ length list.now) × (i ≤ length sizes.now) }
    requires unit_bytes_bound { (first + k) * unit_bytes < size + unit_bytes }
    requires k_bound { made.old + k < 2 ^ 64 }
    requires by_index { (u : ℕ) → any (same_pair (pair_is object u)) (pairs_before list.now sizes.now i) ≡ true → unit_number (looked image.now head.now extents.now groups.now) object size u ≡ 0 }
    ensures { UnitsChecked (looked image.now head.now extents.now groups.now) object size (range first k) (pairs_before list.now sizes.now i) made.old k (number_in result) made.new }
{
    for j in 0..k {
        let unit = first + j as u64;
        check_new(
            t, w, image, head, extents, groups, list, sizes, i, object, size, unit, made,
        )?;
    }
    Ok(())
}

// The read at place `i`, of a file of this size.
fn check_sized(
    t: &[u32; 4096],
    w: &mut [u8],
    image: &[u8],
    head: &[u8],
    extents: &[u8],
    groups: &[u8],
    list: &[u8],
    sizes: &[u64],
    i: usize,
    size: u64,
    made: &mut u64,
) -> Result<(), Refusal>
    requires tables { Tables t.now }
    requires w_len { length w.old ≡ 4624 }
    requires head_len { length head.now ≡ head_bytes }
    requires readable { Readable image.now extents.now groups.now (decode_head head.now).extents (decode_head head.now).groups }
    requires triple_bytes_in_bounds { (triple_bytes * i + triple_bytes ≤ length list.now) × (i ≤ length sizes.now) }
    requires made_bound { made.old + 17 < 2 ^ 64 }
    requires by_index { (u : ℕ) → any (same_pair (pair_is (triple_at list.now i).object u)) (pairs_before list.now sizes.now i) ≡ true → unit_number (looked image.now head.now extents.now groups.now) (triple_at list.now i).object size u ≡ 0 }
    ensures { UnitsChecked (looked image.now head.now extents.now groups.now) (triple_at list.now i).object size (units_read (triple_at list.now i) size) (pairs_before list.now sizes.now i) made.old 17 (number_in result) made.new }
{
    let x = triples::triple_at(list, i);
    let n = read::read_length(size, x.offset, x.len as usize);
    if n == 0 {
        return Ok(());
    }
    let k = read::units_touched(x.offset, n);
    check_stretch(
        t,
        w,
        image,
        head,
        extents,
        groups,
        list,
        sizes,
        i,
        x.object,
        size,
        x.offset / UNIT_BYTES as u64,
        k,
        made,
    )
}

// The read at place `i`: refusal 3, or its units. The size of its file is noted.
fn check_read(
    t: &[u32; 4096],
    w: &mut [u8],
    image: &[u8],
    head: &[u8],
    cards: &[u8],
    n: usize,
    extents: &[u8],
    groups: &[u8],
    list: &[u8],
    sizes: &mut [u64],
    i: usize,
    made: &mut u64,
) -> Result<(), Refusal>
    requires tables { Tables t.now }
    requires w_len { length w.old ≡ 4624 }
    requires read_ready { ReadReady image.now head.now cards.now extents.now groups.now }
    requires n_value { n ≡ (decode_head head.now).cards }
    requires triple_bytes_in_bounds { (triple_bytes * i + triple_bytes ≤ length list.now) × (i < most_triples) × (length sizes.old ≡ most_triples) }
    requires made_bound { made.old + 17 < 2 ^ 64 }
    requires earlier { Earlier (looked image.now head.now extents.now groups.now) cards.now list.now sizes.old i }
    ensures { ReadChecked (looked image.now head.now extents.now groups.now) cards.now list.now sizes.old i made.old sizes.new (number_in result) made.new }
{
    let x = triples::triple_at(list, i);
    match book::find::find_card(cards, n, x.object) {
        Some(c) => {
            let size = format::card::card_size(cards, CARD_BYTES * c);
            let r = check_sized(
                t, w, image, head, extents, groups, list, sizes, i, size, made,
            );
            sizes[i] = size;
            r
        }
        None => Err(Refusal::NoCard),
    }
}

// All reads of the list, up to the first refusal.
fn check_reads(
    t: &[u32; 4096],
    w: &mut [u8],
    image: &[u8],
    head: &[u8],
    cards: &[u8],
    n: usize,
    extents: &[u8],
    groups: &[u8],
    list: &[u8],
    sizes: &mut [u64],
) -> Result<u64, Refusal>
    requires tables { Tables t.now }
    requires w_len { length w.old ≡ 4624 }
    requires read_ready { ReadReady image.now head.now cards.now extents.now groups.now }
    requires n_value { n ≡ (decode_head head.now).cards }
    requires triple_bytes_len_bound { (length list.now / triple_bytes ≤ most_triples) × (length sizes.old ≡ most_triples) }
    ensures { ListChecked (looked image.now head.now extents.now groups.now) cards.now list.now sizes.new (number_in result) (count_in result) }
{
    let mut made: u64 = 0;
    for i in 0..list.len() / TRIPLE_BYTES {
        check_read(
            t, w, image, head, cards, n, extents, groups, list, sizes, i, &mut made,
        )?;
    }
    Ok(made)
}

// The same, with the tables of the checksum and its window. The sizes of the files are left in `sizes`, a place for each read.
pub fn check_list(
    image: &[u8],
    head: &[u8],
    cards: &[u8],
    extents: &[u8],
    groups: &[u8],
    list: &[u8],
    sizes: &mut [u64],
) -> Result<u64, Refusal>
    requires read_ready { ReadReady image.now head.now cards.now extents.now groups.now }
    requires triple_bytes_len_bound { (length list.now / triple_bytes ≤ most_triples) × (length sizes.old ≡ most_triples) }
    ensures { ListChecked (looked image.now head.now extents.now groups.now) cards.now list.now sizes.new (number_in result) (count_in result) }
{
    let t = crc32c_tables::tables();
    let mut w = [0u8; 4624];
    let h = format::head::decode_head(head);
    check_reads(
        &t,
        &mut w,
        image,
        head,
        cards,
        h.cards as usize,
        extents,
        groups,
        list,
        sizes,
    )
}
