// The list of a file's stretches that hold data, refusals 1 and 2 past.
//
// The book of groups is walked twice: the pairs are counted before the first is written, as the output stays as it was lent where it has no place for
// all of them.
#![tactic(auto)]

ghost use Rattle.std.specs.Prelude.{◌≡◌, ◌+◌, ◌-◌, ◌*◌, ◌^◌, ◌≤◌, ◌<◌, length, drop};
ghost use mathlib.Core.List.{◌++◌, flat_map};
ghost use Rattle.rules.specs.Lists.{begun};
ghost use Rattle.rules.specs.Sizes.{unit_bytes};
ghost use Rattle.rules.specs.Bytes.{patch};
ghost use Rattle.rules.specs.Stretches.{stretch_bytes, encode_stretch};
ghost use Rattle.format.specs.Refusals.{number_in, count_in};
ghost use Rattle.read.specs.Gives.{gives};
ghost use Rattle.presence.specs.Units.{GroupsRight, groups_in, slotted, stretch, stretches_from};
ghost use Rattle.stretches.specs.Lists.{lists_file, lists_object, ListReady};

use format::card::CARD_BYTES;
use format::refusal::Refusal;
use format::sizes::UNIT_BYTES;
use presence::Position;

// Bytes of a pair, and where in it the number of units stands.
pub const STRETCH_BYTES: usize = 16;

const UNITS_AT: usize = 8;

// How many units a file of this size begins.
fn units_begun(size: u64) -> u64
    ensures { (result ≡ begun size unit_bytes) × (result < 2 ^ 63) }
{
    size.div_ceil(UNIT_BYTES as u64)
}

// How many stretches there are from `first` on up to `end`.
fn count_stretches(groups: &[u8], n: usize, object: u64, first: u64, end: u64) -> u64
    requires groups_right { GroupsRight n groups.now }
    requires end_bound { end < 2 ^ 63 }
    ensures { result ≡ length (stretches_from (slotted (groups_in n groups.now) object) first end) }
{
    let start = presence::start_walk(groups, n, object, first);
    let mut place = start.place;
    let mut unit = first;
    let mut count: u64 = 0;
    // Kept: a `while`, as the unit jumps from stretch to stretch.
    while unit < end {
        let s = presence::next_stretch(groups, n, object, Position { unit, place }, end);
        if s.first >= end {
            return count;
        }
        count += 1;
        unit = s.end;
        place = s.place;
    }
    count
}

// A pair, at `at`.
fn put_stretch(out: &mut [u8], at: usize, first: u64, units: u64)
    requires { at + stretch_bytes ≤ length out.old }
    ensures { out.new ≡ patch out.old at (encode_stretch (stretch first units)) }
{
    words::put_le64(out, at, first);
    words::put_le64(out, at + UNITS_AT, units);
}

// The pairs of the stretches from `first` on up to `end`, for which there is place.
fn put_stretches(groups: &[u8], n: usize, object: u64, first: u64, end: u64, out: &mut [u8])
    requires groups_right { GroupsRight n groups.now }
    requires end_bound { end < 2 ^ 63 }
    requires end_in_bounds { stretch_bytes * length (stretches_from (slotted (groups_in n groups.now) object) first end) ≤ length out.old }
    ensures { out.new ≡ flat_map encode_stretch (stretches_from (slotted (groups_in n groups.now) object) first end) ++ drop (stretch_bytes * length (stretches_from (slotted (groups_in n groups.now) object) first end)) out.old }
{
    let start = presence::start_walk(groups, n, object, first);
    let mut place = start.place;
    let mut unit = first;
    let mut i: usize = 0;
    // Kept: a `while`, as the unit jumps from stretch to stretch.
    while unit < end {
        let s = presence::next_stretch(groups, n, object, Position { unit, place }, end);
        if s.first >= end {
            return;
        }
        put_stretch(out, STRETCH_BYTES * i, s.first, s.end - s.first);
        i += 1;
        unit = s.end;
        place = s.place;
    }
}

// The pairs of a file of this size: how many there are.
fn list_file(
    groups: &[u8],
    n: usize,
    object: u64,
    size: u64,
    first: u64,
    units: u64,
    out: &mut [u8],
) -> Result<u64, Refusal>
    requires { GroupsRight n groups.now }
    ensures { gives (number_in result) (count_in result) out.new ≡ lists_file (groups_in n groups.now) object first units out.old size }
{
    if units > u64::MAX - first {
        return Err(Refusal::BadRange);
    }
    let end = (first + units).min(units_begun(size));
    let count = count_stretches(groups, n, object, first, end);
    if count > (out.len() / STRETCH_BYTES) as u64 {
        return Err(Refusal::BadRange);
    }
    put_stretches(groups, n, object, first, end, out);
    Ok(count)
}

// The pairs of the file of `object`: refusal 3, or what its groups give.
pub fn data_stretches(
    head: &[u8],
    cards: &[u8],
    groups: &[u8],
    object: u64,
    first: u64,
    units: u64,
    out: &mut [u8],
) -> Result<u64, Refusal>
    requires { ListReady head.now cards.now groups.now }
    ensures { gives (number_in result) (count_in result) out.new ≡ lists_object head.now cards.now groups.now object first units out.old }
{
    let h = format::head::decode_head(head);
    match book::find::find_card(cards, h.cards as usize, object) {
        Some(i) => {
            let size = format::card::card_size(cards, CARD_BYTES * i);
            list_file(groups, h.groups as usize, object, size, first, units, out)
        }
        None => Err(Refusal::NoCard),
    }
}
