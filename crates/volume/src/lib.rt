// The public calls.
//
// Each call is lent the whole store, seven buffers, and then its own arguments. It tries its refusals in the order of their numbers, all of them before
// it changes a byte, and answers its count or its refusal: a refused call leaves every buffer as it was. The four writes still answer by number and count,
// as C has it. A batch of writes does so for its own refusals, 1, 2 and 18; stopped by one of its writes it gives that refusal's number with the count of
// the writes before it.
//
// A call joins two parts: the tests, over the lent buffers as they are, and an inner call, which may take for granted that the tests passed. C calls
// them by the exports of `volume_c`, of the same names.
// Kept: a call takes the buffers one by one, as C lends them: some for reading, some for writing.
#![tactic(auto)]

ghost use Rattle.std.specs.Prelude.{◌≡◌, []};
ghost use Rattle.rules.specs.Store.{lent};
ghost use Rattle.rules.specs.Refusal.{result as result_of};
ghost use Rattle.rules.specs.Write.{write_outcome};
ghost use Rattle.rules.specs.Call.{call};
ghost use Rattle.rules.specs.Call.Look.{read, read_many, data_stretches, fill};
ghost use Rattle.rules.specs.Call.Call.{fresh, enter, write, write_archive, grow, settle, look};
ghost use Rattle.rules.specs.Act.{act};
ghost use Rattle.rules.specs.Act.Act.{batch};
ghost use Rattle.format.specs.Refusals.{number_in, count_in};
ghost use Rattle.volume.specs.Call.{handed, gave, Says};

use format::refusal::Refusal;
use format::sizes::BLOCK_BYTES;
use lent::{Store, View};
use write::{ARCHIVE_RUNS, MOST_RUNS};

// A call's answer: 0 and a count, or the number of its refusal and 0.
// Kept: a number beside a count, as C has it.
#[repr(C)]
#[derive(Clone, Copy)]
pub struct Answer {
    pub number: u32,
    pub count: u64,
}

impl From<Result<u64, Refusal>> for Answer {
    ghost from_gives = { Says };

    fn from(answer: Result<u64, Refusal>) -> Answer {
        match answer {
            Ok(count) => Answer { number: 0, count },
            Err(refusal) => Answer {
                number: refusal.number(),
                count: 0,
            },
        }
    }
}

// Bytes of a file from `offset` on, at the head of `out`: all up to its end, as far as `out` has room and a read gets them. The count is their
// number; the rest of `out` stays, and so does the store.
pub fn sangueko_read(
    image: &[u8],
    head: &[u8],
    cards: &[u8],
    extents: &[u8],
    groups: &[u8],
    used: &[u8],
    retired: &[u8],
    object: u64,
    offset: u64,
    out: &mut [u8],
) -> Result<u64, Refusal>
    ensures { handed (number_in result) (count_in result) (lent image.now head.now cards.now extents.now groups.now used.now retired.now) out.new ≡ call (look (read object offset out.old)) (lent image.now head.now cards.now extents.now groups.now used.now retired.now) }
{
    intake::refused(&View {
        image,
        head,
        cards,
        extents,
        groups,
        used,
        retired,
    })?;
    let n = read::read_file(image, head, cards, extents, groups, object, offset, out)?;
    Ok(n as u64)
}

// The reads of a list of triples (object, offset, length), each into its piece of `out`, as a single read into a buffer of that length. The count is the
// number of different units that they touch, each of which is inspected once. Where one read is refused the call is, and `out` stays.
pub fn sangueko_read_many(
    image: &[u8],
    head: &[u8],
    cards: &[u8],
    extents: &[u8],
    groups: &[u8],
    used: &[u8],
    retired: &[u8],
    list: &[u8],
    out: &mut [u8],
) -> Result<u64, Refusal>
    ensures { handed (number_in result) (count_in result) (lent image.now head.now cards.now extents.now groups.now used.now retired.now) out.new ≡ call (look (read_many list.now out.old)) (lent image.now head.now cards.now extents.now groups.now used.now retired.now) }
{
    intake::refused(&View {
        image,
        head,
        cards,
        extents,
        groups,
        used,
        retired,
    })?;
    read_many::read_many(image, head, cards, extents, groups, list, out)
}

// The stretches of a file that hold data, in the `units` units from `first` on: each as a pair of numbers of 8 bytes, its first unit and how many they
// are, one behind the other at the head of `out`, ascending. The count is the number of pairs; the rest of `out` stays, and so does the store.
pub fn sangueko_data_stretches(
    image: &[u8],
    head: &[u8],
    cards: &[u8],
    extents: &[u8],
    groups: &[u8],
    used: &[u8],
    retired: &[u8],
    object: u64,
    first: u64,
    units: u64,
    out: &mut [u8],
) -> Result<u64, Refusal>
    ensures { handed (number_in result) (count_in result) (lent image.now head.now cards.now extents.now groups.now used.now retired.now) out.new ≡ call (look (data_stretches object first units out.old)) (lent image.now head.now cards.now extents.now groups.now used.now retired.now) }
{
    intake::refused(&View {
        image,
        head,
        cards,
        extents,
        groups,
        used,
        retired,
    })?;
    stretches::data_stretches(head, cards, groups, object, first, units, out)
}

// How much is used of the blocks that are not reserved, per mille; 0 where every block is reserved. Nothing changes.
pub fn sangueko_fill(
    image: &[u8],
    head: &[u8],
    cards: &[u8],
    extents: &[u8],
    groups: &[u8],
    used: &[u8],
    retired: &[u8],
) -> Result<u64, Refusal>
    ensures { gave (number_in result) (count_in result) (lent image.now head.now cards.now extents.now groups.now used.now retired.now) ≡ call (look fill) (lent image.now head.now cards.now extents.now groups.now used.now retired.now) }
{
    intake::refused(&View {
        image,
        head,
        cards,
        extents,
        groups,
        used,
        retired,
    })?;
    let reserved = store::fill::reserved_blocks(head);
    let count = store::fill::used_per_mille(used, reserved, image.len() / BLOCK_BYTES);
    Ok(count)
}

// The retired blocks let go: both bits of each are cleared. The count is their number.
pub fn sangueko_settle(
    image: &[u8],
    head: &[u8],
    cards: &[u8],
    extents: &[u8],
    groups: &[u8],
    used: &mut [u8],
    retired: &mut [u8],
) -> Result<u64, Refusal>
    ensures { gave (number_in result) (count_in result) (lent image.now head.now cards.now extents.now groups.now used.new retired.new) ≡ call settle (lent image.now head.now cards.now extents.now groups.now used.old retired.old) }
{
    intake::refused(&View {
        image,
        head,
        cards,
        extents,
        groups,
        used,
        retired,
    })?;
    let count = store::settle::settle_maps(used, retired, image.len() / BLOCK_BYTES);
    Ok(count)
}

// A new file: a card of size 0 with no blocks and the lent time.
pub fn sangueko_enter(
    image: &[u8],
    head: &mut [u8],
    cards: &mut [u8],
    extents: &[u8],
    groups: &[u8],
    used: &[u8],
    retired: &[u8],
    object: u64,
    seconds: u64,
    nanoseconds: u64,
) -> Result<u64, Refusal>
    ensures { gave (number_in result) (count_in result) (lent image.now head.new cards.new extents.now groups.now used.now retired.now) ≡ call (enter object (record { seconds = seconds; nanoseconds = nanoseconds })) (lent image.now head.old cards.old extents.now groups.now used.now retired.now) }
{
    intake::refused(&View {
        image,
        head,
        cards,
        extents,
        groups,
        used,
        retired,
    })?;
    let n = store::enter::card_count(head);
    store::enter::enter_refused(cards, n, object, seconds, nanoseconds)?;
    store::enter::enter_card(head, cards, n, object, seconds, nanoseconds);
    Ok(0)
}

// Bytes written to a file from `offset` on: what a rewritten unit keeps is held to `limit` runs, in which alone the two calls differ.
fn write_within(
    image: &mut [u8],
    head: &mut [u8],
    cards: &mut [u8],
    extents: &mut [u8],
    groups: &mut [u8],
    used: &mut [u8],
    retired: &mut [u8],
    limit: usize,
    object: u64,
    offset: u64,
    bytes: &[u8],
    seconds: u64,
    nanoseconds: u64,
) -> Answer
    ensures { gave result.number result.count (lent image.new head.new cards.new extents.new groups.new used.new retired.new) ≡ result_of (lent image.old head.old cards.old extents.old groups.old used.old retired.old) [] (write_outcome limit object offset bytes.now (record { seconds = seconds; nanoseconds = nanoseconds }) (lent image.old head.old cards.old extents.old groups.old used.old retired.old)) }
{
    match intake::refused(&View {
        image,
        head,
        cards,
        extents,
        groups,
        used,
        retired,
    }) {
        Ok(()) => {
            let mut store = Store {
                image,
                head,
                cards,
                extents,
                groups,
                used,
                retired,
            };
            let done = write::write::write_file(
                &mut store,
                limit,
                object,
                offset,
                bytes,
                seconds,
                nanoseconds,
            );
            Answer {
                number: done.number,
                count: done.count,
            }
        }
        Err(refusal) => Answer::from(Err(refusal)),
    }
}

// Bytes written to a file from `offset` on, as many of them as a write takes. The count is their number; the file grows where they end past its end.
pub fn sangueko_write(
    image: &mut [u8],
    head: &mut [u8],
    cards: &mut [u8],
    extents: &mut [u8],
    groups: &mut [u8],
    used: &mut [u8],
    retired: &mut [u8],
    object: u64,
    offset: u64,
    bytes: &[u8],
    seconds: u64,
    nanoseconds: u64,
) -> Answer
    ensures { gave result.number result.count (lent image.new head.new cards.new extents.new groups.new used.new retired.new) ≡ call (write object offset bytes.now (record { seconds = seconds; nanoseconds = nanoseconds })) (lent image.old head.old cards.old extents.old groups.old used.old retired.old) }
{
    write_within(
        image,
        head,
        cards,
        extents,
        groups,
        used,
        retired,
        MOST_RUNS,
        object,
        offset,
        bytes,
        seconds,
        nanoseconds,
    )
}

// The same for the archive writer: a unit keeps old blocks only at two runs or fewer, so that a file that is read end to end lies in fewer pieces.
pub fn sangueko_write_archive(
    image: &mut [u8],
    head: &mut [u8],
    cards: &mut [u8],
    extents: &mut [u8],
    groups: &mut [u8],
    used: &mut [u8],
    retired: &mut [u8],
    object: u64,
    offset: u64,
    bytes: &[u8],
    seconds: u64,
    nanoseconds: u64,
) -> Answer
    ensures { gave result.number result.count (lent image.new head.new cards.new extents.new groups.new used.new retired.new) ≡ call (write_archive object offset bytes.now (record { seconds = seconds; nanoseconds = nanoseconds })) (lent image.old head.old cards.old extents.old groups.old used.old retired.old) }
{
    write_within(
        image,
        head,
        cards,
        extents,
        groups,
        used,
        retired,
        ARCHIVE_RUNS,
        object,
        offset,
        bytes,
        seconds,
        nanoseconds,
    )
}

// The writes of a list of triples (object, offset, length), one after another, each as a single write of the bytes that are next, with one time. It stops
// at the first that is refused: the count is the number of writes done, and the number says what stopped it, or 0.
pub fn sangueko_write_batch(
    image: &mut [u8],
    head: &mut [u8],
    cards: &mut [u8],
    extents: &mut [u8],
    groups: &mut [u8],
    used: &mut [u8],
    retired: &mut [u8],
    list: &[u8],
    bytes: &[u8],
    seconds: u64,
    nanoseconds: u64,
) -> Answer
    ensures { gave result.number result.count (lent image.new head.new cards.new extents.new groups.new used.new retired.new) ≡ act (batch list.now bytes.now (record { seconds = seconds; nanoseconds = nanoseconds })) (lent image.old head.old cards.old extents.old groups.old used.old retired.old) }
{
    match intake::refused(&View {
        image,
        head,
        cards,
        extents,
        groups,
        used,
        retired,
    }) {
        Ok(()) => {
            let mut store = Store {
                image,
                head,
                cards,
                extents,
                groups,
                used,
                retired,
            };
            let written = batch::write_batch(&mut store, list, bytes, seconds, nanoseconds);
            Answer {
                number: written.number,
                count: written.count,
            }
        }
        Err(refusal) => Answer::from(Err(refusal)),
    }
}

// A file grown to `size` bytes, of which the new ones are zeros. The same size changes nothing, not even the time.
pub fn sangueko_grow(
    image: &mut [u8],
    head: &mut [u8],
    cards: &mut [u8],
    extents: &mut [u8],
    groups: &mut [u8],
    used: &mut [u8],
    retired: &mut [u8],
    object: u64,
    size: u64,
    seconds: u64,
    nanoseconds: u64,
) -> Answer
    ensures { gave result.number result.count (lent image.new head.new cards.new extents.new groups.new used.new retired.new) ≡ call (grow object size (record { seconds = seconds; nanoseconds = nanoseconds })) (lent image.old head.old cards.old extents.old groups.old used.old retired.old) }
{
    match intake::refused(&View {
        image,
        head,
        cards,
        extents,
        groups,
        used,
        retired,
    }) {
        Ok(()) => {
            let mut store = Store {
                image,
                head,
                cards,
                extents,
                groups,
                used,
                retired,
            };
            let number = write::grow::grow_file(&mut store, object, size, seconds, nanoseconds);
            Answer { number, count: 0 }
        }
        Err(refusal) => Answer::from(Err(refusal)),
    }
}

// A fresh store in the lent buffers, whatever they hold: no record, the first blocks reserved and used, none retired. The image stays.
pub fn sangueko_fresh(
    image: &[u8],
    head: &mut [u8],
    cards: &mut [u8],
    extents: &mut [u8],
    groups: &mut [u8],
    used: &mut [u8],
    retired: &mut [u8],
    uuid: &[u8],
    reserved: u64,
) -> Result<u64, Refusal>
    ensures { gave (number_in result) (count_in result) (lent image.now head.new cards.new extents.new groups.new used.new retired.new) ≡ call (fresh uuid.now reserved) (lent image.now head.old cards.old extents.old groups.old used.old retired.old) }
{
    if intake_lengths::fresh_length_wrong(
        image, head, cards, extents, groups, used, retired, uuid, reserved,
    ) {
        return Err(Refusal::WrongLength);
    }
    let blocks = image.len() / BLOCK_BYTES;
    store::fresh::fresh_books(cards, extents, groups);
    store::fresh::fresh_maps(used, retired, blocks, reserved as usize);
    store::fresh::fresh_head(head, uuid, blocks as u64, reserved);
    Ok(0)
}
