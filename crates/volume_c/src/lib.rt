// The calls of `volume` for C, as include/sangueko.h declares them: each calls the function of the same name, and states its clause again. A slice is lent
// as a pointer and its length, and the answer comes back by value.
// Kept: a function to each call, with the buffers one by one, as C links and lends them.
#![tactic(auto)]

ghost use Rattle.std.specs.Prelude.{◌≡◌};
ghost use Rattle.rules.specs.Store.{lent};
ghost use Rattle.rules.specs.Call.{call};
ghost use Rattle.rules.specs.Call.Look.{read, read_many, data_stretches, fill};
ghost use Rattle.rules.specs.Call.Call.{fresh, enter, write, write_archive, grow, settle, look};
ghost use Rattle.rules.specs.Act.{act};
ghost use Rattle.rules.specs.Act.Act.{batch};
ghost use Rattle.volume.specs.Call.{handed, gave};

use volume::Answer;

#[unsafe(no_mangle)]
pub extern "C" fn sangueko_read(
    image: &[u8],
    head: &[u8],
    cards: &[u8],
    extents: &[u8],
    groups: &[u8],
    used: &[u8],
    retired: &[u8],
    object: u64,
    offset: u64,
    out: &mut [u8],
) -> Answer
    ensures { handed result.number result.count (lent image.now head.now cards.now extents.now groups.now used.now retired.now) out.new ≡ call (look (read object offset out.old)) (lent image.now head.now cards.now extents.now groups.now used.now retired.now) }
{
    Answer::from(volume::sangueko_read(
        image, head, cards, extents, groups, used, retired, object, offset, out,
    ))
}

#[unsafe(no_mangle)]
pub extern "C" fn sangueko_read_many(
    image: &[u8],
    head: &[u8],
    cards: &[u8],
    extents: &[u8],
    groups: &[u8],
    used: &[u8],
    retired: &[u8],
    list: &[u8],
    out: &mut [u8],
) -> Answer
    ensures { handed result.number result.count (lent image.now head.now cards.now extents.now groups.now used.now retired.now) out.new ≡ call (look (read_many list.now out.old)) (lent image.now head.now cards.now extents.now groups.now used.now retired.now) }
{
    Answer::from(volume::sangueko_read_many(
        image, head, cards, extents, groups, used, retired, list, out,
    ))
}

#[unsafe(no_mangle)]
pub extern "C" fn sangueko_data_stretches(
    image: &[u8],
    head: &[u8],
    cards: &[u8],
    extents: &[u8],
    groups: &[u8],
    used: &[u8],
    retired: &[u8],
    object: u64,
    first: u64,
    units: u64,
    out: &mut [u8],
) -> Answer
    ensures { handed result.number result.count (lent image.now head.now cards.now extents.now groups.now used.now retired.now) out.new ≡ call (look (data_stretches object first units out.old)) (lent image.now head.now cards.now extents.now groups.now used.now retired.now) }
{
    Answer::from(volume::sangueko_data_stretches(
        image, head, cards, extents, groups, used, retired, object, first, units, out,
    ))
}

#[unsafe(no_mangle)]
pub extern "C" fn sangueko_fill(
    image: &[u8],
    head: &[u8],
    cards: &[u8],
    extents: &[u8],
    groups: &[u8],
    used: &[u8],
    retired: &[u8],
) -> Answer
    ensures { gave result.number result.count (lent image.now head.now cards.now extents.now groups.now used.now retired.now) ≡ call (look fill) (lent image.now head.now cards.now extents.now groups.now used.now retired.now) }
{
    Answer::from(volume::sangueko_fill(image, head, cards, extents, groups, used, retired))
}

#[unsafe(no_mangle)]
pub extern "C" fn sangueko_settle(
    image: &[u8],
    head: &[u8],
    cards: &[u8],
    extents: &[u8],
    groups: &[u8],
    used: &mut [u8],
    retired: &mut [u8],
) -> Answer
    ensures { gave result.number result.count (lent image.now head.now cards.now extents.now groups.now used.new retired.new) ≡ call settle (lent image.now head.now cards.now extents.now groups.now used.old retired.old) }
{
    Answer::from(volume::sangueko_settle(image, head, cards, extents, groups, used, retired))
}

#[unsafe(no_mangle)]
pub extern "C" fn sangueko_enter(
    image: &[u8],
    head: &mut [u8],
    cards: &mut [u8],
    extents: &[u8],
    groups: &[u8],
    used: &[u8],
    retired: &[u8],
    object: u64,
    seconds: u64,
    nanoseconds: u64,
) -> Answer
    ensures { gave result.number result.count (lent image.now head.new cards.new extents.now groups.now used.now retired.now) ≡ call (enter object (record { seconds = seconds; nanoseconds = nanoseconds })) (lent image.now head.old cards.old extents.now groups.now used.now retired.now) }
{
    Answer::from(volume::sangueko_enter(
        image,
        head,
        cards,
        extents,
        groups,
        used,
        retired,
        object,
        seconds,
        nanoseconds,
    ))
}

#[unsafe(no_mangle)]
pub extern "C" fn sangueko_write(
    image: &mut [u8],
    head: &mut [u8],
    cards: &mut [u8],
    extents: &mut [u8],
    groups: &mut [u8],
    used: &mut [u8],
    retired: &mut [u8],
    object: u64,
    offset: u64,
    bytes: &[u8],
    seconds: u64,
    nanoseconds: u64,
) -> Answer
    ensures { gave result.number result.count (lent image.new head.new cards.new extents.new groups.new used.new retired.new) ≡ call (write object offset bytes.now (record { seconds = seconds; nanoseconds = nanoseconds })) (lent image.old head.old cards.old extents.old groups.old used.old retired.old) }
{
    volume::sangueko_write(
        image,
        head,
        cards,
        extents,
        groups,
        used,
        retired,
        object,
        offset,
        bytes,
        seconds,
        nanoseconds,
    )
}

#[unsafe(no_mangle)]
pub extern "C" fn sangueko_write_archive(
    image: &mut [u8],
    head: &mut [u8],
    cards: &mut [u8],
    extents: &mut [u8],
    groups: &mut [u8],
    used: &mut [u8],
    retired: &mut [u8],
    object: u64,
    offset: u64,
    bytes: &[u8],
    seconds: u64,
    nanoseconds: u64,
) -> Answer
    ensures { gave result.number result.count (lent image.new head.new cards.new extents.new groups.new used.new retired.new) ≡ call (write_archive object offset bytes.now (record { seconds = seconds; nanoseconds = nanoseconds })) (lent image.old head.old cards.old extents.old groups.old used.old retired.old) }
{
    volume::sangueko_write_archive(
        image,
        head,
        cards,
        extents,
        groups,
        used,
        retired,
        object,
        offset,
        bytes,
        seconds,
        nanoseconds,
    )
}

#[unsafe(no_mangle)]
pub extern "C" fn sangueko_write_batch(
    image: &mut [u8],
    head: &mut [u8],
    cards: &mut [u8],
    extents: &mut [u8],
    groups: &mut [u8],
    used: &mut [u8],
    retired: &mut [u8],
    list: &[u8],
    bytes: &[u8],
    seconds: u64,
    nanoseconds: u64,
) -> Answer
    ensures { gave result.number result.count (lent image.new head.new cards.new extents.new groups.new used.new retired.new) ≡ act (batch list.now bytes.now (record { seconds = seconds; nanoseconds = nanoseconds })) (lent image.old head.old cards.old extents.old groups.old used.old retired.old) }
{
    volume::sangueko_write_batch(
        image,
        head,
        cards,
        extents,
        groups,
        used,
        retired,
        list,
        bytes,
        seconds,
        nanoseconds,
    )
}

#[unsafe(no_mangle)]
pub extern "C" fn sangueko_grow(
    image: &mut [u8],
    head: &mut [u8],
    cards: &mut [u8],
    extents: &mut [u8],
    groups: &mut [u8],
    used: &mut [u8],
    retired: &mut [u8],
    object: u64,
    size: u64,
    seconds: u64,
    nanoseconds: u64,
) -> Answer
    ensures { gave result.number result.count (lent image.new head.new cards.new extents.new groups.new used.new retired.new) ≡ call (grow object size (record { seconds = seconds; nanoseconds = nanoseconds })) (lent image.old head.old cards.old extents.old groups.old used.old retired.old) }
{
    volume::sangueko_grow(
        image,
        head,
        cards,
        extents,
        groups,
        used,
        retired,
        object,
        size,
        seconds,
        nanoseconds,
    )
}

#[unsafe(no_mangle)]
pub extern "C" fn sangueko_fresh(
    image: &[u8],
    head: &mut [u8],
    cards: &mut [u8],
    extents: &mut [u8],
    groups: &mut [u8],
    used: &mut [u8],
    retired: &mut [u8],
    uuid: &[u8],
    reserved: u64,
) -> Answer
    ensures { gave result.number result.count (lent image.now head.new cards.new extents.new groups.new used.new retired.new) ≡ call (fresh uuid.now reserved) (lent image.now head.old cards.old extents.old groups.old used.old retired.old) }
{
    Answer::from(volume::sangueko_fresh(
        image, head, cards, extents, groups, used, retired, uuid, reserved,
    ))
}
