// Document 01's program `layout`: a store of 8 blocks, 1 of them reserved, on which file 7 is entered, written twice and grown, and then a line for
// each extent in the store's book. `stdout` was written from the document.
//
// The document leaves the uuid, the bytes and the times free: here the uuid is 16 sevens, the first write's bytes are ones, the second's twos, and every
// call is lent 1,700,000,000 seconds and 0 nanoseconds.
#![tactic(auto)]

ghost use Rattle.std.specs.Prelude.{◌≡◌, ◌*◌, ◌≤◌, length};
ghost use Rattle.rules.specs.Extent.{extent_bytes};
ghost use Rattle.rules.specs.Store.{lent};
ghost use Rattle.rules.specs.Call.{run};
ghost use Rattle.layout.specs.Calls.{beginning, writes, grows, layout_calls};

use format::card::CARD_BYTES;
use format::extent::{EXTENT_BYTES, Extent};
use std::io;

// The file.
const OBJECT: u64 = 7;

// The time lent to each call.
const SECONDS: u64 = 1700000000;

const NANOSECONDS: u64 = 0;

// The size that the file grows to.
const SIZE: u64 = 20000;

// A fresh store, and the file entered.
fn begin(
    image: &[u8],
    head: &mut [u8],
    cards: &mut [u8],
    extents: &mut [u8],
    groups: &mut [u8],
    used: &mut [u8],
    retired: &mut [u8],
)
    ensures { lent image.now head.new cards.new extents.new groups.new used.new retired.new ≡ run beginning (lent image.now head.old cards.old extents.old groups.old used.old retired.old) }
{
    let uuid = [7u8; 16];
    let _ = volume::sangueko_fresh(image, head, cards, extents, groups, used, retired, &uuid, 1);
    let _ = volume::sangueko_enter(
        image,
        head,
        cards,
        extents,
        groups,
        used,
        retired,
        OBJECT,
        SECONDS,
        NANOSECONDS,
    );
}

// The file written: 9,000 bytes from its start on, and 10 over them.
fn write_twice(
    image: &mut [u8],
    head: &mut [u8],
    cards: &mut [u8],
    extents: &mut [u8],
    groups: &mut [u8],
    used: &mut [u8],
    retired: &mut [u8],
)
    ensures { lent image.new head.new cards.new extents.new groups.new used.new retired.new ≡ run writes (lent image.old head.old cards.old extents.old groups.old used.old retired.old) }
{
    let ones = [1u8; 9000];
    let twos = [2u8; 10];
    let _ = volume::sangueko_write(
        image,
        head,
        cards,
        extents,
        groups,
        used,
        retired,
        OBJECT,
        0,
        &ones,
        SECONDS,
        NANOSECONDS,
    );
    let _ = volume::sangueko_write(
        image,
        head,
        cards,
        extents,
        groups,
        used,
        retired,
        OBJECT,
        5000,
        &twos,
        SECONDS,
        NANOSECONDS,
    );
}

// The file grown before the retired blocks are let go, and after it.
fn grow_twice(
    image: &mut [u8],
    head: &mut [u8],
    cards: &mut [u8],
    extents: &mut [u8],
    groups: &mut [u8],
    used: &mut [u8],
    retired: &mut [u8],
)
    ensures { lent image.new head.new cards.new extents.new groups.new used.new retired.new ≡ run grows (lent image.old head.old cards.old extents.old groups.old used.old retired.old) }
{
    let _ = volume::sangueko_grow(
        image,
        head,
        cards,
        extents,
        groups,
        used,
        retired,
        OBJECT,
        SIZE,
        SECONDS,
        NANOSECONDS,
    );
    let _ = volume::sangueko_settle(image, head, cards, extents, groups, used, retired);
    let _ = volume::sangueko_grow(
        image,
        head,
        cards,
        extents,
        groups,
        used,
        retired,
        OBJECT,
        SIZE,
        SECONDS,
        NANOSECONDS,
    );
}

// The seven calls, in the document's order.
fn lay_out(
    image: &mut [u8],
    head: &mut [u8],
    cards: &mut [u8],
    extents: &mut [u8],
    groups: &mut [u8],
    used: &mut [u8],
    retired: &mut [u8],
)
    ensures { lent image.new head.new cards.new extents.new groups.new used.new retired.new ≡ run layout_calls (lent image.old head.old cards.old extents.old groups.old used.old retired.old) }
{
    begin(image, head, cards, extents, groups, used, retired);
    write_twice(image, head, cards, extents, groups, used, retired);
    grow_twice(image, head, cards, extents, groups, used, retired);
}

// A line of an extent's numbers.
fn print_extent(rt: &impl Print, e: Extent) -> io::Result<()> {
    println!(rt; "{} {} {} {}", e.object, e.logical, e.physical, e.count)
}

// A line for each extent of a book of `n`.
fn print_extents(rt: &impl Print, extents: &[u8], n: usize) -> io::Result<()>
    requires { n * extent_bytes ≤ length extents.now }
{
    for i in 0..n {
        print_extent(rt, format::extent::decode_extent(extents, i * EXTENT_BYTES))?;
    }
    Ok(())
}

// The header, and the extents that the head counts. A head that counts more than the book has room for counts none.
fn print_layout(rt: &impl Print, head: &[u8; 28], extents: &[u8]) -> io::Result<()> {
    println!(rt; "object logical physical count")?;
    let h = format::head::decode_head(head);
    let n = h.extents as usize;
    if n <= extents.len() / EXTENT_BYTES {
        print_extents(rt, extents, n)?;
    }
    Ok(())
}

fn main(rt: HostRuntime) -> io::Result<()> {
    let mut image = [0u8; 32768];
    let mut head = [0u8; 28];
    let mut cards = [0u8; CARD_BYTES];
    let mut extents = [0u8; 264];
    let mut groups = [0u8; 1073];
    let mut used = [0u8; 8];
    let mut retired = [0u8; 8];
    lay_out(
        &mut image,
        &mut head,
        &mut cards,
        &mut extents,
        &mut groups,
        &mut used,
        &mut retired,
    );
    print_layout(&rt, &head, &extents)
}
