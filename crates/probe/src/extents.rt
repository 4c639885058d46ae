// The extent book, for tests and the benchmark.
ghost use Rattle.std.specs.Prelude.{◌*◌, ◌≤◌, length};
ghost use Rattle.rules.specs.Sizes.{most_places};
ghost use Rattle.rules.specs.Extent.{extent_bytes};

use format::extent::EXTENT_BYTES;

// The most extents that a book may have.
const MOST_PLACES: usize = 1_048_575;

// Whether all places of a book hold extents in order, those of one file apart from each other.
#[unsafe(no_mangle)]
pub extern "C" fn sangueko_probe_extents_ordered(book: &[u8]) -> bool {
    book::order::extents_ordered(book, book.len() / EXTENT_BYTES)
}

// In a book of `n` extents, the `k` from place `i` on exchanged for those in `new`, where they fit.
#[unsafe(no_mangle)]
pub extern "C" fn sangueko_probe_splice_extents(
    book: &mut [u8],
    n: usize,
    i: usize,
    k: usize,
    new: &[u8],
) -> bool {
    let places = book.len() / EXTENT_BYTES;
    let m = new.len() / EXTENT_BYTES;
    if new.len() != EXTENT_BYTES * m || places < n || n < i || n - i < k || places - (n - k) < m {
        return false;
    }
    book::splice::splice_records(book, EXTENT_BYTES, n, i, k, new, m);
    true
}

// `n` where a book of these bytes may have so many extents, and else 0.
fn extents_of(book: &[u8], n: usize) -> usize
    ensures { (extent_bytes * result ≤ length book.now) × (result ≤ most_places) }
{
    if n <= book.len() / EXTENT_BYTES && n <= MOST_PLACES {
        n
    } else {
        0
    }
}

// One more than the place of the last extent of `object` at `block` or before among the first `n` of an ordered book, or 0 where there is none.
#[unsafe(no_mangle)]
pub extern "C" fn sangueko_probe_floor_extent(
    book: &[u8],
    n: usize,
    object: u64,
    block: u64,
) -> usize {
    let found = book::find::floor_extent(book, extents_of(book, n), object, block);
    if let Some(i) = found {
        if i < MOST_PLACES {
            return i + 1;
        }
    }
    0
}

// The rounds that this search takes in any book.
#[unsafe(no_mangle)]
pub extern "C" fn sangueko_probe_search_rounds(
    book: &[u8],
    n: usize,
    object: u64,
    block: u64,
) -> u32
    ensures { result ≤ 20 }
{
    book::find::search_extent(book, extents_of(book, n), object, block).rounds
}
