// The books of a store, for tests and the benchmark.
use checksum_group::GROUP_BYTES;
use format::card::CARD_BYTES;
use format::extent::EXTENT_BYTES;

// Whether the books of a store of so many blocks break a rule, where the numbers of records fit them.
#[unsafe(no_mangle)]
pub extern "C" fn sangueko_probe_books_broken(
    blocks: u64,
    cards: &[u8],
    n: usize,
    extents: &[u8],
    m: usize,
    groups: &[u8],
    k: usize,
) -> bool {
    cards.len() / CARD_BYTES < n
        || extents.len() / EXTENT_BYTES < m
        || groups.len() / GROUP_BYTES < k
        || intake_books::books_broken(blocks, cards, n, extents, m, groups, k)
}

// The place of the first of `n` cards whose object is `object` or more, or `n`; 0 where so many do not fit.
#[unsafe(no_mangle)]
pub extern "C" fn sangueko_probe_first_card(book: &[u8], n: usize, object: u64) -> usize {
    if book.len() / CARD_BYTES < n {
        return 0;
    }
    book::find::first_card(book, n, object)
}

// The same of `n` extents and a key.
#[unsafe(no_mangle)]
pub extern "C" fn sangueko_probe_first_extent(
    book: &[u8],
    n: usize,
    object: u64,
    logical: u64,
) -> usize {
    if book.len() / EXTENT_BYTES < n {
        return 0;
    }
    book::find::first_extent(book, n, object, logical)
}

// The same of `n` groups.
#[unsafe(no_mangle)]
pub extern "C" fn sangueko_probe_first_group(
    book: &[u8],
    n: usize,
    object: u64,
    number: u64,
) -> usize {
    if book.len() / GROUP_BYTES < n {
        return 0;
    }
    book::find::first_group(book, n, object, number)
}
