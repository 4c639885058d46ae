// The card of a changed file: its new size, count of blocks and time, written over the old ones.
ghost use Rattle.std.specs.Prelude.{◌≡◌, true, ◌+◌, ◌*◌, ◌^◌, ◌≤◌, ◌<◌, length};
ghost use Rattle.rules.specs.Lists.{any};
ghost use Rattle.rules.specs.Bytes.{patch};
ghost use Rattle.rules.specs.Card.{card_bytes, decode_card, encode_card};
ghost use Rattle.rules.specs.Book.{decode_book, encode_book};
ghost use Rattle.rules.specs.Units.{Change};
ghost use Rattle.rules.specs.Finish.{changed_card, finished_cards};
ghost use Rattle.book.specs.Places.{record_at, card_is};
ghost use Rattle.finish_books.specs.Buffers.{CardsRight};

use format::card::{CARD_BYTES, Time};

// The card at place `i` with a new size, count and time, written over the old one: what a change leaves as it is comes from the book.
fn change_card(
    cards: &mut [u8],
    i: usize,
    size: u64,
    allocated: u64,
    seconds: u64,
    nanoseconds: u64,
)
    requires card_bytes_in_bounds { card_bytes * i + card_bytes ≤ length cards.old }
    requires size_bound { (size < 2 ^ 63) × (allocated < 2 ^ 35) × (seconds < 2 ^ 63) × (nanoseconds < 2 ^ 30) }
    ensures { cards.new ≡ patch cards.old (card_bytes * i) (encode_card (changed_card size allocated (record { seconds = seconds; nanoseconds = nanoseconds }) (record_at decode_card card_bytes cards.old i))) }
{
    let c = format::card::decode_card(cards, CARD_BYTES * i);
    let time = Time {
        seconds,
        nanoseconds,
    };
    let d = c.changed(size, allocated, time);
    format::card::encode_card(cards, CARD_BYTES * i, d);
}

// In a book of `n` cards that of `object` with a new size, count and time. Cards ascend strictly, so that no other is of the same object.
pub fn finish_card(
    cards: &mut [u8],
    n: usize,
    object: u64,
    size: u64,
    allocated: u64,
    seconds: u64,
    nanoseconds: u64,
)
    requires cards_right { CardsRight n cards.old }
    requires cards_value { any (card_is object) (decode_book decode_card card_bytes n cards.old) ≡ true }
    requires size_bound { (size < 2 ^ 63) × (allocated < 2 ^ 35) × (seconds < 2 ^ 63) × (nanoseconds < 2 ^ 30) }
    ensures { (c : Change) → c.object ≡ object → c.new_size ≡ size → cards.new ≡ encode_book encode_card (length cards.old) (finished_cards c allocated (record { seconds = seconds; nanoseconds = nanoseconds }) (decode_book decode_card card_bytes n cards.old)) }
{
    let found = book::find::find_card(cards, n, object);
    if let Some(i) = found {
        change_card(cards, i, size, allocated, seconds, nanoseconds);
    }
}
