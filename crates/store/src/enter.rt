// The call enter, past refusals 1 and 2: its other tests, and the new card put into the book.
ghost use Rattle.std.specs.Prelude.{◌≡◌, ◌+◌, ◌*◌, ◌^◌, ◌≤◌, ◌<◌, length};
ghost use Rattle.rules.specs.Lists.{insert};
ghost use Rattle.rules.specs.Head.{head_bytes, decode_head, encode_head};
ghost use Rattle.rules.specs.Card.{card_bytes, decode_card, encode_card, card_before};
ghost use Rattle.rules.specs.Book.{decode_book, encode_book, book_places};
ghost use Rattle.rules.specs.Arguments.{time_wrong};
ghost use Rattle.rules.specs.Enter.{new_card};
ghost use Rattle.format.specs.Records.{card_of, CardFits};
ghost use Rattle.format.specs.Refusals.{number_in};
ghost use Rattle.store.specs.Buffers.{one_card_more, enter_number, CardsRight, EnterReady};

use format::card::{CARD_BYTES, Card, Time};
use format::head::Head;
use format::refusal::Refusal;

// Seconds that a file's time may have at most.
const MOST_SECONDS: u64 = 9223372036854775807;

// Nanoseconds stay below this.
const NANOSECONDS_BOUND: u64 = 1000000000;

// Whether a lent time is wrong: the case of refusal 7.
#[tactic(auto, unfolding(rules::specs::Arguments::time_wrong))]
pub fn time_wrong(seconds: u64, nanoseconds: u64) -> bool
    ensures { result ≡ time_wrong (record { seconds = seconds; nanoseconds = nanoseconds }) }
{
    MOST_SECONDS < seconds || NANOSECONDS_BOUND <= nanoseconds
}

// Refusal 4, 7 or 8 of a new file in a book of `n` cards.
pub fn enter_refused(
    cards: &[u8],
    n: usize,
    object: u64,
    seconds: u64,
    nanoseconds: u64,
) -> Result<(), Refusal>
    requires { card_bytes * n ≤ length cards.now }
    ensures { number_in result ≡ enter_number (decode_book decode_card card_bytes n cards.now) (book_places card_bytes cards.now) object (record { seconds = seconds; nanoseconds = nanoseconds }) }
{
    if book::find::find_card(cards, n, object).is_some() {
        return Err(Refusal::CardExists);
    }
    if time_wrong(seconds, nanoseconds) {
        return Err(Refusal::BadTime);
    }
    if cards.len() / CARD_BYTES <= n {
        return Err(Refusal::NoCardPlace);
    }
    Ok(())
}

// A card put at its place into a book of `n`.
fn insert_card(cards: &mut [u8], n: usize, c: Card)
    requires cards_right { CardsRight n cards.old }
    requires n_in_bounds { card_bytes * (n + 1) ≤ length cards.old }
    requires card_fits { CardFits c }
    ensures { cards.new ≡ encode_book encode_card (length cards.old) (insert card_before (card_of c) (decode_book decode_card card_bytes n cards.old)) }
{
    let mut x = [0u8; CARD_BYTES];
    format::card::encode_card(&mut x, 0, c);
    let i = book::find::first_card(cards, n, c.object);
    book::splice::splice_records(cards, CARD_BYTES, n, i, 0, &x, 1);
}

// A head that counts one card more.
#[tactic(auto, unfolding(format::specs::Records::head_of, crate::specs::Buffers::one_card_more))]
fn count_card(head: &mut [u8])
    requires { (length head.old ≡ head_bytes) × ((decode_head head.old).cards + 1 < 2 ^ 20) }
    ensures { head.new ≡ encode_head (one_card_more (decode_head head.old)) }
{
    let h = format::head::decode_head(head);
    format::head::encode_head(
        head,
        Head {
            cards: h.cards + 1,
            ..h
        },
    );
}

// The number of cards that a head counts.
#[tactic(auto, unfolding(format::specs::Records::head_of))]
pub fn card_count(head: &[u8]) -> usize
    requires { length head.now ≡ head_bytes }
    ensures { result ≡ (decode_head head.now).cards }
{
    let h = format::head::decode_head(head);
    h.cards as usize
}

// A card of size 0 with no blocks put at its place into a book of `n`, and the head that counts it.
pub fn enter_card(
    head: &mut [u8],
    cards: &mut [u8],
    n: usize,
    object: u64,
    seconds: u64,
    nanoseconds: u64,
)
    requires { EnterReady head.old cards.old n (record { seconds = seconds; nanoseconds = nanoseconds }) }
    ensures { (head.new ≡ encode_head (one_card_more (decode_head head.old))) × (cards.new ≡ encode_book encode_card (length cards.old) (insert card_before (new_card object (record { seconds = seconds; nanoseconds = nanoseconds })) (decode_book decode_card card_bytes n cards.old))) }
{
    let time = Time {
        seconds,
        nanoseconds,
    };
    let c = format::card::new_card(object, time);
    insert_card(cards, n, c);
    count_card(head);
}
