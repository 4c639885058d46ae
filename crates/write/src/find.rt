// The file that a call names.
ghost use Rattle.std.specs.Prelude.{◌≡◌, ◌*◌, ◌≤◌, length};
ghost use Rattle.rules.specs.Head.{head_bytes, decode_head};
ghost use Rattle.rules.specs.Card.{card_bytes};
ghost use Rattle.write.specs.Call.{FileFound};

use format::card::CARD_BYTES;
use lent::Store;

// A file's size, and the blocks that its card counts.
#[derive(Clone, Copy)]
pub struct File {
    pub size: u64,
    pub allocated: u64,
}

// The file of `object` among the cards that the head counts, if it is there.
pub fn find_file(head: &[u8], cards: &[u8], object: u64) -> Option<File>
    requires { (length head.now ≡ head_bytes) × (card_bytes * (decode_head head.now).cards ≤ length cards.now) }
    ensures { FileFound head.now cards.now object result }
{
    let h = format::head::decode_head(head);
    match book::find::find_card(cards, h.cards as usize, object) {
        Some(i) => {
            let card = format::card::decode_card(cards, CARD_BYTES * i);
            Some(File {
                size: card.size,
                allocated: card.allocated,
            })
        }
        None => None,
    }
}

// The same of a store.
pub(super) fn find_in(store: &Store<'_>, object: u64) -> Option<File>
    requires { (length store.now.head.now ≡ head_bytes) × (card_bytes * (decode_head store.now.head.now).cards ≤ length store.now.cards.now) }
    ensures { FileFound store.now.head.now store.now.cards.now object result }
{
    find_file(store.head, store.cards, object)
}
