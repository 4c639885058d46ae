// The count of blocks on a file's card, changed in place as a change goes from unit to unit.
#![tactic(auto)]

ghost use Rattle.std.specs.Prelude.{◌≡◌};
ghost use Rattle.count.specs.Counted.{CountFits, counted_of, card_counted};

use format::card::Card;

// The blocks counted after a unit: those before, less those that it gives up, and those that it is given.
pub fn count_after(allocated: u64, gone: u64, given: u64) -> u64
    requires { CountFits allocated gone given }
    ensures { result ≡ counted_of allocated gone given }
{
    allocated - gone + given
}

// The same in the card: it is lent, and its other fields stay.
pub fn count_blocks(card: &mut Card, gone: u64, given: u64)
    requires { CountFits card.old.allocated gone given }
    ensures { card.new ≡ card_counted card.old gone given }
{
    card.allocated = count_after(card.allocated, gone, given);
}

// The card after a unit: the one before it, lent to `count_blocks`.
pub fn card_after(mut card: Card, gone: u64, given: u64) -> Card
    requires { CountFits card.allocated gone given }
    ensures { result ≡ card_counted card gone given }
{
    count_blocks(&mut card, gone, given);
    card
}
