// Refusals 1 and 2: whether a lent store is one that a call may work on.
//
// `intake_lengths` has the tests of refusal 1, `intake_books` and `intake_maps` those of refusal 2. Each takes one slice and a number, so that it can be asked
// of parts of other buffers; those of refusal 2 may assume what refusal 1 found, those of the maps what was found of the books. The functions here join them,
// with no assumption left: the calls behind `refused` may assume that it let them go on.
#![tactic(auto)]

ghost use Rattle.std.specs.Prelude.{◌≡◌, []};
ghost use Rattle.rules.specs.Store.{lent};
ghost use Rattle.rules.specs.Integrity.{rule_broken};
ghost use Rattle.format.specs.Refusals.{number_in};
ghost use Rattle.lent.specs.Lent.{seen};
ghost use Rattle.intake.specs.Join.{store_number, LengthsRight};

use format::refusal::Refusal;
use lent::View;

// Whether a book or a map breaks a rule. The image is not asked for, as no rule speaks of it.
pub fn rule_broken(
    head: &[u8],
    cards: &[u8],
    extents: &[u8],
    groups: &[u8],
    used: &[u8],
    retired: &[u8],
) -> bool
    requires { LengthsRight head.now cards.now extents.now groups.now used.now retired.now }
    ensures { result ≡ rule_broken (lent [] head.now cards.now extents.now groups.now used.now retired.now) }
{
    let h = format::head::decode_head(head);
    let n = h.extents as usize;
    intake_books::books_broken(
        h.blocks,
        cards,
        h.cards as usize,
        extents,
        n,
        groups,
        h.groups as usize,
    ) || intake_maps::maps_broken(
        extents,
        n,
        h.blocks as usize,
        h.reserved as usize,
        used,
        retired,
    )
}

// The first of refusals 1 and 2 that comes.
pub fn refused(store: &View<'_>) -> Result<(), Refusal>
    ensures { number_in result ≡ store_number (seen store.now) }
{
    if intake_lengths::lengths_wrong(
        store.image,
        store.head,
        store.cards,
        store.extents,
        store.groups,
        store.used,
        store.retired,
    ) {
        return Err(Refusal::WrongLength);
    }
    if rule_broken(
        store.head,
        store.cards,
        store.extents,
        store.groups,
        store.used,
        store.retired,
    ) {
        return Err(Refusal::BrokenRule);
    }
    Ok(())
}
