// Refusal 1: the lengths of the lent buffers, and what the head says of them.
#![tactic(auto)]

ghost use Rattle.std.specs.Prelude.{◌≡◌, ◌+◌, ◌^◌, ◌<◌, [], eqb, length};
ghost use Rattle.rules.specs.Head.{head_bytes, decode_head};
ghost use Rattle.rules.specs.Map.{map_bytes};
ghost use Rattle.rules.specs.Store.{lent};
ghost use Rattle.rules.specs.Lengths.{length_wrong, fresh_length_wrong};
ghost use Rattle.format.specs.Records.{head_of};
ghost use Rattle.intake_lengths.specs.LengthTests.{image_right, book_right, books_right, maps_fit, buffers_right, head_right, lengths_of, room_of};

use checksum_group::GROUP_BYTES;
use format::card::CARD_BYTES;
use format::extent::EXTENT_BYTES;
use format::head::{HEAD_BYTES, Head, UUID_BYTES};
use format::sizes::{BLOCK_BYTES, MOST_BLOCKS, MOST_PLACES};

// Whether an image of `n` bytes is 1 to 65,536 whole blocks.
pub fn image_fits(n: usize) -> bool
    ensures { result ≡ image_right n }
{
    n % BLOCK_BYTES == 0 && 1 <= n / BLOCK_BYTES && n / BLOCK_BYTES <= MOST_BLOCKS as usize
}

// Whether a map of `n` bytes fits an image of so many blocks.
#[tactic(auto, unfolding(rules::specs::Map::map_bytes))]
pub fn map_fits(n: usize, blocks: usize) -> bool
    ensures { result ≡ eqb n (map_bytes blocks) }
{
    n == 8 * blocks.div_ceil(64)
}

// Whether a book of `n` bytes is whole records of a width, and has no more places than it may.
pub fn book_fits(n: usize, width: usize) -> bool
    requires { 0 < width }
    ensures { result ≡ book_right width n }
{
    n % width == 0 && n / width <= MOST_PLACES
}

// Whether both maps fit an image of so many blocks.
fn maps_fit(blocks: usize, used: usize, retired: usize) -> bool
    ensures { result ≡ maps_fit blocks used retired }
{
    map_fits(used, blocks) && map_fits(retired, blocks)
}

// Whether the three books' lengths are right.
fn books_fit(cards: usize, extents: usize, groups: usize) -> bool
    ensures { result ≡ books_right cards extents groups }
{
    book_fits(cards, CARD_BYTES)
        && book_fits(extents, EXTENT_BYTES)
        && book_fits(groups, GROUP_BYTES)
}

// How many bytes are lent for each buffer but the head.
#[derive(Clone, Copy)]
pub struct Lengths {
    pub image: usize,
    pub cards: usize,
    pub extents: usize,
    pub groups: usize,
    pub used: usize,
    pub retired: usize,
}

// What these buffers have room for: so many blocks, and places in the books.
#[derive(Clone, Copy)]
pub struct Room {
    pub blocks: u64,
    pub cards: u64,
    pub extents: u64,
    pub groups: u64,
}

impl Lengths {
    // Those of the lent buffers.
    fn of(
        image: &[u8],
        cards: &[u8],
        extents: &[u8],
        groups: &[u8],
        used: &[u8],
        retired: &[u8],
    ) -> Lengths
        ensures { result ≡ lengths_of (lent image.now [] cards.now extents.now groups.now used.now retired.now) }
    {
        Lengths {
            image: image.len(),
            cards: cards.len(),
            extents: extents.len(),
            groups: groups.len(),
            used: used.len(),
            retired: retired.len(),
        }
    }

    // Whether they are right.
    pub fn buffers_fit(self) -> bool
        ensures { result ≡ buffers_right self.image self.cards self.extents self.groups self.used self.retired }
    {
        image_fits(self.image)
            && maps_fit(self.image / BLOCK_BYTES, self.used, self.retired)
            && books_fit(self.cards, self.extents, self.groups)
    }

    // What there is room for.
    fn room(self) -> Room
        ensures { result ≡ room_of self }
    {
        Room {
            blocks: (self.image / BLOCK_BYTES) as u64,
            cards: (self.cards / CARD_BYTES) as u64,
            extents: (self.extents / EXTENT_BYTES) as u64,
            groups: (self.groups / GROUP_BYTES) as u64,
        }
    }
}

impl Room {
    // Whether a head's numbers are right for it.
    #[tactic(auto, unfolding(format::specs::Records::head_of))]
    fn head_fits(self, h: Head) -> bool
        ensures { result ≡ head_right self.blocks self.cards self.extents self.groups (head_of h) }
    {
        h.blocks == self.blocks
            && h.reserved <= h.blocks
            && h.cards <= self.cards
            && h.extents <= self.extents
            && h.groups <= self.groups
    }

    // The same of a head in its 28 bytes.
    pub fn head_right(self, head: &[u8]) -> bool
        requires { length head.now ≡ head_bytes }
        ensures { result ≡ head_right self.blocks self.cards self.extents self.groups (decode_head head.now) }
    {
        self.head_fits(format::head::decode_head(head))
    }
}

// Whether a length of the store, or what its head says of lengths, is wrong: refusal 1 of every call but fresh.
#[tactic(auto, using(crate::proofs::LengthLaws::wrong_is))]
pub fn lengths_wrong(
    image: &[u8],
    head: &[u8],
    cards: &[u8],
    extents: &[u8],
    groups: &[u8],
    used: &[u8],
    retired: &[u8],
) -> bool
    ensures { result ≡ length_wrong (lent image.now head.now cards.now extents.now groups.now used.now retired.now) }
{
    let l = Lengths::of(image, cards, extents, groups, used, retired);
    !(l.buffers_fit() && head.len() == HEAD_BYTES && l.room().head_right(head))
}

// The same for fresh, which reads no head: the uuid's length, and the lent number of reserved blocks.
#[tactic(auto, using(crate::proofs::LengthLaws::fresh_wrong_is))]
pub fn fresh_length_wrong(
    image: &[u8],
    head: &[u8],
    cards: &[u8],
    extents: &[u8],
    groups: &[u8],
    used: &[u8],
    retired: &[u8],
    uuid: &[u8],
    reserved: u64,
) -> bool
    ensures { result ≡ fresh_length_wrong uuid.now reserved (lent image.now head.now cards.now extents.now groups.now used.now retired.now) }
{
    let l = Lengths::of(image, cards, extents, groups, used, retired);
    !(l.buffers_fit()
        && uuid.len() == UUID_BYTES
        && head.len() == HEAD_BYTES
        && reserved <= l.room().blocks)
}
