// The bytes of many reads handed out into the pieces of one buffer. All reads were checked before: here blocks are only looked up and copied.
//
// The blocks that were looked up last stay in hand: reads of one unit, one after another, look it up once.
#![tactic(auto)]

ghost use Rattle.std.specs.Prelude.{◌≡◌, ◌+◌, ◌*◌, ◌/◌, ◌^◌, ◌≤◌, ◌<◌, length};
ghost use Rattle.rules.specs.Sizes.{block_bytes, unit_blocks, most_blocks};
ghost use Rattle.rules.specs.Triples.{triple_bytes, decode_triples, lengths_of};
ghost use Rattle.mapping.specs.Entries.{ExtentsRight};
ghost use Rattle.pieces.specs.InHand.{most_units, InHand, starts_with};
ghost use Rattle.pieces.specs.Pieces.{piece_of, pieces_of};

use format::sizes::{UNIT_BLOCKS, UNIT_BYTES};
use read::MOST_BLOCKS;
use triples::TRIPLE_BYTES;

// The units of the file of `object` from `first` on whose blocks are in hand; 0 units: none.
#[derive(Clone, Copy)]
struct Stretch {
    object: u64,
    first: u64,
    units: usize,
}

// Whether the `k` units of the file of `object` from `first` on are the front of the stretch in hand.
#[tactic(auto, unfolding(crate::specs::InHand::starts_with))]
fn starts_with(last: Stretch, object: u64, first: u64, k: usize) -> bool
    ensures { result ≡ starts_with last.object last.first last.units object first k }
{
    last.object == object && last.first == first && k <= last.units
}

// The blocks of `k` units of the file of `object` from `first` on, at the front of `blocks`; looked up only where they are not in hand.
fn map_stretch(
    extents: &[u8],
    e: usize,
    last: Stretch,
    object: u64,
    first: u64,
    k: usize,
    blocks: &mut [u32],
) -> Stretch
    requires extents_right { ExtentsRight most_blocks e extents.now }
    requires blocks_len { length blocks.old ≡ most_units * unit_blocks }
    requires k_le_most_units { k ≤ most_units }
    requires unit_blocks_bound { first * unit_blocks + most_units * unit_blocks < 2 ^ 64 }
    requires in_hand { InHand extents.now e last.object last.first last.units blocks.old }
    ensures { InHand extents.now e result.object result.first result.units blocks.new × InHand extents.now e object first k blocks.new }
{
    if starts_with(last, object, first, k) {
        return last;
    }
    let m = k * UNIT_BLOCKS;
    mapping::extents::map_blocks(
        extents,
        e,
        object,
        first * UNIT_BLOCKS as u64,
        &mut blocks[..m],
    );
    Stretch {
        object,
        first,
        units: k,
    }
}

// A read of a file of this size into a piece; the piece's bytes past those that the read gets stay.
fn hand_out_piece(
    image: &[u8],
    extents: &[u8],
    e: usize,
    last: Stretch,
    object: u64,
    offset: u64,
    size: u64,
    blocks: &mut [u32],
    piece: &mut [u8],
) -> Stretch
    requires extents_right { ExtentsRight (length image.now / block_bytes) e extents.now }
    requires blocks_len { length blocks.old ≡ most_units * unit_blocks }
    requires in_hand { InHand extents.now e last.object last.first last.units blocks.old }
    ensures in_hand_2 { InHand extents.now e result.object result.first result.units blocks.new }
    ensures piece_after { piece.new ≡ piece_of image.now extents.now e object offset size piece.old }
{
    let n = read::read_length(size, offset, piece.len());
    if n == 0 {
        return last;
    }
    let k = read::units_touched(offset, n);
    let next = map_stretch(
        extents,
        e,
        last,
        object,
        offset / UNIT_BYTES as u64,
        k,
        blocks,
    );
    let m = k * UNIT_BLOCKS;
    let place = offset % UNIT_BYTES as u64;
    image::out::hand_out(image, &blocks[..m], place as usize, n, piece);
    next
}

// `hand_out_pieces`, with room for the blocks that are looked up.
fn hand_out_each(
    image: &[u8],
    extents: &[u8],
    e: usize,
    list: &[u8],
    sizes: &[u64],
    blocks: &mut [u32],
    out: &mut [u8],
)
    requires extents_right { ExtentsRight (length image.now / block_bytes) e extents.now }
    requires list_in_bounds { lengths_of (decode_triples list.now) ≤ length out.old }
    requires triple_bytes_in_bounds { length list.now / triple_bytes ≤ length sizes.now }
    requires blocks_len { length blocks.old ≡ most_units * unit_blocks }
    ensures { out.new ≡ pieces_of image.now extents.now e (decode_triples list.now) sizes.now out.old }
{
    let mut last = Stretch {
        object: 0,
        first: 0,
        units: 0,
    };
    let mut at: usize = 0;
    for i in 0..list.len() / TRIPLE_BYTES {
        let t = triples::triple_at(list, i);
        let end = at + t.len as usize;
        last = hand_out_piece(
            image,
            extents,
            e,
            last,
            t.object,
            t.offset,
            sizes[i],
            blocks,
            &mut out[at..end],
        );
        at = end;
    }
}

// The reads of a list's triples into the pieces of `out`: each is as long as its triple says, and starts where the one before it ends. `sizes` has
// the size of each triple's file.
pub fn hand_out_pieces(
    image: &[u8],
    extents: &[u8],
    e: usize,
    list: &[u8],
    sizes: &[u64],
    out: &mut [u8],
)
    requires extents_right { ExtentsRight (length image.now / block_bytes) e extents.now }
    requires list_in_bounds { lengths_of (decode_triples list.now) ≤ length out.old }
    requires triple_bytes_in_bounds { length list.now / triple_bytes ≤ length sizes.now }
    ensures { out.new ≡ pieces_of image.now extents.now e (decode_triples list.now) sizes.now out.old }
{
    let mut blocks = [0u32; MOST_BLOCKS];
    hand_out_each(image, extents, e, list, sizes, &mut blocks, out);
}
