// The head after a change: where the next search for blocks begins, and how many extents and groups there are.
ghost use Rattle.std.specs.Prelude.{◌≡◌, ◌^◌, ◌<◌, length};
ghost use Rattle.rules.specs.Head.{head_bytes, decode_head, encode_head};
ghost use Rattle.finish_books.specs.Buffers.{finished_head};

use format::head::Head;

// The head with another hint and other numbers of extents and groups.
pub fn finish_head(head: &mut [u8], hint: u64, extents: u64, groups: u64)
    requires head_len { length head.old ≡ head_bytes }
    requires hint_bound { (hint < 2 ^ 2) × (extents < 2 ^ 20) × (groups < 2 ^ 20) }
    ensures { head.new ≡ encode_head (finished_head hint extents groups (decode_head head.old)) }
{
    let h = format::head::decode_head(head);
    let uuid = h.uuid;
    let g = Head {
        uuid,
        blocks: h.blocks,
        reserved: h.reserved,
        hint,
        cards: h.cards,
        extents,
        groups,
    };
    format::head::encode_head(head, g);
}
