// The packed fields of head and card, the most significant bit first: out of the words that hold them, and back.
//
// Kept: functions for each of the two, as every shift differs, and no integer holds the 384 bits of a card: one
// function over a list of widths would have to find the seams between words by itself.
// Kept: `format` has structs of the names Head and Card too, as its Head has the uuid and its Card no spare bits.
#![tactic(auto)]

ghost use Rattle.std.specs.Prelude.{◌≡◌, ◌+◌, ◌*◌, ◌^◌, ◌≤◌, ◌<◌, length};
ghost use Rattle.rules.specs.Bytes.{be, be_digits, part, patch, unpack, pack};
ghost use Rattle.rules.specs.Head.{head_widths};
ghost use Rattle.rules.specs.Card.{card_bytes, card_widths};
ghost use Rattle.fields.specs.Fields.{head_values, HeadFits, joined, card_values, CardFits};

// The 96 bits that follow the uuid in a head.
#[derive(Clone, Copy)]
pub struct Head {
    pub blocks: u64,
    pub reserved: u64,
    pub hint: u64,
    pub cards: u64,
    pub extents: u64,
    pub groups: u64,
}

// The 384 bits of a card: its times are that of the last change, and that of its making.
#[derive(Clone, Copy)]
pub struct Card {
    pub object: u64,
    pub size: u64,
    pub allocated: u64,
    pub seconds: u64,
    pub nanoseconds: u64,
    pub created_seconds: u64,
    pub created_nanoseconds: u64,
    pub spare: u64,
}

// The fields of a head in a word of 64 bits and one of 32; `extents` lies across the seam.
pub fn head_of(w0: u64, w1: u64) -> Head
    requires { w1 < 2 ^ 32 }
    ensures { head_values result ≡ unpack head_widths (w0 * 2 ^ 32 + w1) }
{
    Head {
        blocks: w0 / 0x8000_0000_0000,
        reserved: w0 / 0x4000_0000 % 0x2_0000,
        hint: w0 / 0x1000_0000 % 4,
        cards: w0 / 0x100 % 0x10_0000,
        extents: w0 % 0x100 * 0x1000 + w1 / 0x10_0000,
        groups: w1 % 0x10_0000,
    }
}

// The fields of the head whose packed bits stand at `at`.
pub fn read_head(s: &[u8], at: usize) -> Head
    requires { at + 12 ≤ length s.now }
    ensures { head_values result ≡ unpack head_widths (be (part at 12 s.now)) }
{
    head_of(words::be64(s, at), words::be32(s, at + 8) as u64)
}

// The fields of a card in six words; `allocated`, `seconds` and both numbers of the creation time lie across a seam.
pub fn card_of(w: [u64; 6]) -> Card
    ensures { card_values result ≡ unpack card_widths (joined w) }
{
    let [w0, w1, w2, w3, w4, w5] = w;
    Card {
        object: w0,
        size: w1 / 2,
        allocated: w1 % 2 * 0x4_0000_0000 + w2 / 0x4000_0000,
        seconds: w2 % 0x4000_0000 * 0x2_0000_0000 + w3 / 0x8000_0000,
        nanoseconds: w3 / 2 % 0x4000_0000,
        created_seconds: w3 % 2 * 0x4000_0000_0000_0000 + w4 / 4,
        created_nanoseconds: w4 % 4 * 0x1000_0000 + w5 / 0x10_0000_0000,
        spare: w5 % 0x10_0000_0000,
    }
}

// The fields of the card at `at`.
pub fn read_card(s: &[u8], at: usize) -> Card
    requires { at + card_bytes ≤ length s.now }
    ensures { card_values result ≡ unpack card_widths (be (part at card_bytes s.now)) }
{
    card_of([
        words::be64(s, at),
        words::be64(s, at + 8),
        words::be64(s, at + 16),
        words::be64(s, at + 24),
        words::be64(s, at + 32),
        words::be64(s, at + 40),
    ])
}

// A head's fields, packed: a word of 64 bits and one of 32.
pub fn head_words(h: Head) -> (u64, u32)
    requires { HeadFits h }
    ensures { result.0 * 2 ^ 32 + result.1 ≡ pack head_widths (head_values h) }
{
    (
        h.blocks * 0x8000_0000_0000
            + h.reserved * 0x4000_0000
            + h.hint * 0x1000_0000
            + h.cards * 0x100
            + h.extents / 0x1000,
        (h.extents % 0x1000 * 0x10_0000 + h.groups) as u32,
    )
}

// A card's fields, packed in six words.
pub fn card_words(c: Card) -> [u64; 6]
    requires { CardFits c }
    ensures { joined result ≡ pack card_widths (card_values c) }
{
    [
        c.object,
        c.size * 2 + c.allocated / 0x4_0000_0000,
        c.allocated % 0x4_0000_0000 * 0x4000_0000 + c.seconds / 0x2_0000_0000,
        c.seconds % 0x2_0000_0000 * 0x8000_0000
            + c.nanoseconds * 2
            + c.created_seconds / 0x4000_0000_0000_0000,
        c.created_seconds % 0x4000_0000_0000_0000 * 4 + c.created_nanoseconds / 0x1000_0000,
        c.created_nanoseconds % 0x1000_0000 * 0x10_0000_0000 + c.spare,
    ]
}

// The packed bits of a head, at `at`.
pub fn put_head(s: &mut [u8], at: usize, h: Head)
    requires at_in_bounds { at + 12 ≤ length s.old }
    requires head_fits { HeadFits h }
    ensures { s.new ≡ patch s.old at (be_digits 12 (pack head_widths (head_values h))) }
{
    let (w0, w1) = head_words(h);
    words::put_be64(s, at, w0);
    words::put_be32(s, at + 8, w1);
}

// A card, at `at`.
pub fn put_card(s: &mut [u8], at: usize, c: Card)
    requires card_bytes_in_bounds { at + card_bytes ≤ length s.old }
    requires card_fits { CardFits c }
    ensures { s.new ≡ patch s.old at (be_digits card_bytes (pack card_widths (card_values c))) }
{
    let words = card_words(c);
    for (i, w) in words.iter().enumerate() {
        words::put_be64(s, at + 8 * i, *w);
    }
}
