// A card: the record of a file.
ghost use Rattle.std.specs.Prelude.{◌≡◌, ◌+◌, ◌^◌, ◌≤◌, ◌<◌, length};
ghost use Rattle.rules.specs.Bytes.{part, patch};
ghost use Rattle.rules.specs.Card.{card_bytes, decode_card, encode_card, card_spare_zero, card_before};
ghost use Rattle.rules.specs.Enter.{new_card};
ghost use Rattle.rules.specs.Finish.{changed_card};
ghost use Rattle.fields.specs.Fields.{card_values};
ghost use Rattle.format.specs.Records.{time_of, card_of, packed_card, CardFits};

// Bytes of a card.
pub const CARD_BYTES: usize = 48;

// Where in a card the word stands that has its size, and the one that has its nanoseconds.
const SIZE_AT: usize = 8;

const NANOSECONDS_AT: usize = 24;

// Where the word stands that ends with the first two bits of the creation's nanoseconds, and the one that has the rest of them and the spare bits.
const CREATED_AT: usize = 32;

const SPARE_AT: usize = 40;

// A time in seconds, and nanoseconds past them.
#[derive(Clone, Copy)]
pub struct Time {
    pub seconds: u64,
    pub nanoseconds: u64,
}

// A file's object, its size, the blocks that it has, the time of its last change, and the time at which it was made.
#[derive(Clone, Copy)]
pub struct Card {
    pub object: u64,
    pub size: u64,
    pub allocated: u64,
    pub changed: Time,
    pub created: Time,
}

// The card of a file that is made at this time, with no bytes and no blocks.
pub fn new_card(object: u64, time: Time) -> Card
    ensures { card_of result ≡ new_card object (time_of time) }
{
    Card {
        object,
        size: 0,
        allocated: 0,
        changed: time,
        created: time,
    }
}

impl Card {
    // Whether its object stands before that of `next`.
    pub fn before(self, next: Card) -> bool
        ensures { result ≡ card_before (card_of self) (card_of next) }
    {
        self.object < next.object
    }

    // The card after a change to its file at this time: it is of the same file, made when it was.
    pub fn changed(self, size: u64, allocated: u64, time: Time) -> Card
        ensures { card_of result ≡ changed_card size allocated (time_of time) (card_of self) }
    {
        Card {
            size,
            allocated,
            changed: time,
            ..self
        }
    }
}

// A card's packed fields without the spare bits.
impl From<fields::Card> for Card {
    ghost from_gives = { λ f c. card_values f ≡ packed_card c f.spare };

    fn from(f: fields::Card) -> Card {
        Card {
            object: f.object,
            size: f.size,
            allocated: f.allocated,
            changed: Time {
                seconds: f.seconds,
                nanoseconds: f.nanoseconds,
            },
            created: Time {
                seconds: f.created_seconds,
                nanoseconds: f.created_nanoseconds,
            },
        }
    }
}

// The packed fields of a card, the spare bits zero.
impl From<Card> for fields::Card {
    ghost from_gives = { λ c f. card_values f ≡ packed_card c 0 };

    fn from(c: Card) -> fields::Card {
        fields::Card {
            object: c.object,
            size: c.size,
            allocated: c.allocated,
            seconds: c.changed.seconds,
            nanoseconds: c.changed.nanoseconds,
            created_seconds: c.created.seconds,
            created_nanoseconds: c.created.nanoseconds,
            spare: 0,
        }
    }
}

// The card at `at`.
pub fn decode_card(s: &[u8], at: usize) -> Card
    requires { at + card_bytes ≤ length s.now }
    ensures { (card_of result ≡ decode_card (part at card_bytes s.now)) × CardFits result }
{
    Card::from(fields::read_card(s, at))
}

// The object of the card at `at`. A field that is read by itself is read from its own word: a whole card costs six.
pub fn card_object(s: &[u8], at: usize) -> u64
    requires { at + card_bytes ≤ length s.now }
    ensures { result ≡ (decode_card (part at card_bytes s.now)).object }
{
    words::be64(s, at)
}

// The size of the card at `at`.
pub fn card_size(s: &[u8], at: usize) -> u64
    requires { at + card_bytes ≤ length s.now }
    ensures { (result ≡ (decode_card (part at card_bytes s.now)).size) × (result < 2 ^ 63) }
{
    words::be64(s, at + SIZE_AT) / 2
}

// The nanoseconds of the last change, of the card at `at`.
pub fn card_nanoseconds(s: &[u8], at: usize) -> u64
    requires { at + card_bytes ≤ length s.now }
    ensures { result ≡ (decode_card (part at card_bytes s.now)).changed.nanoseconds }
{
    words::be64(s, at + NANOSECONDS_AT) / 2 % 0x4000_0000
}

// The nanoseconds of the creation, of the card at `at`.
pub fn card_created_nanoseconds(s: &[u8], at: usize) -> u64
    requires { at + card_bytes ≤ length s.now }
    ensures { result ≡ (decode_card (part at card_bytes s.now)).created.nanoseconds }
{
    words::be64(s, at + CREATED_AT) % 4 * 0x1000_0000
        + words::be64(s, at + SPARE_AT) / 0x10_0000_0000
}

// Whether the spare bits of the card at `at` are zero.
pub fn card_spare_zero(s: &[u8], at: usize) -> bool
    requires { at + card_bytes ≤ length s.now }
    ensures { result ≡ card_spare_zero (part at card_bytes s.now) }
{
    words::be64(s, at + SPARE_AT) % 0x10_0000_0000 == 0
}

// A card, at `at`.
pub fn encode_card(s: &mut [u8], at: usize, c: Card)
    requires card_bytes_in_bounds { at + card_bytes ≤ length s.old }
    requires card_fits { CardFits c }
    ensures { s.new ≡ patch s.old at (encode_card (card_of c)) }
{
    fields::put_card(s, at, fields::Card::from(c));
}
