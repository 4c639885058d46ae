// The head: the store's record of itself, 28 bytes in a buffer of their own.
ghost use Rattle.std.specs.Prelude.{◌≡◌, ◌≤◌, length, take};
ghost use Rattle.rules.specs.Head.{head_bytes, uuid_bytes, decode_head, encode_head};
ghost use Rattle.fields.specs.Fields.{head_values};
ghost use Rattle.format.specs.Records.{head_of, packed_head, HeadFits};

// Bytes of a head.
pub const HEAD_BYTES: usize = 28;

// Bytes of a uuid, in front of the packed fields.
pub const UUID_BYTES: usize = 16;

// The store's uuid, its blocks, how many of them are reserved, the allocation group to begin in, and the numbers of records in the three
// books.
#[derive(Clone, Copy)]
pub struct Head {
    pub uuid: [u8; UUID_BYTES],
    pub blocks: u64,
    pub reserved: u64,
    pub hint: u64,
    pub cards: u64,
    pub extents: u64,
    pub groups: u64,
}

// The packed fields of a head.
impl From<Head> for fields::Head {
    ghost from_gives = { λ h f. head_values f ≡ packed_head h };

    fn from(h: Head) -> fields::Head {
        fields::Head {
            blocks: h.blocks,
            reserved: h.reserved,
            hint: h.hint,
            cards: h.cards,
            extents: h.extents,
            groups: h.groups,
        }
    }
}

// The uuid of a head's bytes.
pub fn read_uuid(s: &[u8]) -> [u8; UUID_BYTES]
    requires { uuid_bytes ≤ length s.now }
    ensures { result ≡ take uuid_bytes s.now }
{
    *s.first_chunk().unwrap()
}

// What the 28 bytes say.
pub fn decode_head(s: &[u8]) -> Head
    requires { length s.now ≡ head_bytes }
    ensures { (head_of result ≡ decode_head s.now) × HeadFits result }
{
    let f = fields::read_head(s, UUID_BYTES);
    Head {
        uuid: read_uuid(s),
        blocks: f.blocks,
        reserved: f.reserved,
        hint: f.hint,
        cards: f.cards,
        extents: f.extents,
        groups: f.groups,
    }
}

// A head, into the 28 bytes.
pub fn encode_head(s: &mut [u8], h: Head)
    requires s_len { length s.old ≡ head_bytes }
    requires head_fits { HeadFits h }
    ensures { s.new ≡ encode_head (head_of h) }
{
    words::range::copy(s, 0, &h.uuid);
    fields::put_head(s, UUID_BYTES, fields::Head::from(h));
}
