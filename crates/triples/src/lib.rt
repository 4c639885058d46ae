// A lent list of triples (object, offset, length), each number in 8 bytes, little-endian: the tests of the list, and a triple of it.
#![tactic(auto)]

ghost use Rattle.std.specs.Prelude.{◌≡◌, not, ◌+◌, ◌*◌, ◌≤◌, ◌<◌, eqb, ltb, length, MatchOption};
ghost use Rattle.rules.specs.Triples.{triple_bytes, decode_triples, list_wrong, lengths_of};
ghost use Rattle.rules.specs.Batch.{length_over};
ghost use Rattle.triples.specs.Triple.{triple_of, triple_at};

// Bytes of a triple.
pub const TRIPLE_BYTES: usize = 24;

// Triples of a list at most.
pub const MOST_TRIPLES: usize = 64;

// Bytes that one write takes at most.
const MOST_TRANSFER: u64 = 1048576;

// Where in a triple the offset and the length stand.
const OFFSET_AT: usize = 8;

const LEN_AT: usize = 16;

// `len` bytes of the file of `object` from `offset` on.
#[derive(Clone, Copy)]
pub struct Triple {
    pub object: u64,
    pub offset: u64,
    pub len: u64,
}

// The triple at place `i`.
pub fn triple_at(list: &[u8], i: usize) -> Triple
    requires { triple_bytes * i + triple_bytes ≤ length list.now }
    ensures { triple_of result ≡ triple_at list.now i }
{
    let at = TRIPLE_BYTES * i;
    Triple {
        object: words::le64(list, at),
        offset: words::le64(list, at + OFFSET_AT),
        len: words::le64(list, at + LEN_AT),
    }
}

// Whether a list is not whole triples, or has too many.
#[tactic(auto, unfolding(rules::specs::Triples::list_wrong))]
pub fn list_wrong(list: &[u8]) -> bool
    ensures { result ≡ list_wrong list.now }
{
    list.len() % TRIPLE_BYTES != 0 || MOST_TRIPLES < list.len() / TRIPLE_BYTES
}

// What the lengths leave of `room`, or nothing where they exceed it. They are taken off it one after another: their sum may pass 64 bits.
fn left_of(list: &[u8], room: u64) -> Option<u64>
    ensures { MatchOption result (room < lengths_of (decode_triples list.now)) (λ left. left + lengths_of (decode_triples list.now) ≡ room) }
{
    let mut left = room;
    for i in 0..list.len() / TRIPLE_BYTES {
        let t = triple_at(list, i);
        if left < t.len {
            return None;
        }
        left -= t.len;
    }
    Some(left)
}

// Whether the lengths together exceed `room`.
pub fn lengths_exceed(list: &[u8], room: usize) -> bool
    ensures { result ≡ ltb room (lengths_of (decode_triples list.now)) }
{
    left_of(list, room as u64).is_none()
}

// Whether a length exceeds what one write takes.
pub fn length_over(list: &[u8]) -> bool
    ensures { result ≡ length_over (decode_triples list.now) }
{
    for i in 0..list.len() / TRIPLE_BYTES {
        let t = triple_at(list, i);
        if MOST_TRANSFER < t.len {
            return true;
        }
    }
    false
}

// Whether the lengths do not add up to `total`.
pub fn lengths_differ(list: &[u8], total: usize) -> bool
    ensures { result ≡ not (eqb (lengths_of (decode_triples list.now)) total) }
{
    left_of(list, total as u64) != Some(0)
}
