// CRC-32C and the checksum of a unit: by tables (`crc32c_tables`), and for more than some bytes through a window (`crc32c_window`), which leaves the
// tables a short message. `unit` has the checksum of a unit that comes in pieces.
//
// A caller begins, feeds parts, and finishes: `crc-parts` of proofs/Running.antt turns that into the checksum of the concatenation.
#![tactic(auto)]

pub mod unit;

ghost use Rattle.std.specs.Prelude.{◌≡◌, ◌++◌, ◌^◌, ◌<◌, length};
ghost use Rattle.rules.specs.Bytes.{be_digits};
ghost use Rattle.rules.specs.Crc32c.{crc32c};
ghost use Rattle.rules.specs.Checksum.{unit_checksum};
ghost use Rattle.crc32c_tables.specs.Register.{fed, begun, finished, Tables};

// The state before the first byte.
pub fn begin() -> u32
    ensures { result ≡ begun }
{
    0xffff_ffff
}

// The state after `s` more, through a window. The clearing of the window and the 528 bytes left for the tables cost as much as the tables do for about 1,000 bytes.
fn feed_window(t: &[u32; 4096], state: u32, s: &[u8]) -> u32
    requires { Tables t.now }
    ensures { result ≡ fed state s.now }
{
    let mut w = [0u8; 4624];
    crc32c_window::set_register(&mut w, state);
    crc32c_window::push(&mut w, s);
    crc32c_window::register(t, &w)
}

// The state after `s` more, by the way that is faster for so many bytes.
pub fn feed(t: &[u32; 4096], state: u32, s: &[u8]) -> u32
    requires { Tables t.now }
    ensures { result ≡ fed state s.now }
{
    if s.len() < 1280 {
        return crc32c_tables::feed(t, state, s);
    }
    feed_window(t, state, s)
}

// The checksum of what the state was fed.
pub fn finish(state: u32) -> u32
    ensures { result ≡ finished state }
{
    state ^ 0xffff_ffff
}

// The checksum of `s`.
pub fn checksum(s: &[u8]) -> u32
    ensures { result ≡ crc32c s.now }
{
    let t = crc32c_tables::tables();
    finish(feed(&t, begin(), s))
}

// The state after what stands before a unit's valid bytes: the store's uuid, the object's number, the unit's, and how many bytes are valid.
pub fn begin_unit(t: &[u32; 4096], uuid: &[u8], object: u64, unit: u64, valid: u32) -> u32
    requires { Tables t.now }
    ensures { result ≡ fed begun (uuid.now ++ be_digits 8 object ++ be_digits 8 unit ++ be_digits 4 valid) }
{
    let mut p = [0u8; 20];
    words::put_be64(&mut p, 0, object);
    words::put_be64(&mut p, 8, unit);
    words::put_be32(&mut p, 16, valid);
    feed(t, feed(t, begin(), uuid), &p)
}

// The checksum of a unit, with the tables lent.
pub fn unit_checksum_with(t: &[u32; 4096], uuid: &[u8], object: u64, unit: u64, s: &[u8]) -> u32
    requires tables { Tables t.now }
    requires s_len_bound { length s.now < 2 ^ 32 }
    ensures { result ≡ unit_checksum uuid.now object unit s.now }
{
    let c = begin_unit(t, uuid, object, unit, s.len() as u32);
    finish(feed(t, c, s))
}

// The checksum of a unit whose valid bytes are `s`.
pub fn unit_checksum(uuid: &[u8], object: u64, unit: u64, s: &[u8]) -> u32
    requires { length s.now < 2 ^ 32 }
    ensures { result ≡ unit_checksum uuid.now object unit s.now }
{
    let t = crc32c_tables::tables();
    unit_checksum_with(&t, uuid, object, unit, s)
}
