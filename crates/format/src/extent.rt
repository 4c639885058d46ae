// An extent: blocks of a file that lie side by side on the device. Its methods hold for any field values, those of a damaged record too: a sum
// that is not known to fit saturates.
ghost use Rattle.std.specs.Prelude.{◌≡◌, true, ◌+◌, ◌-◌, ◌*◌, ◌^◌, ◌≤◌, ◌<◌, min, eqb, leb, length};
ghost use Rattle.rules.specs.Bytes.{part, patch};
ghost use Rattle.rules.specs.Extent.{extent_bytes, extent_key, encode_extent, decode_extent, extent_fixed, extent_before, extent_end, device_end, joins, joined, covers, block_of};
ghost use Rattle.rules.specs.Integrity.{apart};
ghost use Rattle.format.specs.Records.{key_bytes, extent_of};

use super::key::KEY_BYTES;
use super::sizes::BLOCK_BYTES;

// Bytes of an extent.
pub const EXTENT_BYTES: usize = 33;

// Where in it the physical block stands, the count, and the zeros up to its end.
const PHYSICAL_AT: usize = KEY_BYTES;

const COUNT_AT: usize = 25;

const ZEROS_AT: usize = 29;

// The byte of its key that stands between object and block.
const EXTENT_TAG: u8 = 3;

// `count` blocks of the file of `object`, from its block `logical` on, stand at the device's blocks from `physical` on.
#[derive(Clone, Copy)]
pub struct Extent {
    pub object: u64,
    pub logical: u64,
    pub physical: u64,
    pub count: u32,
}

// Whether `count` blocks from `start` on end just where `next` starts.
fn meets(start: u64, count: u32, next: u64) -> bool
    ensures { result ≡ eqb (start + count) next }
{
    start <= next && next - start == count as u64
}

// Whether `count` blocks from `start` on end at `limit` or before.
fn ends_at_most(start: u64, count: u32, limit: u64) -> bool
    ensures { result ≡ leb (start + count) limit }
{
    start <= limit && count as u64 <= limit - start
}

impl Extent {
    // The file's block after it, or the last number of 64 bits where that is past it.
    pub fn end(self) -> u64
        ensures { result ≡ min (extent_end (extent_of self)) (2 ^ 64 - 1) }
    {
        self.logical.saturating_add(self.count as u64)
    }

    // The device's byte after it, saturating: 0xf_ffff_ffff_ffff blocks are the most whose bytes are counted in 64 bits.
    pub fn device_end(self) -> u64
        ensures { result ≡ device_end (extent_of self) }
    {
        self.physical
            .saturating_add(self.count as u64)
            .saturating_mul(BLOCK_BYTES as u64)
    }

    // Whether it ends at the file's block `limit` or before.
    pub fn ends_by(self, limit: u64) -> bool
        ensures { result ≡ leb (extent_end (extent_of self)) limit }
    {
        ends_at_most(self.logical, self.count, limit)
    }

    // Whether it lies on a device of so many blocks.
    pub fn on_device(self, blocks: u64) -> bool
        ensures { result ≡ leb ((extent_of self).physical + (extent_of self).count) blocks }
    {
        ends_at_most(self.physical, self.count, blocks)
    }

    // Whether it maps this block of the file of `object`.
    pub fn covers(self, object: u64, block: u64) -> bool
        ensures { result ≡ covers object block (extent_of self) }
    {
        self.object == object && self.logical <= block && block - self.logical < self.count as u64
    }

    // Where it has the file's block on the device.
    pub fn block_of(self, block: u64) -> u64
        requires self_bound { (extent_of self).logical ≤ block }
        requires self_bound_2 { block_of block (extent_of self) < 2 ^ 64 }
        ensures { result ≡ block_of block (extent_of self) }
    {
        self.physical + (block - self.logical)
    }

    // Whether the two join: both of one file, the next starting where this ends in the file and on the device.
    pub fn joins(self, next: Extent) -> bool
        ensures { result ≡ joins (extent_of self) (extent_of next) }
    {
        self.object == next.object
            && meets(self.logical, self.count, next.logical)
            && meets(self.physical, self.count, next.physical)
            && self.count <= u32::MAX - next.count
    }

    // The two as one.
    pub fn joined(self, next: Extent) -> Extent
        requires { joins (extent_of self) (extent_of next) ≡ true }
        ensures { extent_of result ≡ joined (extent_of self) (extent_of next) }
    {
        Extent {
            count: self.count + next.count,
            ..self
        }
    }

    // Whether its key stands before that of `next`.
    pub fn before(self, next: Extent) -> bool
        ensures { result ≡ extent_before (extent_of self) (extent_of next) }
    {
        super::key::before(self.object, self.logical, next.object, next.logical)
    }

    // Whether `next` is of another file, or this one ends where it starts or before.
    pub fn apart(self, next: Extent) -> bool
        ensures { result ≡ apart (extent_of self) (extent_of next) }
    {
        self.object != next.object || ends_at_most(self.logical, self.count, next.logical)
    }
}

// The extent at `at`.
pub fn decode_extent(s: &[u8], at: usize) -> Extent
    requires { at + extent_bytes ≤ length s.now }
    ensures { extent_of result ≡ decode_extent (part at extent_bytes s.now) }
{
    Extent {
        object: words::be64(s, at),
        logical: words::be64(s, at + super::key::NUMBER_AT),
        physical: words::le64(s, at + PHYSICAL_AT),
        count: words::le32(s, at + COUNT_AT),
    }
}

// Whether the fixed bytes of the extent at `at` are right: the 3 of the key, and the four zeros.
pub fn extent_fixed(s: &[u8], at: usize) -> bool
    requires { at + extent_bytes ≤ length s.now }
    ensures { result ≡ extent_fixed (part at extent_bytes s.now) }
{
    s[at + super::key::TAG_AT] == EXTENT_TAG && words::le32(s, at + ZEROS_AT) == 0
}

// The key of an extent, at `at`.
pub fn extent_key(s: &mut [u8], at: usize, object: u64, logical: u64)
    requires { at + key_bytes ≤ length s.old }
    ensures { s.new ≡ patch s.old at (extent_key object logical) }
{
    super::key::put_key(s, at, object, EXTENT_TAG, logical);
}

// An extent, at `at`.
pub fn encode_extent(s: &mut [u8], at: usize, e: Extent)
    requires { at + extent_bytes ≤ length s.old }
    ensures { s.new ≡ patch s.old at (encode_extent (extent_of e)) }
{
    extent_key(s, at, e.object, e.logical);
    words::put_le64(s, at + PHYSICAL_AT, e.physical);
    words::put_le32(s, at + COUNT_AT, e.count);
    words::range::zero(s, at + ZEROS_AT, at + EXTENT_BYTES);
}
