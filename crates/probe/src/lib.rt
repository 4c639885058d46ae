// What the tests and the benchmark call from Rust: functions of the lower crates, each under a name of its own. The archive of the library itself
// does not have them.
#![tactic(auto)]

ghost use Rattle.std.specs.Prelude.{◌≡◌, length};
ghost use Rattle.rules.specs.Bytes.{all_zero};
ghost use Rattle.rules.specs.Crc32c.{crc32c};
ghost use Rattle.probe.specs.Probe.{repeated, copied, map_bits, count_set, all_clear};

pub mod allocate;
pub mod books;
pub mod extents;
pub mod group;
pub mod unit;

// Bytes of the map of the largest store.
pub const MAP_BYTES: usize = 8192;

// The CRC-32C of `bytes`.
#[unsafe(no_mangle)]
pub extern "C" fn sangueko_probe_crc32c(bytes: &[u8]) -> u32
    ensures { result ≡ crc32c bytes.now }
{
    crc32c::checksum(bytes)
}

// The CRC-32C of `bytes` as many times one behind the other: fed anew each time, with the tables copied once.
#[unsafe(no_mangle)]
pub extern "C" fn sangueko_probe_crc32c_repeated(bytes: &[u8], times: usize) -> u32
    ensures { result ≡ crc32c (repeated times bytes.now) }
{
    let t = crc32c_tables::tables();
    let mut c = crc32c::begin();
    for i in 0..times {
        c = crc32c::feed(&t, c, bytes);
    }
    crc32c::finish(c)
}

// Whether every byte is zero.
#[unsafe(no_mangle)]
pub extern "C" fn sangueko_probe_is_zero(bytes: &[u8]) -> bool
    ensures { result ≡ all_zero bytes.now }
{
    words::range::is_zero(bytes, 0, bytes.len())
}

// `from` copied over `to`, where they are equally long.
#[unsafe(no_mangle)]
pub extern "C" fn sangueko_probe_copy(to: &mut [u8], from: &[u8])
    ensures { to.new ≡ copied to.old from.now }
{
    if to.len() == from.len() {
        words::range::copy(to, 0, from);
    }
}

// How many bits of a map there are, where no store has a longer one.
fn map_bits(map: &[u8]) -> usize
    ensures { result ≡ map_bits map.now }
{
    if map.len() <= MAP_BYTES {
        8 * map.len()
    } else {
        0
    }
}

// How many bits of a map are set.
#[unsafe(no_mangle)]
pub extern "C" fn sangueko_probe_count_set(map: &[u8]) -> usize
    ensures { result ≡ count_set map.now }
{
    bitmap::count_set(map, 0, map_bits(map))
}

// Whether all bits of a map are clear.
#[unsafe(no_mangle)]
pub extern "C" fn sangueko_probe_all_clear(map: &[u8]) -> bool
    ensures { result ≡ all_clear map.now }
{
    bitmap::all_clear(map, 0, map_bits(map))
}
