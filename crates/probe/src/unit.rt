// The checksum of a unit that is fed in pieces, for tests and the benchmark.
ghost use Rattle.std.specs.Prelude.{◌≡◌, ◌≤◌, ◌<◌, ◌^◌, length};
ghost use Rattle.rules.specs.Checksum.{unit_checksum};
ghost use Rattle.crc32c_tables.specs.Register.{Tables};

// Where a piece of `n` bytes from `at` on ends.
fn piece_end(at: usize, n: usize, len: usize) -> usize
    requires { (at < len) × (0 < n) }
    ensures { (at < result) × (result ≤ len) }
{
    at + n.min(len - at)
}

// The checksum of a unit whose valid bytes are `s`, in pieces of `n`.
fn in_pieces(
    t: &[u32; 4096],
    w: &mut [u8],
    uuid: &[u8],
    object: u64,
    unit: u64,
    s: &[u8],
    n: usize,
) -> u32
    requires tables { Tables t.now }
    requires w_len { length w.old ≡ 4624 }
    requires s_len_bound { length s.now < 2 ^ 32 }
    requires n_nonzero { 0 < n }
    ensures { result ≡ unit_checksum uuid.now object unit s.now }
{
    let mut state = crc32c::unit::begin(t, w, uuid, object, unit, s.len() as u32);
    let mut at: usize = 0;
    while at < s.len() {
        let end = piece_end(at, n, s.len());
        state = crc32c::unit::feed(t, w, state, &s[at..end]);
        at = end;
    }
    crc32c::unit::finish(t, w, state)
}

// The same; 0 where the length has no place in four bytes, or a piece has no bytes.
#[unsafe(no_mangle)]
pub extern "C" fn sangueko_probe_unit_checksum(
    uuid: &[u8],
    object: u64,
    unit: u64,
    bytes: &[u8],
    piece: usize,
) -> u32
    ensures { length bytes.now < 2 ^ 32 → 0 < piece → result ≡ unit_checksum uuid.now object unit bytes.now }
{
    if 0xffff_ffff < bytes.len() || piece < 1 {
        return 0;
    }
    let t = crc32c_tables::tables();
    let mut w = [0u8; 4624];
    in_pieces(&t, &mut w, uuid, object, unit, bytes, piece)
}
