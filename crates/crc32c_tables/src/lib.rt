// CRC-32C by tables, sixteen bytes at once: a register of 32 bits, proved to be the remainder of the polynomial division (proofs/Division.antt).
//
// `tables` hands the tables out once: a constant that is indexed is copied at each use, so they go down by reference.
#![tactic(auto)]

mod table;

ghost use Rattle.std.specs.Prelude.{◌≡◌, ◌+◌, ◌*◌, ◌^◌, ◌≤◌};
ghost use Rattle.crc32c_tables.specs.Register.{turns, fed, Tables};

// The tables, to be lent to the functions below.
pub fn tables() -> [u32; 4096]
    ensures { Tables result }
{
    table::TABLES
}

// The eight steps of one byte: `y` is the register with the byte put in.
fn byte_step(t: &[u32; 4096], y: u32) -> u32
    requires { Tables t.now }
    ensures { result ≡ turns 8 y }
{
    t[(y % 256) as usize] ^ (y / 256)
}

// The steps of sixteen bytes. Each byte has its own table, so the look-ups do not wait for one another; the four bytes
// that the register is put into come last, so that the others are ready by then.
fn pair_step(t: &[u32; 4096], state: u32, p: &[u8; 16]) -> u32
    requires { Tables t.now }
    ensures { result ≡ fed state p.now }
{
    let y = (words::le32(p, 0) ^ state).to_le_bytes();
    t[p[15] as usize]
        ^ t[256 + p[14] as usize]
        ^ t[512 + p[13] as usize]
        ^ t[768 + p[12] as usize]
        ^ t[1024 + p[11] as usize]
        ^ t[1280 + p[10] as usize]
        ^ t[1536 + p[9] as usize]
        ^ t[1792 + p[8] as usize]
        ^ t[2048 + p[7] as usize]
        ^ t[2304 + p[6] as usize]
        ^ t[2560 + p[5] as usize]
        ^ t[2816 + p[4] as usize]
        ^ t[3072 + y[3] as usize]
        ^ t[3328 + y[2] as usize]
        ^ t[3584 + y[1] as usize]
        ^ t[3840 + y[0] as usize]
}

// The state after `s` more: sixteen bytes at once, and those that are left one by one.
pub fn feed(t: &[u32; 4096], state: u32, s: &[u8]) -> u32
    requires { Tables t.now }
    ensures { result ≡ fed state s.now }
{
    let (pairs, rest) = s.as_chunks::<16>();
    let mut c = state;
    for pair in pairs {
        c = pair_step(t, c, pair);
    }
    rest.iter().fold(c, |c, b| byte_step(t, c ^ *b as u32))
}
