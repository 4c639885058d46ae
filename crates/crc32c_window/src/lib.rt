// The window: 528 bytes that stand for the register, and room for 4,096 more behind them.
//
// y^528 + y^400 + y^224 + y^175 + y^103 + 1 with y = x^8 is a multiple of the generator, so a byte may be added to the message 128, 304, 353, 425 and
// 528 bytes further on in the place of where it stands. That is a loop of exclusive ors over whole bytes, which the compiler takes sixteen at a
// time; the tables are left with 528 bytes at the end. Of the multiples with six terms this one has the nearest bytes at a distance that is a
// multiple of sixteen: they are read as they were stored.
#![tactic(auto)]

ghost use Rattle.std.specs.Prelude.{◌≡◌, ◌+◌, ◌≤◌, ◌<◌, length, slice_index};
ghost use Rattle.crc32c_tables.specs.Register.{fed, Tables};
ghost use Rattle.crc32c_window.specs.Window.{tap_sum, taps, latest, register_at, Clear};

// The window stands for `c`.
pub fn set_register(w: &mut [u8], c: u32)
    requires { length w.old ≡ 4624 }
    ensures { register_at w.new 528 ≡ c }
{
    words::range::zero(w, 4, 528);
    words::put_le32(w, 0, c);
}

// What is added to the byte at `i + 528`: the sum of the bytes at the other places of the multiple. The byte at `i`,
// the oldest of them, is read here alone, so that its range is known from here.
fn added(w: &[u8], i: usize) -> u8
    requires { i + 528 ≤ length w.now }
    ensures sum { result ≡ tap_sum taps (latest w.now (528 + i) 528) }
    ensures oldest_fits { slice_index w.now i < 256 }
{
    w[i + 400] ^ w[i + 224] ^ w[i + 175] ^ w[i + 103] ^ w[i]
}

// The bytes of `s` come in above the first 528.
fn take_in(w: &mut [u8], s: &[u8])
    requires w_len { length w.old ≡ 4624 }
    requires s_len { length s.now ≤ 4096 }
    ensures { register_at w.new (528 + length s.now) ≡ fed (register_at w.old 528) s.now }
{
    for (i, b) in s.iter().enumerate() {
        w[i + 528] = *b ^ added(w, i);
    }
}

// They come in, and the last 528 bytes move down to the first places.
fn push_piece(w: &mut [u8], s: &[u8])
    requires w_len { length w.old ≡ 4624 }
    requires s_len { length s.now ≤ 4096 }
    ensures { register_at w.new 528 ≡ fed (register_at w.old 528) s.now }
{
    take_in(w, s);
    words::range::move_down(w, s.len(), s.len() + 528, s.len());
}

// The window stands for the register after `s` more.
pub fn push(w: &mut [u8], s: &[u8])
    requires { length w.old ≡ 4624 }
    ensures { register_at w.new 528 ≡ fed (register_at w.old 528) s.now }
{
    for piece in s.chunks(4096) {
        push_piece(w, piece);
    }
}

// The message of 528 bytes that the upper half of `z` stands for; the lower half is zero.
fn settle(z: &[u8; 1056], u: &mut [u8; 528])
    requires { Clear z.now 528 }
    ensures { fed 0 u.new ≡ register_at z.now 1056 }
{
    for (j, b) in u.iter_mut().enumerate() {
        *b = z[j + 528] ^ added(z, j);
    }
}

// The register that the window stands for.
pub fn register(t: &[u32; 4096], w: &[u8]) -> u32
    requires tables { Tables t.now }
    requires w_len { length w.now ≡ 4624 }
    ensures { result ≡ register_at w.now 528 }
{
    let mut z = [0u8; 1056];
    words::range::copy_part(&mut z, 528, w, 0, 528);
    let mut u = [0u8; 528];
    settle(&z, &mut u);
    crc32c_tables::feed(t, 0, &u)
}
