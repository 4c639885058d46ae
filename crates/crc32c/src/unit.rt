// The checksum of a unit whose bytes come in pieces: begun, fed piece after piece, and finished.
//
// The window is the caller's, 4,624 bytes, and is kept from piece to piece, so that the tables are left with 528 bytes once in a unit and not once in
// a piece. A unit of few bytes does without it.
ghost use Rattle.std.specs.Prelude.{◌≡◌, List, [], ◌++◌, ℕ, length};
ghost use Rattle.rules.specs.Checksum.{unit_checksum};
ghost use Rattle.crc32c_tables.specs.Register.{Tables};
ghost use Rattle.crc32c.specs.Unit.{UnitFed};

// Where the register is.
// Kept: not Option<u32>, as `Window` says where the register is, and `None` would say that there is none.
#[derive(Clone, Copy)]
pub enum Running {
    Register(u32),
    Window,
}

// The state before the first of `valid` bytes.
pub fn begin(
    t: &[u32; 4096],
    w: &mut [u8],
    uuid: &[u8],
    object: u64,
    unit: u64,
    valid: u32,
) -> Running
    requires tables { Tables t.now }
    requires w_len { length w.old ≡ 4624 }
    ensures { UnitFed result w.new uuid.now object unit valid [] }
{
    let c = super::begin_unit(t, uuid, object, unit, valid);
    if valid < 1024 {
        return Running::Register(c);
    }
    crc32c_window::set_register(w, c);
    Running::Window
}

// The state after the piece `s`.
pub fn feed(t: &[u32; 4096], w: &mut [u8], state: Running, s: &[u8]) -> Running
    requires tables { Tables t.now }
    requires w_len { length w.old ≡ 4624 }
    ensures { (uuid : List ℕ) (object unit valid : ℕ) (bytes : List ℕ) → UnitFed state w.old uuid object unit valid bytes → UnitFed result w.new uuid object unit valid (bytes ++ s.now) }
{
    match state {
        Running::Register(c) => Running::Register(super::feed(t, c, s)),
        Running::Window => {
            crc32c_window::push(w, s);
            Running::Window
        }
    }
}

// The checksum, where as many bytes were fed as were said at the beginning.
pub fn finish(t: &[u32; 4096], w: &[u8], state: Running) -> u32
    requires tables { Tables t.now }
    requires w_len { length w.now ≡ 4624 }
    ensures { (uuid : List ℕ) (object unit : ℕ) (bytes : List ℕ) → UnitFed state w.now uuid object unit (length bytes) bytes → result ≡ unit_checksum uuid object unit bytes }
{
    match state {
        Running::Register(c) => super::finish(c),
        Running::Window => super::finish(crc32c_window::register(t, w)),
    }
}
