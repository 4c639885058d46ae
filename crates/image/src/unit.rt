// The bytes that a rewritten unit gets: the caller's own where the write covers the unit, and otherwise the assembled unit.
ghost use Rattle.std.specs.Prelude.{◌≡◌, true, false, ◌+◌, ◌≤◌, length, take};
ghost use Rattle.rules.specs.Lists.{pick◌then◌else◌};
ghost use Rattle.rules.specs.Sizes.{unit_blocks, unit_bytes};
ghost use Rattle.rules.specs.Bytes.{part, patch, padded};
ghost use Rattle.mapping.specs.Entries.{entries, Inside};
ghost use Rattle.image.specs.Blocks.{blocks_bytes};

// The assembled unit at the head of `buffer`: the `held` bytes of the old valid length out of the old blocks, zeros up to `valid`, the
// new one, and over them the caller's part from `at` on.
pub fn assemble(
    image: &[u8],
    old: &[u32],
    held: usize,
    valid: usize,
    at: usize,
    written: &[u8],
    buffer: &mut [u8],
)
    requires buffer_len { length buffer.old ≡ unit_bytes }
    requires len { length old.now ≡ unit_blocks }
    requires held_le_valid { held ≤ valid }
    requires valid_le_unit_bytes { valid ≤ unit_bytes }
    requires written_bound { at + length written.now ≤ valid }
    requires inside { Inside image.now old.now }
    ensures { take valid buffer.new ≡ patch (padded valid (take held (blocks_bytes image.now (entries old.now)))) at written.now }
{
    crate::out::hand_out(image, old, 0, held, buffer);
    words::range::zero(buffer, held, valid);
    words::range::copy(buffer, at, written);
}

// The bytes that are checksummed and written: where the write covers the unit, the `n` of the caller's bytes from `from` on, and
// otherwise the first `n` of the assembled unit.
pub fn unit_bytes<'a>(
    bytes: &'a [u8],
    assembled: &'a [u8],
    covered: bool,
    from: usize,
    n: usize,
) -> &'a [u8]
    requires n_in_bounds { covered ≡ true → from + n ≤ length bytes.now }
    requires n_in_bounds_2 { covered ≡ false → n ≤ length assembled.now }
    ensures { result.now ≡ (pick covered then part from n bytes.now else take n assembled.now) }
{
    if covered {
        &bytes[from..from + n]
    } else {
        &assembled[..n]
    }
}
