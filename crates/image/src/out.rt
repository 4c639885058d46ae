// Bytes of a file's blocks handed out, zeros where a block is not mapped.
//
// They go from the image straight to the place where they are wanted, a piece at a time, each piece inside one block.
ghost use Rattle.std.specs.Prelude.{◌≡◌, ◌++◌, ◌+◌, ◌*◌, ◌≤◌, length, drop};
ghost use Rattle.rules.specs.Sizes.{block_bytes};
ghost use Rattle.rules.specs.Bytes.{part, patch};
ghost use Rattle.mapping.specs.Entries.{entry_of, entries, Inside};
ghost use Rattle.image.specs.Blocks.{block_or_zeros, blocks_bytes};

use format::sizes::BLOCK_BYTES;

// The `m` bytes from `place` on of the block that `entry` names, into `out` from `d` on.
fn put_piece(image: &[u8], entry: u32, place: usize, m: usize, out: &mut [u8], d: usize)
    requires m_bound { place + m ≤ block_bytes }
    requires block_bytes_in_bounds { entry * block_bytes ≤ length image.now }
    requires m_in_bounds { d + m ≤ length out.old }
    ensures { out.new ≡ patch out.old d (part place m (block_or_zeros image.now (entry_of entry))) }
{
    if entry == 0 {
        words::range::zero(out, d, d + m);
    } else {
        words::range::copy_part(out, d, image, (entry as usize - 1) * BLOCK_BYTES + place, m);
    }
}

// `n` bytes from the place `at` of the blocks' bytes, at the head of `out`. The rest of `out` stays.
pub fn hand_out(image: &[u8], blocks: &[u32], at: usize, n: usize, out: &mut [u8])
    requires n_bound { at + n ≤ block_bytes * length blocks.now }
    requires n_in_bounds { n ≤ length out.old }
    requires inside { Inside image.now blocks.now }
    ensures { out.new ≡ part at n (blocks_bytes image.now (entries blocks.now)) ++ drop n out.old }
{
    // `at` in two numbers, so that no sum with a place of `out` is too large
    let first = at / BLOCK_BYTES;
    let start = at % BLOCK_BYTES;
    let mut d: usize = 0;
    // Kept: a `while`, as a piece ends where its block does.
    while d < n {
        let place = (start + d) % BLOCK_BYTES;
        let m = (BLOCK_BYTES - place).min(n - d);
        put_piece(
            image,
            blocks[first + (start + d) / BLOCK_BYTES],
            place,
            m,
            out,
            d,
        );
        d += m;
    }
}
