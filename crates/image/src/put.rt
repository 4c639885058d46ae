// A rewritten unit's bytes put into its new blocks.
ghost use Rattle.std.specs.Prelude.{◌≡◌, ℕ, ◌+◌, ◌*◌, ◌≤◌, ◌<◌, length, get_or};
ghost use Rattle.rules.specs.Sizes.{block_bytes, unit_blocks};
ghost use Rattle.rules.specs.Bytes.{part};
ghost use Rattle.rules.specs.Finish.{write_block, write_new};
ghost use Rattle.mapping.specs.Entries.{entries};

use format::sizes::BLOCK_BYTES;

// The `i`-th block of `bytes` into a block of the image, zeros where there are no more bytes.
fn write_block(image: &mut [u8], block: u32, bytes: &[u8], i: usize)
    requires block_bytes_in_bounds { (block + 1) * block_bytes ≤ length image.old }
    requires i_lt_unit_blocks { i < unit_blocks }
    ensures { image.new ≡ write_block image.old block (part (i * block_bytes) block_bytes bytes.now) }
{
    let from = (i * BLOCK_BYTES).min(bytes.len());
    let n = BLOCK_BYTES.min(bytes.len() - from);
    let at = block as usize * BLOCK_BYTES;
    words::range::copy_part(image, at, bytes, from, n);
    words::range::zero(image, at + n, at + BLOCK_BYTES);
}

// A unit's new blocks written, each with zeros past the valid length. A block that is kept stays as it is.
pub fn write_new(image: &mut [u8], bytes: &[u8], kept: &[u32], blocks: &[u32])
    requires kept_len { length kept.now ≡ length blocks.now }
    requires blocks_len_bound { length blocks.now ≤ unit_blocks }
    requires by_index { (i : ℕ) → i < length blocks.now → (get_or blocks.now i 0 + 1) * block_bytes ≤ length image.old }
    ensures { image.new ≡ write_new bytes.now 0 (entries kept.now) blocks.now image.old }
{
    for (i, block) in blocks.iter().enumerate() {
        if kept[i] == 0 {
            write_block(image, *block, bytes, i);
        }
    }
}
