// The bits of one map cleared where they are set in another. A map is of whole words here.
ghost use Rattle.std.specs.Prelude.{◌≡◌, length};
ghost use Rattle.rules.specs.Bytes.{bit_bytes};
ghost use Rattle.bitmap_pairs.specs.Pair.{SameWords, only};

// The bits of `m` that are set in `x` cleared.
pub fn clear_where(m: &mut [u8], x: &[u8])
    requires { SameWords m.old x.now }
    ensures { m.new ≡ bit_bytes (length m.old) (only m.old x.now) 0 }
{
    for (i, b) in m.iter_mut().enumerate() {
        *b &= !x[i];
    }
}
