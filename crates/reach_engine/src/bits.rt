//! Bits in words of 64.

ghost use Rattle.std.specs.Prelude.{◌≡◌, ◌≢◌, ℕ, ◌+◌, ◌*◌, ◌<◌, ◌≤◌, ◌↔◌, IsTrue, IsFalse, min, max, sum, length};
ghost use Rattle.reach_engine.specs.inner.Bits.{bit_in};

/// Whether bit k is set.
pub fn has_bit(words: &[u64], k: usize) -> bool
    requires { k < 64 * length words.now }
    ensures { IsTrue result ↔ (bit_in words.now k ≡ 1) }
{
    (words[k / 64] >> (k % 64)) & 1 == 1
}

/// Sets bit k.
pub fn set_bit(words: &mut [u64], k: usize)
    requires { k < 64 * length words.old }
    ensures same { bit_in words.new k ≡ 1 }
    ensures others { (j : ℕ) → j ≢ k → bit_in words.new j ≡ bit_in words.old j }
{
    words[k / 64] |= 1 << (k % 64);
}

/// Clears bit k.
pub fn clear_bit(words: &mut [u64], k: usize)
    requires { k < 64 * length words.old }
    ensures same { bit_in words.new k ≡ 0 }
    ensures others { (j : ℕ) → j ≢ k → bit_in words.new j ≡ bit_in words.old j }
{
    words[k / 64] &= !(1 << (k % 64));
}

/// Sets each bit of the bundle in the rows, from a word on, and tells whether one was new.
pub fn merge(rows: &mut [u64], offset: usize, bundle: &[u64]) -> bool
    requires { offset + length bundle.now ≤ length rows.old }
    ensures inside { (k : ℕ) → k < 64 * length bundle.now → bit_in rows.new (64 * offset + k) ≡ max (bit_in rows.old (64 * offset + k)) (bit_in bundle.now k) }
    ensures below { (k : ℕ) → k < 64 * offset → bit_in rows.new k ≡ bit_in rows.old k }
    ensures above { (k : ℕ) → 64 * (offset + length bundle.now) ≤ k → bit_in rows.new k ≡ bit_in rows.old k }
    ensures none { IsFalse result → rows.new ≡ rows.old }
    ensures some { IsTrue result → sum rows.old < sum rows.new }
{
    let mut is_new = false;
    for i in 0..bundle.len() {
        let old = rows[offset + i];
        let word = old | bundle[i];
        if word != old {
            is_new = true;
        }
        rows[offset + i] = word;
    }
    is_new
}

/// Sets in the words, from a word on, each bit that the source and the mask have.
pub fn merge_masked(words: &mut [u64], offset: usize, source: &[u64], mask: &[u64])
    requires fits { offset + length source.now ≤ length words.old }
    requires size { length mask.now ≡ length source.now }
    ensures inside { (k : ℕ) → k < 64 * length source.now
        → bit_in words.new (64 * offset + k) ≡ max (bit_in words.old (64 * offset + k)) (min (bit_in source.now k) (bit_in mask.now k)) }
    ensures below { (k : ℕ) → k < 64 * offset → bit_in words.new k ≡ bit_in words.old k }
    ensures above { (k : ℕ) → 64 * (offset + length source.now) ≤ k → bit_in words.new k ≡ bit_in words.old k }
{
    for i in 0..source.len() {
        words[offset + i] |= source[i] & mask[i];
    }
}

/// Sets each bit of some words.
pub fn set_words(words: &mut [u64], offset: usize, count: usize)
    requires { offset + count ≤ length words.old }
    ensures inside { (k : ℕ) → k < 64 * count → bit_in words.new (64 * offset + k) ≡ 1 }
    ensures below { (k : ℕ) → k < 64 * offset → bit_in words.new k ≡ bit_in words.old k }
    ensures above { (k : ℕ) → 64 * (offset + count) ≤ k → bit_in words.new k ≡ bit_in words.old k }
{
    for i in 0..count {
        words[offset + i] = u64::MAX;
    }
}
