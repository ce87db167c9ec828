//! Indices of lists whose length is a power of two: its logarithm, and bit-reversed order.
ghost use Rattle.std.specs.Prelude.{◌≡◌, ℕ, ◌+◌, ◌*◌, ◌^◌, ◌<◌, ◌≤◌, length};
ghost use Rattle.std.specs.Int.{IsPowerOfTwo};
ghost use Rattle.algebra.specs.Digits.{rev};
ghost use Rattle.p3_field_core.specs.Index.{bit_reversed, exchanged};

/// The base-2 logarithm of `n`, a power of two: `usize::is_power_of_two` is the test.
pub fn log2_strict_usize(n: usize) -> usize
    requires power_of_two { IsPowerOfTwo n }
    ensures power { 2 ^ result ≡ n }
    ensures bound { result < 64 }
{
    n.trailing_zeros() as usize
}

/// Each two neighbours of `width` digits in exchanged places, where `lower` has ones at the lower
/// of each two.
fn exchange_neighbors(x: usize, width: u32, lower: usize) -> usize
    requires width { width < 64 }
    requires fits { lower * 2 ^ width + lower < 2 ^ 64 }
    ensures { result ≡ exchanged width lower x }
{
    ((x & lower) << width) + ((x >> width) & lower)
}

/// All 64 digits in reverse order: single ones change places, then pairs, up to halves.
fn reverse_bits(x: usize) -> usize
    ensures { result ≡ rev 64 x }
{
    let pairs = exchange_neighbors(x, 1, 0x5555_5555_5555_5555);
    let fours = exchange_neighbors(pairs, 2, 0x3333_3333_3333_3333);
    let bytes = exchange_neighbors(fours, 4, 0x0f0f_0f0f_0f0f_0f0f);
    let words = exchange_neighbors(bytes, 8, 0x00ff_00ff_00ff_00ff);
    let halves = exchange_neighbors(words, 16, 0x0000_ffff_0000_ffff);
    exchange_neighbors(halves, 32, 0x0000_0000_ffff_ffff)
}

/// The number whose `bit_len` binary digits are the lowest `bit_len` of `x` in reverse order, for a
/// `bit_len` up to
/// 64. The digits of `x` above them aren't read.
pub fn reverse_bits_len(x: usize, bit_len: usize) -> usize
    requires bit_len { bit_len ≤ 64 }
    ensures { result ≡ rev bit_len x }
{
    if bit_len == 0 {
        0
    } else {
        reverse_bits(x) >> (64 - bit_len)
    }
}

/// Puts the `2^k` entries of `vals` into bit-reversed order, in place: the new entry `i` is the old
/// one at the index whose `k` binary digits are those of `i` in reverse order. A second call puts
/// them back.
pub fn reverse_slice_index_bits<F>(vals: &mut [F])
    requires power_of_two { IsPowerOfTwo (length vals.old) }
    ensures { (k : ℕ) → length vals.old ≡ 2 ^ k → vals.new ≡ bit_reversed k vals.old }
{
    let len = vals.len();
    let mut j = 0;
    for i in 1..len {
        // `j` is `i` with its digits reversed. Counting up flips the digits through the lowest 1 of
        // `i`: in `j` they are the highest. So no index is reversed anew.
        j ^= len - (len >> (i.trailing_zeros() + 1));
        if i < j {
            vals.swap(i, j);
        }
    }
}
