//! Logarithms and bit-reversed order.

use p3_field::laws::bit_reversal_law;
use p3_field::{log2_strict_usize, reverse_bits_len, reverse_slice_index_bits};

#[test]
fn takes_logarithms(rt: HostRuntime) {
    let greatest = log2_strict_usize(1 << 63);
    assert!(rt; log2_strict_usize(1) == 0 && log2_strict_usize(2) == 1 && greatest == 63);
}

/// Numbers, how many of their digits are reversed, and what that gives.
static REVERSED: [(usize, usize, usize); 6] = [
    (0b0, 0, 0b0),
    (0b1, 1, 0b1),
    (0b001, 3, 0b100),
    (0b011, 3, 0b110),
    // the fourth digit isn't read
    (0b1011, 3, 0b110),
    (0b1, 64, 1 << 63),
];

#[test]
fn reverses_digits(rt: HostRuntime) {
    for (index, digits, wanted) in &REVERSED {
        let right = *digits <= 64 && reverse_bits_len(*index, *digits) == *wanted;
        assert!(rt; right, "{digits} digits of {index}");
    }
}

#[test]
fn reverses_slices(rt: HostRuntime) {
    let mut one = [7u8];
    reverse_slice_index_bits(&mut one);

    let mut two = [7u64, 9];
    reverse_slice_index_bits(&mut two);

    let mut eight = [0u32, 1, 2, 3, 4, 5, 6, 7];
    reverse_slice_index_bits(&mut eight);

    assert!(rt; one == [7] && two == [7, 9] && eight == [0, 4, 2, 6, 1, 5, 3, 7]);
    bit_reversal_law::<u32>();
}
