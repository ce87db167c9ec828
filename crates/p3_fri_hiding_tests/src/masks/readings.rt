//! What stands between the rows of committed matrices and beside their columns.

use p3_field::{BabyBear, Field};
use p3_matrix::RowMajorMatrix;
use rand_chacha::ChaCha20Rng;
use rand_core::Rng;

/// A matrix that is masked, read on the coset of this shift and log size: its rows there, or each
/// second one from the first on, begin with the next numbers, so many to a row, and all else are
/// masks.
pub(crate) struct Masked {
    pub domain: (u64, usize),
    pub numbers: &'static [u64],
    pub width: usize,
    /// Whether a row of masks follows each row that begins with numbers.
    pub has_rows_between: bool,
    pub height: usize,
    /// How many columns there are, and how many of them don't only hide others.
    pub columns: usize,
    pub shown: usize,
}

/// What masks are.
pub(crate) enum Masks {
    /// The next words.
    Words,
    Zeros,
    /// Whatever they are, as all is behind the last of the numbers.
    Any,
}

/// Whether the columns that don't only hide others, and all columns, are so, with these masks.
pub(crate) fn is_masked(
    shown: &RowMajorMatrix<BabyBear>,
    whole: &RowMajorMatrix<BabyBear>,
    masked: &Masked,
    masks: &Masks,
    words: &mut ChaCha20Rng,
) -> bool {
    let mut is_masked = whole.height() == masked.height;
    is_masked &= whole.width() == masked.columns;
    is_masked &= shown.height() == masked.height;
    is_masked &= shown.width() == masked.shown;
    let mut numbers = masked.numbers.iter();
    for row in 0..whole.height() {
        let is_between = (row % 2 != 0) & masked.has_rows_between;
        let width = if is_between { 0 } else { masked.width };
        for column in 0..whole.width() {
            let number = if column < width { numbers.next() } else { None };
            let found = whole.get(row, column);
            let wanted = match number {
                Some(number) => Some(BabyBear::from_u64(*number)),
                None => match masks {
                    Masks::Words => Some(BabyBear::from_u64(words.next_u64() % 2_013_265_921)),
                    Masks::Zeros => Some(BabyBear::ZERO),
                    Masks::Any => found,
                },
            };
            is_masked &= found == wanted;
            is_masked &= (column >= masked.shown) | (shown.get(row, column) == wanted);
        }
    }
    is_masked & numbers.next().is_none()
}
