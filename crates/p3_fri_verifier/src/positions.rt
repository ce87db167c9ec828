//! The queries' positions.

ghost use Rattle.std.specs.Prelude.{◌≡◌, ◌+◌, ◌/◌, ◌^◌, ◌<◌, map};

/// The width of a query's index, in bits: a position's, and the extra bits below it.
pub(crate) fn index_bits(log_height: usize, extra_bits: usize) -> usize
    requires fits { log_height + extra_bits < 2 ^ 64 }
    ensures { result ≡ log_height + extra_bits }
{
    log_height + extra_bits
}

/// The positions of drawn indices: each without its lowest bits, which are for the folding
/// strategy's inputs alone.
pub(crate) fn positions_of(indices: Vec<usize>, extra_bits: usize) -> Vec<usize>
    requires small { extra_bits < 64 }
    ensures { result.items ≡ map (λ index. index / 2 ^ extra_bits) indices.items }
{
    let mut positions = indices;
    for k in 0..positions.len() {
        positions[k] >>= extra_bits;
    }
    positions
}
