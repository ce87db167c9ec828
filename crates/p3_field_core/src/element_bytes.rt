//! Elements as bytes, for hashing.

ghost use Rattle.std.specs.Prelude.{◌≡◌, ◌<◌, ℕ, List, length, slice_index};

/// A type whose values have an encoding as bytes, of one length, which no two values share.
pub trait ElementBytes: Copy {
    ghost LEN: { ℕ };

    /// The length of the encoding, in bytes.
    const LEN: usize;

    ghost bytes: { Self → List ℕ };

    /// The byte of the encoding at `index`.
    fn byte(self, index: usize) -> u8
        requires below_len { index < LEN }
        ensures { result ≡ slice_index (bytes self) index };

    /// Writes the encoding over `out`, which has its length.
    fn write_bytes(self, out: &mut [u8])
        requires len { length out.old ≡ LEN }
        ensures { out.new ≡ bytes self };

    ghost bytes_length: { (x : Self) → length (bytes x) ≡ LEN };

    ghost bytes_injective: { (x y : Self) → bytes x ≡ bytes y → x ≡ y };
}
