//! A hasher that is fed elements one by one.

ghost use Rattle.std.specs.Prelude.{◌≡◌, ◌<◌, ◌≤◌, ◌+◌, ℕ, List, [], ◌∷◌, ◌++◌, length, take};
ghost use Rattle.sha2.specs.Sha256.{sha256};

use p3_field_core::ElementBytes;
use sha2::{Digest, Sha256};

/// The length of the buffer, in bytes: one block of SHA-256.
const BLOCK: usize = 64;

/// A SHA-256 hasher that gathers what it is fed into whole blocks.
#[derive(Drop)]
pub(super) struct BufferedHasher {
    hasher: Sha256,
    buffer: [u8; 64],
    filled: usize,
    ghost within: { filled ≤ 64 },
}

impl BufferedHasher {
    ghost use Rattle.p3_mmcs.specs.Buffer.{HoldsMessage};
    ghost use Rattle.p3_mmcs.specs.Tree.{row_bytes};

    /// A hasher that was fed nothing.
    pub(super) fn new() -> Self
        ensures { HoldsMessage result [] }
    {
        BufferedHasher {
            hasher: Sha256::new(),
            buffer: [0; 64],
            filled: 0,
        }
    }

    /// Hands the buffer over to the hasher where it is full.
    fn flush_if_full(&mut self)
        ensures room { self.new.filled < 64 }
        ensures message { (message : List ℕ) → HoldsMessage self.old message
            → HoldsMessage self.new message }
    {
        if self.filled == BLOCK {
            let block = self.buffer;
            self.hasher.update(block.as_slice());
            self.filled = 0;
        }
    }

    /// Feeds a byte.
    pub(super) fn push(&mut self, byte: u8)
        ensures { (message : List ℕ) → HoldsMessage self.old message
            → HoldsMessage self.new (message ++ byte ∷ []) }
    {
        self.flush_if_full();
        self.buffer[self.filled] = byte;
        self.filled += 1;
    }

    /// Feeds bytes.
    pub(super) fn push_bytes(&mut self, bytes: &[u8])
        ensures { (message : List ℕ) → HoldsMessage self.old message
            → HoldsMessage self.new (message ++ bytes.now) }
    {
        if bytes.len() <= BLOCK - self.filled {
            let end = self.filled + bytes.len();
            self.buffer[self.filled..end].copy_from_slice(bytes);
            self.filled = end;
        } else {
            for byte in bytes {
                self.push(*byte);
            }
        }
    }

    /// Feeds the bytes of an element.
    fn push_element<T: ElementBytes>(&mut self, element: T)
        ensures { (message : List ℕ) → HoldsMessage self.old message
            → HoldsMessage self.new (message ++ T.bytes element) }
    {
        if T::LEN <= BLOCK - self.filled {
            let end = self.filled + T::LEN;
            element.write_bytes(&mut self.buffer[self.filled..end]);
            self.filled = end;
        } else if T::LEN <= BLOCK {
            let mut encoding = [0; 64];
            element.write_bytes(&mut encoding[..T::LEN]);
            self.push_bytes(&encoding[..T::LEN]);
        } else {
            for index in 0..T::LEN {
                self.push(element.byte(index));
            }
        }
    }

    /// Feeds a row: its length in eight bytes, little endian, and the bytes of its elements.
    pub(super) fn push_row<T: ElementBytes>(&mut self, row: &[T])
        ensures { (message : List ℕ) → HoldsMessage self.old message
            → HoldsMessage self.new (message ++ row_bytes T.bytes row.now) }
    {
        self.push_bytes(&(row.len() as u64).to_le_bytes());
        for element in row {
            self.push_element(*element);
        }
    }

    /// The digest of what it was fed.
    pub(super) fn finalize(self) -> [u8; 32]
        ensures { (message : List ℕ) → HoldsMessage self message → result ≡ sha256 message }
    {
        let BufferedHasher {
            mut hasher,
            buffer,
            filled,
        } = self;
        hasher.update(&buffer[..filled]);
        hasher.finalize()
    }
}
