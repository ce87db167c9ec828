//! Encodings of elements as bytes.

use p3_field::ElementBytes;

/// Whether the encoding is of these bytes, one by one.
pub(crate) fn has_bytes<T: ElementBytes>(value: T, wanted: &[u8]) -> bool {
    if wanted.len() != T::LEN {
        return false;
    }
    for (index, byte) in wanted.iter().enumerate() {
        if value.byte(index) != *byte {
            return false;
        }
    }
    true
}

/// Whether an encoding of at most 16 bytes that is written over others is of these.
pub(crate) fn writes_bytes<T: ElementBytes>(value: T, wanted: &[u8]) -> bool {
    if wanted.len() != T::LEN || T::LEN > 16 {
        return false;
    }
    let mut bytes = [9; 16];
    value.write_bytes(&mut bytes[..T::LEN]);
    let written: &[u8] = &bytes[..T::LEN];
    written == wanted
}
