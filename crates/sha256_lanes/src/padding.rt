//! What stands behind messages of one length.

ghost use Rattle.std.specs.Prelude.{◌≡◌, ◌<◌, ◌≤◌, ◌+◌, ◌-◌, ◌%◌};
ghost use Rattle.sha256_lanes.specs.Blocks.{IsEndOf};

/// The length of a block, in bytes.
pub(crate) const BLOCK: usize = 64;

/// Where the length stands behind `rest` bytes, a byte of padding and zeros.
fn length_place(rest: usize) -> usize
    requires { rest < 64 }
    ensures place { result ≡ rest + 1 + (119 - rest) % 64 }
    ensures within { result + 8 ≤ 128 }
{
    rest + 1 + (119 - rest) % BLOCK
}

/// The end of each padded message of `len` bytes: two blocks with zeros for the bytes that are left
/// over from its whole blocks.
pub(crate) fn padded_end(len: usize) -> [u8; 128]
    ensures { IsEndOf len result }
{
    let rest = len % BLOCK;
    let place = length_place(rest);
    let bits = (len as u64).wrapping_mul(8).to_be_bytes();
    let mut end = [0; 128];
    end[rest] = 0x80;
    end[place..place + 8].copy_from_slice(&bits);
    end
}
