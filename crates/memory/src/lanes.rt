// The four bytes of a word, and taking some of them from another.
ghost use Rattle.std.specs.Prelude.{◌≡◌, ◌/◌, ◌%◌, ◌^◌, ◌<◌, if◌then◌else◌, nat_eq, slice_index};
ghost use Rattle.memory.specs.Lanes.{merged};

use std::array::from_fn;

/// `old` with the bytes that bits 0 to 3 of `lanes` name taken from `new`.
pub fn merge(old: u32, new: u32, lanes: u32) -> u32
    ensures { result ≡ merged old new lanes }
{
    let old = old.to_le_bytes();
    let new = new.to_le_bytes();
    u32::from_le_bytes(from_fn(|k| byte_of(old, new, lanes, k)))
}

// Byte `k` of `new` if the lanes name it, otherwise of `old`.
fn byte_of(old: [u8; 4], new: [u8; 4], lanes: u32, k: usize) -> u8
    requires { k < 4 }
    ensures { result ≡ slice_index (if nat_eq (lanes / 2 ^ k % 2) 1 then new else old) k }
{
    if (lanes >> k) % 2 == 1 {
        new[k]
    } else {
        old[k]
    }
}
