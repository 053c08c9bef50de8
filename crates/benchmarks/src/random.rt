//! Pseudo-random bytes.

ghost use Rattle.std.specs.Prelude.{◌≡◌, IfOk, vec_len};

use std::alloc::{AllocError, Global};

/// `len` bytes by xorshift, different for each seed.
pub fn random_bytes(alloc: Global, len: usize, seed: u64) -> Result<Vec<u8>, AllocError>
    ensures { IfOk result (λ bytes. vec_len bytes ≡ len) }
{
    let mut bytes = vec![in alloc; 0u8; len]?;
    let mut state = 0x9e37_79b9_7f4a_7c15 ^ seed;
    for byte in bytes.iter_mut() {
        state ^= state << 13;
        state ^= state >> 7;
        state ^= state << 17;
        *byte = state.to_le_bytes()[7];
    }
    Ok(bytes)
}
