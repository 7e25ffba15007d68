//! The bytes behind the window.
ghost use Rattle.std.specs.Prelude.{◌≡◌, IfOk, vec_len};

use std::alloc::{AllocError, Global};
use word::ram;
use word::ram::Width;

/// RAM of 2 MiB, all zero.
pub fn zeros(alloc: Global) -> Result<Vec<u8>, AllocError>
    ensures { IfOk result (λ ram. vec_len ram ≡ 2097152) }
{
    vec![in alloc; 0u8; 0x20_0000]
}

/// Another agent's write of eight bytes: those outside the window are dropped.
pub fn poke(base: u64, ram: &mut [u8], addr: u64, value: u64) {
    for (i, byte) in (0..8u64).zip(value.to_le_bytes()) {
        if let Some(addr) = addr.checked_add(i) {
            ram::write(base, ram, Width::Byte, addr, u64::from(byte));
        }
    }
}
