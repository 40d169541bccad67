//! What tells long texts apart: their length, the sum of their bytes, and a number into which each byte is mixed by
//! its place.

use std::alloc::{AllocError, Global};

const MULTIPLIER: u64 = 31;

const MODULUS: u64 = 4_294_967_296;

/// The length of bytes, their sum modulo 2^32, and their polynomial of 31 modulo 2^32, the first byte highest.
pub fn mixed(alloc: Global, bytes: &[u8]) -> Result<Vec<u64>, AllocError> {
    let mut sum = 0;
    let mut mix = 0;
    for byte in bytes {
        sum = added(sum, *byte);
        mix = added(times(mix), *byte);
    }
    Ok(vec![in alloc; bytes.len() as u64, sum, mix]?)
}

fn times(number: u64) -> u64 {
    number % MODULUS * MULTIPLIER
}

fn added(number: u64, byte: u8) -> u64 {
    (number % MODULUS + u64::from(byte)) % MODULUS
}
