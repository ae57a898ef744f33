//! Bytes from the machine's random source.

use std::io;
use std::random::RandomSource;

/// The seed of a generator.
pub fn draw_seed(rt: &impl RandomSource) -> io::Result<[u8; 32]> {
    let mut seed = [0; 32];
    rt.fill_bytes(&mut seed)?;
    Ok(seed)
}
