//! What the tables of a run hash with.
use std::hash::RandomState;
use std::io;
use std::random::RandomSource;

/// Bytes that are the same in each run.
#[derive(Drop)]
struct SameBytes;

impl RandomSource for SameBytes {
    fn fill_bytes(&self, buf: &mut [u8]) -> io::Result<()> {
        buf.fill(0);
        Ok(())
    }
}

/// Returns a seed that no log can know. If the system has no random bytes, the seed is the same in each run; that
/// only costs time: no result depends on it. So there is no error.
pub fn seed_of<R: RandomSource>(rt: &R) -> io::Result<RandomState> {
    match RandomState::new(rt) {
        Ok(seed) => Ok(seed),
        Err(_) => RandomState::new(&SameBytes),
    }
}
