use std::io;
use std::random::RandomSource;

/// The seed of a run's keys, for `ChaChaKeys::from_seed`: 32 bytes of the runtime's random source. An error is the source's own,
/// and the run then has no keys.
pub fn read_seed(random: &impl RandomSource) -> io::Result<[u8; 32]> {
    let mut seed = [0; 32];
    random.fill_bytes(&mut seed)?;
    Ok(seed)
}
