use outside_real::read_seed;
use std::io;
use std::random::RandomSource;

/// A source that has no bytes.
struct Dry;

impl RandomSource for Dry {
    fn fill_bytes(&self, _buf: &mut [u8]) -> io::Result<()> {
        Err(io::Error::from(io::ErrorKind::Unsupported))
    }
}

#[test]
fn each_seed_is_another(rt: HostRuntime) {
    let (Ok(one), Ok(other)) = (read_seed(&rt), read_seed(&rt)) else {
        panic!(rt; "no seed");
    };
    assert!(rt; one != other);
    assert!(rt; read_seed(&Dry).is_err());
}
