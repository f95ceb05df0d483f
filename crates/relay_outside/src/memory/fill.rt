ghost use Rattle.std.specs.Prelude.{◌≡◌, ℕ, min, length, take, drop};

/// Copies to the front of the buffer as many of the bytes as it holds, and says how many.
pub(crate) fn fill(buf: &mut [u8], bytes: &[u8]) -> usize
    ensures count { result ≡ min (length bytes.now) (length buf.old) }
    ensures front { take result buf.new ≡ take result bytes.now }
    ensures rest { drop result buf.new ≡ drop result buf.old }
{
    let len = bytes.len().min(buf.len());
    buf[..len].copy_from_slice(&bytes[..len]);
    len
}
