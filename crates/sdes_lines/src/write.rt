//! Writing a crypto line.

ghost use Rattle.std.specs.Prelude.{◌≡◌, ◌+◌, ◌++◌, ◌≤◌, length, take, drop};
ghost use Rattle.base64.specs.Engines.{standard};
ghost use Rattle.base64.specs.GeneralPurpose.{encode_of};
ghost use Rattle.sdes_lines.specs.CryptoLine.{IsTag, IsKey, IsUsable, line_text};
ghost use Rattle.sdes_lines.specs.declared.crypto_line.CryptoLine.{CryptoLine};

use crate::crypto_line::CryptoLine;
use base64::engine::general_purpose::STANDARD;
use itoa::Buffer;
use relay_outside::KeyAndSalt;

/// Writes a crypto line at the start of `out`, without a lifetime and without a line end, and
/// returns its length in bytes.
pub fn write_line(line: &CryptoLine, out: &mut [u8; 96]) -> usize
    requires { IsTag line.now.tag }
    ensures written { out.new ≡ line_text line.now.tag line.now.suite line.now.key ++ drop result out.old }
    ensures len { result ≡ length (line_text line.now.tag line.now.suite line.now.key) }
    ensures short { result ≤ 90 }
{
    let mut digits = Buffer::new();
    let end = put(out, 0, b"a=crypto:");
    let end = put(out, end, digits.format(line.tag).as_bytes());
    let end = put(out, end, b" ");
    let end = put(out, end, line.suite.name());
    let end = put(out, end, b" inline:");
    put(out, end, &encode_key(&line.key))
}

/// Writes `text` over the bytes of `out` from `start` on, and returns where it ends.
fn put(out: &mut [u8; 96], start: usize, text: &[u8]) -> usize
    requires { start + length text.now ≤ 96 }
    ensures end { result ≡ start + length text.now }
    ensures written { take result out.new ≡ take start out.old ++ text.now }
    ensures rest { drop result out.new ≡ drop result out.old }
{
    let end = start + text.len();
    out[start..end].copy_from_slice(text);
    end
}

/// The key in the standard base64, which needs no padding.
fn encode_key(key: &KeyAndSalt) -> [u8; 40]
    ensures { result ≡ encode_of standard key.now }
{
    let mut characters = [0; 40];
    let _ = STANDARD.encode_slice(key, &mut characters);
    characters
}

/// What `write_line` writes is usable again, with the same tag, suite and key.
pub fn written_line_is_usable()
    ensures { (line : CryptoLine) → IsTag line.tag → IsKey line.key
        → IsUsable (line_text line.tag line.suite line.key) line.tag line.suite line.key }
{}
