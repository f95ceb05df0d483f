//! Bytes and numbers at the end of a text.
ghost use Rattle.std.specs.Prelude.{◌≡◌, ◌++◌, decimal, OnOk};

use itoa::Buffer;
use ng_bencode::Text;
use relay_outside::OutOfMemory;

/// Puts bytes after the text.
pub(crate) fn put(text: &mut Text, bytes: &[u8]) -> Result<(), OutOfMemory>
    ensures { OnOk result (text.new.list ≡ text.old.list ++ bytes.now) }
{
    let Ok(()) = text.reserve(bytes.len()) else {
        return Err(OutOfMemory);
    };
    text.extend(bytes);
    Ok(())
}

/// Puts a number in decimal after the text.
pub(crate) fn put_number(text: &mut Text, number: u32) -> Result<(), OutOfMemory>
    ensures { OnOk result (text.new.list ≡ text.old.list ++ decimal number) }
{
    let mut buffer = Buffer::new();
    put(text, buffer.format(number).as_bytes())
}
