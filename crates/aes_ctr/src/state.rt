// A state of 4 rows and 4 columns of bytes (FIPS 197, section 3.4) in four numbers, one for each column, with the first row's
// byte the highest, and the transformations of section 5.1 on it.

ghost use Rattle.std.specs.Prelude.{◌≡◌, ◌/◌, ◌%◌, ◌^◌};
ghost use Rattle.std.specs.Int.{w128, to_be_bytes};
ghost use Rattle.aes_ctr.specs.Aes.{sub_byte, sub_bytes, shift_rows, mix_columns, add_round_key};
ghost use Rattle.aes_ctr.specs.Columns.{byte_in, word_bytes, column_bytes};
ghost use Rattle.std.specs.Prelude.{[], ◌∷◌};

use crate::substitution::substitute;
use crate::tables::mixed_column;

/// The bits of one column in a number.
const LOW: u128 = 0xffff_ffff;

/// The column of four bytes, the first row's first.
pub(crate) fn column(a: u8, b: u8, c: u8, d: u8) -> u32
    ensures { word_bytes result ≡ a ∷ b ∷ c ∷ d ∷ [] }
{
    u32::from_be_bytes([a, b, c, d])
}

/// The columns of a state.
pub(crate) fn columns(s: [u8; 16]) -> [u32; 4]
    ensures { column_bytes result ≡ s }
{
    [
        column(s[0], s[1], s[2], s[3]),
        column(s[4], s[5], s[6], s[7]),
        column(s[8], s[9], s[10], s[11]),
        column(s[12], s[13], s[14], s[15]),
    ]
}

/// The state that these columns hold.
pub(crate) fn state(columns: [u32; 4]) -> [u8; 16]
    ensures { result ≡ column_bytes columns }
{
    let a = columns[0].to_be_bytes();
    let b = columns[1].to_be_bytes();
    let c = columns[2].to_be_bytes();
    let d = columns[3].to_be_bytes();
    [
        a[0], a[1], a[2], a[3], //
        b[0], b[1], b[2], b[3], //
        c[0], c[1], c[2], c[3], //
        d[0], d[1], d[2], d[3],
    ]
}

/// The columns of the state whose bytes are those of this number, the highest first.
pub(crate) fn parted(number: u128) -> [u32; 4]
    ensures { column_bytes result ≡ to_be_bytes w128 number }
{
    [
        (number >> 96) as u32,
        ((number >> 64) & LOW) as u32,
        ((number >> 32) & LOW) as u32,
        (number & LOW) as u32,
    ]
}

/// Two columns in one number, the first the higher.
fn pair(first: u32, second: u32) -> u64
    ensures high { result / 2 ^ 32 ≡ first }
    ensures low { result % 2 ^ 32 ≡ second }
{
    u64::from(first) * 4_294_967_296 + u64::from(second)
}

/// The number whose bytes, the highest first, are those of the state that these columns hold.
pub(crate) fn joined(columns: [u32; 4]) -> u128
    ensures { to_be_bytes w128 result ≡ column_bytes columns }
{
    let high = pair(columns[0], columns[1]);
    let low = pair(columns[2], columns[3]);
    u128::from(high) * 18_446_744_073_709_551_616 + u128::from(low)
}

/// SubBytes, ShiftRows and MixColumns (sections 5.1.1 to 5.1.3).
pub(crate) fn mixed(s: [u32; 4]) -> [u32; 4]
    ensures { column_bytes result ≡ mix_columns (shift_rows (sub_bytes (column_bytes s))) }
{
    [
        mixed_column(s[0], s[1], s[2], s[3]),
        mixed_column(s[1], s[2], s[3], s[0]),
        mixed_column(s[2], s[3], s[0], s[1]),
        mixed_column(s[3], s[0], s[1], s[2]),
    ]
}

/// A column after SubBytes, from those that ShiftRows takes its four bytes of, the first row's first.
fn substituted_column(a: u32, b: u32, c: u32, d: u32) -> u32
    ensures { word_bytes result ≡ sub_byte (byte_in 0 a) ∷ sub_byte (byte_in 1 b) ∷ sub_byte (byte_in 2 c) ∷ sub_byte (byte_in 3 d) ∷ [] }
{
    column(
        substitute((a >> 24) as u8),
        substitute(((b >> 16) & 0xff) as u8),
        substitute(((c >> 8) & 0xff) as u8),
        substitute((d & 0xff) as u8),
    )
}

/// SubBytes and ShiftRows (sections 5.1.1 and 5.1.2).
pub(crate) fn substituted(s: [u32; 4]) -> [u32; 4]
    ensures { column_bytes result ≡ shift_rows (sub_bytes (column_bytes s)) }
{
    [
        substituted_column(s[0], s[1], s[2], s[3]),
        substituted_column(s[1], s[2], s[3], s[0]),
        substituted_column(s[2], s[3], s[0], s[1]),
        substituted_column(s[3], s[0], s[1], s[2]),
    ]
}

/// AddRoundKey (section 5.1.4).
pub(crate) fn add_round_key(s: [u32; 4], key: [u32; 4]) -> [u32; 4]
    ensures { column_bytes result ≡ add_round_key (column_bytes s) (column_bytes key) }
{
    [s[0] ^ key[0], s[1] ^ key[1], s[2] ^ key[2], s[3] ^ key[3]]
}
