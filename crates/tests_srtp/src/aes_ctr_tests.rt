// Vectors of FIPS 197 and RFC 3711, and the keystream at lengths round a block.

use crate::cases::none_failed;
use aes_ctr::Cipher;

/// Session key and counters of RFC 3711, appendix B.2.
const RFC_KEY: u128 = 0x2b7e1516_28aed2a6_abf71588_09cf4f3c;

const RFC_COUNTER: u128 = 0xf0f1f2f3_f4f5f6f7_f8f9fafb_fcfd0000;

fn enciphered(key: u128, input: u128) -> u128 {
    u128::from_be_bytes(Cipher::new(key.to_be_bytes()).block(input.to_be_bytes()))
}

#[test]
fn blocks_are_those_of_the_standard(rt: HostRuntime) {
    // FIPS 197, appendix B
    let block = enciphered(RFC_KEY, 0x3243f6a8_885a308d_313198a2_e0370734);
    assert!(rt; block == 0x3925841d_02dc09fb_dc118597_196a0b32);
    // FIPS 197, appendix C.1
    let block = enciphered(
        0x00010203_04050607_08090a0b_0c0d0e0f,
        0x00112233_44556677_8899aabb_ccddeeff,
    );
    assert!(rt; block == 0x69c4e0d8_6a7b0430_d8cdb780_70b4c55a);
}

fn is_block(bytes: &[u8], word: u128) -> bool {
    bytes == word.to_be_bytes().as_slice()
}

/// Whether this is the keystream of the RFC's key, from a counter so far after the RFC's first.
fn has_keystream(counter: u128, words: &[u128; 3]) -> bool {
    let mut bytes = [0u8; 48];
    Cipher::new(RFC_KEY.to_be_bytes()).apply(&mut bytes, RFC_COUNTER.wrapping_add(counter));
    is_block(&bytes[..16], words[0])
        && is_block(&bytes[16..32], words[1])
        && is_block(&bytes[32..], words[2])
}

#[test]
fn keystream_is_that_of_rfc_3711(rt: HostRuntime) {
    let first = [
        0xe03ead09_35c95e80_e166b16d_d92b4eb4,
        0xd2351316_2b02d0f7_2a43a2fe_4a5f97ab,
        0x41e95b3b_b0a2e8dd_477901e4_fca894c0,
    ];
    assert!(rt; has_keystream(0, &first));
    let last = [
        0xec8cdf73_98607cb0_f2d21675_ea9ea1e4,
        0x362b7c3c_67735163_18a077d7_fc5073ae,
        0x6a2cc378_7889374f_beb4c81b_17ba6c44,
    ];
    assert!(rt; has_keystream(0xfeff, &last));
}

/// Whether each byte is changed by the byte of its block, and changed back.
fn are_changed_by_their_blocks(bytes: &mut [u8]) -> bool {
    let cipher = Cipher::new(RFC_KEY.to_be_bytes());
    cipher.apply(bytes, RFC_COUNTER);
    for (i, byte) in bytes.iter().enumerate() {
        let block = cipher.block(RFC_COUNTER.wrapping_add((i / 16) as u128).to_be_bytes());
        if *byte != block[i % 16] ^ 0x5a {
            return false;
        }
    }
    cipher.apply(bytes, RFC_COUNTER);
    bytes.iter().all(|byte| *byte == 0x5a)
}

/// The first of these lengths at which a byte is changed otherwise.
fn other_length(lengths: &[usize]) -> Option<usize> {
    for length in lengths {
        let mut bytes = [0x5au8; 1000];
        if *length > 1000 || !are_changed_by_their_blocks(&mut bytes[..*length]) {
            return Some(*length);
        }
    }
    None
}

#[test]
fn apply_changes_each_byte_by_its_block(rt: HostRuntime) {
    none_failed(&rt, "the lengths", other_length(&[0, 1, 15, 16, 17, 1000]));
}

#[test]
fn counters_go_round(rt: HostRuntime) {
    let cipher = Cipher::new(RFC_KEY.to_be_bytes());
    let mut bytes = [0u8; 32];
    cipher.apply(&mut bytes, u128::MAX);
    // E(key, 0), by OpenSSL
    assert!(rt; is_block(&bytes[16..], 0x7df76b0c_1ab899b3_3e42f047_b91b546f));
    let mut nothing: [u8; 0] = [];
    cipher.apply(&mut nothing, u128::MAX);
    assert!(rt; nothing.len() == 0);
}
