ghost use Rattle.std.specs.Prelude.{ℕ, ◌≡◌, ◌+◌, ◌<◌, ◌≤◌, ◌^◌, ◌++◌, List, Some, length, take, drop};
ghost use Rattle.rtp_packet.specs.Head.{rtcp_ssrc};
ghost use Rattle.aes_ctr.specs.Keystream.{xored};
ghost use Rattle.srtp_sources.specs.Judged.{Writes};
ghost use Rattle.srtcp_context.specs.Packets.{rtcp_keystream, rtcp_code, is_rtcp_authentic, word_of, trailer, protect_rtcp, opened_srtcp, rtcp_ciphered};

use aes_ctr::Cipher;
use relay_outside::KeyAndSalt;
use rtp_packet::Half;
use srtp_keys::{MacKey, Session, derive, same_tags};
use srtp_sources::{load_keys, packet_counter, save_keys};

/// The bytes that stay clear: the first word and the sender's SSRC.
const CLEAR: usize = 8;

/// The bytes of the E bit and the index.
const TRAILER: usize = 4;

/// The bytes of the authentication tag, in both suites (RFC 4568 section 6.2).
const TAG: usize = 10;

/// The bytes that protecting adds.
const ADDED: usize = 14;

/// The E bit of the trailer, and one more than the greatest index.
const ENCIPHERED: u32 = 2_147_483_648;

/// The keys of an RTCP session (RFC 3711 section 4.3).
#[derive(Drop)]
pub(crate) struct RtcpSession {
    /// The cipher under the session's encryption key.
    cipher: Cipher,
    /// The key of the authentication tags.
    mac: MacKey,
    /// What the counters of packets begin from.
    salt: [u8; 14],
}

// The E bit and the index of a packet of at least 14 bytes.
pub(crate) fn read_word(bytes: &[u8]) -> u32
    requires { 14 ≤ length bytes.now }
    ensures { result ≡ word_of bytes.now }
{
    let start = bytes.len() - ADDED;
    let mut word = [0; 4];
    word.copy_from_slice(&bytes[start..start + TRAILER]);
    u32::from_be_bytes(word)
}

impl RtcpSession {
    ghost use Rattle.srtcp_context.specs.Sessions.{RtcpSessionFor};
    ghost use Rattle.srtcp_context.specs.SavedRtcp.{FitsRtcpSession, saved_rtcp_session};

    /// The session of a master key of 16 bytes with a master salt of 14 after it.
    pub(crate) fn new(master: &KeyAndSalt) -> RtcpSession
        ensures { RtcpSessionFor master.now result }
    {
        let Session { cipher, auth, salt } = derive(master, Half::Rtcp);
        RtcpSession {
            cipher,
            mac: MacKey::new(&auth),
            salt,
        }
    }

    /// The saved form.
    pub(crate) fn save(&self) -> [u8; 50]
        ensures fits { FitsRtcpSession self.now }
        ensures saved { result ≡ saved_rtcp_session self.now }
    {
        save_keys(&self.cipher, &self.mac, &self.salt)
    }

    /// The session of a saved form.
    pub(crate) fn load(bytes: &[u8; 50]) -> RtcpSession
        ensures fits { FitsRtcpSession result }
        ensures saved { saved_rtcp_session result ≡ bytes.now }
    {
        let Session { cipher, auth, salt } = load_keys(bytes);
        RtcpSession {
            cipher,
            mac: MacKey::new(&auth),
            salt,
        }
    }

    /// Enciphers or deciphers what stands after a packet's first 8 bytes.
    pub(crate) fn cipher(&self, payload: &mut [u8], ssrc: u32, index: u32)
        ensures { (master : List ℕ) → RtcpSessionFor master self.now → payload.new ≡ xored payload.old (rtcp_keystream master ssrc index (length payload.old)) }
    {
        let counter = packet_counter(&self.salt, ssrc, u64::from(index));
        self.cipher.apply(payload, counter);
    }

    /// The code of what is authenticated, of which the tag is the first bytes.
    pub(crate) fn code(&self, bytes: &[u8]) -> [u8; 20]
        requires { length bytes.now < 2 ^ 32 }
        ensures { (master : List ℕ) → RtcpSessionFor master self.now → result ≡ rtcp_code master bytes.now }
    {
        self.mac.tag(bytes, &[])
    }

    /// Whether the bytes end with the tag of what stands before it.
    pub(crate) fn is_authentic(&self, bytes: &[u8]) -> bool
        requires size { length bytes.now < 2 ^ 31 }
        requires tag { 10 ≤ length bytes.now }
        ensures { (master : List ℕ) → RtcpSessionFor master self.now → result ≡ is_rtcp_authentic master bytes.now }
    {
        let end = bytes.len() - TAG;
        let code = self.code(&bytes[..end]);
        same_tags(&bytes[end..], &code[..TAG])
    }

    /// Enciphers in place the packet in the buffer's first `len` bytes, and writes the E bit and the index after it.
    fn seal(&self, buf: &mut [u8], len: usize, ssrc: u32, index: u32)
        requires room { len + 14 ≤ length buf.old }
        requires clear { 8 ≤ len }
        requires index { index < 2 ^ 31 }
        ensures { (master : List ℕ) → RtcpSessionFor master self.now → buf.new ≡ (rtcp_ciphered master ssrc index (take len buf.old) ++ trailer index) ++ drop (len + 4) buf.old }
    {
        self.cipher(&mut buf[CLEAR..len], ssrc, index);
        let word = ENCIPHERED + index;
        buf[len..len + TRAILER].copy_from_slice(&word.to_be_bytes());
    }

    /// Protects in place the packet in the buffer's first `len` bytes, and returns its new length.
    pub(crate) fn wrap(&self, buf: &mut [u8], len: usize, ssrc: u32, index: u32) -> usize
        requires room { len + 14 ≤ length buf.old }
        requires size { len < 2 ^ 31 }
        requires head { rtcp_ssrc (take len buf.old) ≡ Some ssrc }
        requires clear { 8 ≤ len }
        requires index { index < 2 ^ 31 }
        ensures fits { result ≡ len + 14 }
        ensures writes { (master : List ℕ) → RtcpSessionFor master self.now → Writes (protect_rtcp master (take len buf.old) index) buf.old buf.new result }
    {
        self.seal(buf, len, ssrc, index);
        let end = len + TRAILER;
        let code = self.code(&buf[..end]);
        buf[end..end + TAG].copy_from_slice(&code[..TAG]);
        end + TAG
    }

    /// Opens in place the packet in the buffer's first `len` bytes, and returns the plain packet's length.
    pub(crate) fn open(&self, buf: &mut [u8], len: usize, ssrc: u32) -> usize
        requires held { len ≤ length buf.old }
        requires head { rtcp_ssrc (take len buf.old) ≡ Some ssrc }
        requires long { 22 ≤ len }
        ensures fits { result ≤ len }
        ensures head { rtcp_ssrc (take result buf.new) ≡ Some ssrc }
        ensures writes { (master : List ℕ) → RtcpSessionFor master self.now → Writes (opened_srtcp master (take len buf.old)) buf.old buf.new result }
    {
        let word = read_word(&buf[..len]);
        let end = len - ADDED;
        if word / ENCIPHERED == 1 {
            self.cipher(&mut buf[CLEAR..end], ssrc, word % ENCIPHERED);
        }
        end
    }
}
