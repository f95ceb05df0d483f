ghost use Rattle.std.specs.Prelude.{ℕ, ◌≡◌, ◌+◌, ◌/◌, ◌<◌, ◌≤◌, ◌^◌, ◌++◌, List, Some, length, take};
ghost use Rattle.sdes_lines.specs.declared.crypto_line.Suite.{Suite};
ghost use Rattle.aes_ctr.specs.Keystream.{xored};
ghost use Rattle.srtp_sources.specs.Judged.{Writes};
ghost use Rattle.srtp_context.specs.Packets.{tag_size, packet_keystream, rtp_code, is_authentic, protect, opened};
ghost use Rattle.rtp_packet.specs.Head.{rtp_head};

use aes_ctr::Cipher;
use relay_outside::KeyAndSalt;
use rtp_packet::{Half, RtpHead};
use sdes_lines::Suite;
use srtp_keys::{MacKey, Session, derive, same_tags};
use srtp_sources::{load_keys, packet_counter, part_at, put_part, save_keys};

/// How many bytes a suite's authentication tag has (RFC 3711 section 4.2, RFC 4568 section 6.2).
pub(crate) fn tag_size(suite: Suite) -> usize
    ensures { result ≡ tag_size suite }
{
    match suite {
        Suite::Tag80 => 10,
        Suite::Tag32 => 4,
    }
}

ghost use Rattle.std.specs.Prelude.{IfSome, IfNone};

// The suite whose authentication tag has this many bytes.
fn suite_of(size: u8) -> Option<Suite>
    ensures some { IfSome result (λ suite. tag_size suite ≡ size) }
    ensures none { IfNone result ((suite : Suite) → tag_size suite ≡ size → ⊥) }
{
    match size {
        10 => Some(Suite::Tag80),
        4 => Some(Suite::Tag32),
        _ => None,
    }
}

/// The keys of an RTP session (RFC 3711 section 4.3).
#[derive(Drop)]
pub(crate) struct RtpSession {
    /// The cipher under the session's encryption key.
    cipher: Cipher,
    /// The key of the authentication tags.
    mac: MacKey,
    /// What the counters of packets begin from.
    salt: [u8; 14],
    /// The suite, which sets the length of the tag.
    pub(crate) suite: Suite,
}

impl RtpSession {
    ghost use Rattle.srtp_context.specs.Sessions.{SessionFor};
    ghost use Rattle.srtp_context.specs.declared.session.RtpSession.{RtpSession};
    ghost use Rattle.srtp_context.specs.SavedRtp.{FitsSession, saved_session};

    /// The session of a master key of 16 bytes with a master salt of 14 after it.
    pub(crate) fn new(master: &KeyAndSalt, suite: Suite) -> RtpSession
        ensures { SessionFor master.now suite result }
    {
        let Session { cipher, auth, salt } = derive(master, Half::Rtp);
        RtpSession {
            cipher,
            mac: MacKey::new(&auth),
            salt,
            suite,
        }
    }

    /// The saved form.
    pub(crate) fn save(&self) -> [u8; 51]
        ensures fits { FitsSession self.now }
        ensures saved { result ≡ saved_session self.now }
    {
        let mut bytes = [0; 51];
        put_part(
            &mut bytes,
            0,
            &save_keys(&self.cipher, &self.mac, &self.salt),
        );
        put_part(&mut bytes, 50, &[tag_size(self.suite) as u8]);
        bytes
    }

    /// The session of a saved form; None where it is that of no session.
    pub(crate) fn load(bytes: &[u8; 51]) -> Option<RtpSession>
        ensures some { IfSome result (λ session. FitsSession session × (saved_session session ≡ bytes.now)) }
        ensures none { IfNone result ((session : RtpSession) → FitsSession session → saved_session session ≡ bytes.now → ⊥) }
    {
        let suite = suite_of(bytes[50])?;
        let Session { cipher, auth, salt } = load_keys(&part_at(bytes, 0));
        Some(RtpSession {
            cipher,
            mac: MacKey::new(&auth),
            salt,
            suite,
        })
    }

    /// Enciphers or deciphers what stands after a packet's head.
    pub(crate) fn cipher(&self, payload: &mut [u8], ssrc: u32, index: u64)
        requires { index < 2 ^ 48 }
        ensures { (master : List ℕ) (suite : Suite) → SessionFor master suite self.now → payload.new ≡ xored payload.old (packet_keystream master ssrc index (length payload.old)) }
    {
        let counter = packet_counter(&self.salt, ssrc, index);
        self.cipher.apply(payload, counter);
    }

    /// The code of a packet, of which the tag is the first bytes.
    pub(crate) fn code(&self, packet: &[u8], index: u64) -> [u8; 20]
        requires size { length packet.now < 2 ^ 31 }
        requires index { index < 2 ^ 48 }
        ensures { (master : List ℕ) (suite : Suite) → SessionFor master suite self.now → result ≡ rtp_code master packet.now index }
    {
        let rollover = (index / 65_536) as u32;
        self.mac.tag(packet, &rollover.to_be_bytes())
    }

    /// Whether the bytes end with the tag of what stands before it.
    pub(crate) fn is_authentic(&self, bytes: &[u8], index: u64) -> bool
        requires size { length bytes.now < 2 ^ 31 }
        requires tag { tag_size self.now.suite ≤ length bytes.now }
        requires index { index < 2 ^ 48 }
        ensures { (master : List ℕ) (suite : Suite) → SessionFor master suite self.now → result ≡ is_authentic master suite bytes.now index }
    {
        let size = tag_size(self.suite);
        let end = bytes.len() - size;
        let code = self.code(&bytes[..end], index);
        same_tags(&bytes[end..], &code[..size])
    }

    /// Protects in place the packet with this head in the buffer's first `len` bytes, and returns its new length.
    pub(crate) fn wrap(&self, buf: &mut [u8], len: usize, found: RtpHead, index: u64) -> usize
        requires room { len + 10 ≤ length buf.old }
        requires size { len < 2 ^ 31 }
        requires head { rtp_head (take len buf.old) ≡ Some found }
        requires within { found.head ≤ len }
        requires index { index < 2 ^ 48 }
        ensures fits { result ≤ len + 10 }
        ensures writes { (master : List ℕ) (suite : Suite) → SessionFor master suite self.now → Writes (protect master suite (take len buf.old) index) buf.old buf.new result }
    {
        self.cipher(&mut buf[found.head..len], found.ssrc, index);
        let code = self.code(&buf[..len], index);
        let size = tag_size(self.suite);
        buf[len..len + size].copy_from_slice(&code[..size]);
        len + size
    }

    /// Opens in place the packet with this head in the buffer's first `len` bytes, and returns the plain packet's length.
    pub(crate) fn open(&self, buf: &mut [u8], len: usize, found: RtpHead, index: u64) -> usize
        requires held { len ≤ length buf.old }
        requires head { rtp_head (take len buf.old) ≡ Some found }
        requires tag { found.head + tag_size self.now.suite ≤ len }
        requires index { index < 2 ^ 48 }
        ensures fits { result ≤ len }
        ensures head { rtp_head (take result buf.new) ≡ Some found }
        ensures writes { (master : List ℕ) (suite : Suite) → SessionFor master suite self.now → Writes (opened master suite (take len buf.old) index) buf.old buf.new result }
    {
        let end = len - tag_size(self.suite);
        self.cipher(&mut buf[found.head..end], found.ssrc, index);
        end
    }
}
