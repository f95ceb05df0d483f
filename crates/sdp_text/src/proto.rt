/// The protocol of a section (RFC 8866 section 5.14).
#[derive(Clone, Copy, Debug, PartialEq, Eq)]
pub enum Proto {
    /// `RTP/AVP`: plain RTP (RFC 3551).
    Avp,
    /// `RTP/AVPF`: plain RTP with early feedback (RFC 4585).
    Avpf,
    /// `RTP/SAVP`: SRTP (RFC 3711).
    Savp,
    /// `RTP/SAVPF`: SRTP with early feedback (RFC 5124).
    Savpf,
    /// Any other text.
    Other,
}
