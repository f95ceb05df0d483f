ghost use Rattle.std.specs.Prelude.{◌≡◌, IfSome, IfNone};
ghost use Rattle.srtp_sources.specs.declared.sources.Sources.{Sources};
ghost use Rattle.srtp_context.specs.declared.session.RtpSession.{RtpSession};
ghost use Rattle.srtp_context.specs.SavedRtp.{FitsRtp, saved_rtp};

use crate::session::RtpSession;
use srtp_sources::{Sources, part_at, put_part};

/// The saved form of a context: its session, then its sources.
pub(crate) fn save_rtp(session: &RtpSession, sources: Sources) -> [u8; 980]
    ensures fits { FitsRtp session.now sources }
    ensures saved { result ≡ saved_rtp session.now sources }
{
    let mut bytes = [0; 980];
    put_part(&mut bytes, 0, &session.save());
    put_part(&mut bytes, 51, &sources.save());
    bytes
}

/// The session and the sources of a saved form; None where it is that of no context.
pub(crate) fn load_rtp(bytes: &[u8; 980]) -> Option<(RtpSession, Sources)>
    ensures some { IfSome result (λ context. FitsRtp context.0 context.1 × (saved_rtp context.0 context.1 ≡ bytes.now)) }
    ensures none { IfNone result ((session : RtpSession) (sources : Sources) → FitsRtp session sources → saved_rtp session sources ≡ bytes.now → ⊥) }
{
    let session = RtpSession::load(&part_at(bytes, 0))?;
    let sources = Sources::load(&part_at(bytes, 51))?;
    Some((session, sources))
}
