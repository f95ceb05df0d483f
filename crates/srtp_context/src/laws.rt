ghost use Rattle.std.specs.Prelude.{ℕ, ◌≡◌, List, Some};
ghost use Rattle.rtp_packet.specs.declared.head.RtpHead.{RtpHead};
ghost use Rattle.rtp_packet.specs.Head.{rtp_head};
ghost use Rattle.sdes_lines.specs.declared.crypto_line.Suite.{Suite};
ghost use Rattle.srtp_context.specs.Packets.{OpensAs, protect};

/// Theorem (no run-time code): what protecting makes of an RTP packet is authentic and opens to that packet, under the same key,
/// suite and index.
pub fn a_protected_packet_opens()
    ensures { (master : List ℕ) (suite : Suite) (packet : List ℕ) (index : ℕ) → (found : RtpHead) → rtp_head packet ≡ Some found → OpensAs master suite (protect master suite packet index) index packet }
{}

ghost use Rattle.srtp_sources.specs.Notes.{Note};
ghost use Rattle.srtp_context.specs.declared.inbound.InRtp.{InRtp};
ghost use Rattle.srtp_context.specs.declared.outbound.OutRtp.{OutRtp};
ghost use Rattle.srtp_context.specs.Contexts.{InRtpFor, OutRtpFor};
ghost use Rattle.srtp_context.specs.SavedRtp.{FitsInRtp, saved_in_rtp, FitsOutRtp, saved_out_rtp};

/// Theorem (no run-time code): two contexts that are saved alike are one context, so a context that is loaded stands for all master
/// keys and lists of notes for which the saved one stood.
pub fn saved_contexts_differ()
    ensures received { (a b : InRtp) → FitsInRtp a → FitsInRtp b → saved_in_rtp a ≡ saved_in_rtp b → a ≡ b }
    ensures sent { (a b : OutRtp) → FitsOutRtp a → FitsOutRtp b → saved_out_rtp a ≡ saved_out_rtp b → a ≡ b }
    ensures received_stands { (a b : InRtp) → FitsInRtp a → FitsInRtp b → saved_in_rtp a ≡ saved_in_rtp b → (master : List ℕ) (suite : Suite) (notes : List Note) → InRtpFor master suite a notes → InRtpFor master suite b notes }
    ensures sent_stands { (a b : OutRtp) → FitsOutRtp a → FitsOutRtp b → saved_out_rtp a ≡ saved_out_rtp b → (master : List ℕ) (suite : Suite) (notes : List Note) → OutRtpFor master suite a notes → OutRtpFor master suite b notes }
{}
