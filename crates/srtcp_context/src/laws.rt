ghost use Rattle.std.specs.Prelude.{ℕ, ◌≡◌, ◌<◌, ◌^◌, List, Some};
ghost use Rattle.rtp_packet.specs.Head.{rtcp_ssrc};
ghost use Rattle.srtcp_context.specs.Packets.{OpensRtcpAs, protect_rtcp};

/// Theorem (no run-time code): what protecting makes of an RTCP packet under an index below 2^31 is authentic, carries that index
/// and opens to that packet, under the same key.
pub fn a_protected_packet_opens()
    ensures { (master : List ℕ) (packet : List ℕ) (index : ℕ) (ssrc : ℕ) → rtcp_ssrc packet ≡ Some ssrc → index < 2 ^ 31 → OpensRtcpAs master (protect_rtcp master packet index) index packet }
{}

ghost use Rattle.srtp_sources.specs.Notes.{Note};
ghost use Rattle.srtcp_context.specs.declared.inbound.InRtcp.{InRtcp};
ghost use Rattle.srtcp_context.specs.declared.outbound.OutRtcp.{OutRtcp};
ghost use Rattle.srtcp_context.specs.Contexts.{InRtcpFor, OutRtcpFor};
ghost use Rattle.srtcp_context.specs.SavedRtcp.{FitsInRtcp, saved_in_rtcp, FitsOutRtcp, saved_out_rtcp};

/// Theorem (no run-time code): two contexts that are saved alike are one context, so a context that is loaded stands for all master
/// keys and lists of notes for which the saved one stood.
pub fn saved_contexts_differ()
    ensures received { (a b : InRtcp) → FitsInRtcp a → FitsInRtcp b → saved_in_rtcp a ≡ saved_in_rtcp b → a ≡ b }
    ensures sent { (a b : OutRtcp) → FitsOutRtcp a → FitsOutRtcp b → saved_out_rtcp a ≡ saved_out_rtcp b → a ≡ b }
    ensures received_stands { (a b : InRtcp) → FitsInRtcp a → FitsInRtcp b → saved_in_rtcp a ≡ saved_in_rtcp b → (master : List ℕ) (notes : List Note) → InRtcpFor master a notes → InRtcpFor master b notes }
    ensures sent_stands { (a b : OutRtcp) → FitsOutRtcp a → FitsOutRtcp b → saved_out_rtcp a ≡ saved_out_rtcp b → (master : List ℕ) (notes : List Note) → OutRtcpFor master a notes → OutRtcpFor master b notes }
{}
