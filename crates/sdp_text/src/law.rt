ghost use Rattle.std.specs.Prelude.{◌≡◌, ℕ, List, All, Some, None};
ghost use Rattle.sdp_text.specs.First.{HasFault, HasV6, IsFirstFault, IsFirstV6, IsOfLines};
ghost use Rattle.sdp_text.specs.Parts.{media_parts, served_fault, v6_line};
ghost use Rattle.sdp_text.specs.declared.fault.SdpFault.{SdpFault};

/// Theorem (no run-time code): where a section's count of ports or an address is at fault, the line that is named is at fault, and no line before it
/// is; where no line is named, none is at fault. The numbers are those of lines of the description that say what the section keeps of them, and it is read
/// as muxed exactly where a line of its own is `a=rtcp-mux`, byte for byte.
pub fn first_fault_is_first()
    ensures first { (lines : List (List ℕ)) (fault : SdpFault) → served_fault (media_parts lines) ≡ Some fault → IsFirstFault (media_parts lines) fault }
    ensures missing { (lines : List (List ℕ)) → served_fault (media_parts lines) ≡ None → (fault : SdpFault) → HasFault (media_parts lines) fault → ⊥ }
    ensures kept { (lines : List (List ℕ)) → All (IsOfLines lines) (media_parts lines) }
{}

/// Theorem (no run-time code): the line that is named for an IPv6 address has one that is in effect for an active section, and no line before it has;
/// where no line is named, none has.
pub fn first_v6_is_first()
    ensures first { (lines : List (List ℕ)) (number : ℕ) → v6_line (media_parts lines) ≡ Some number → IsFirstV6 (media_parts lines) number }
    ensures missing { (lines : List (List ℕ)) → v6_line (media_parts lines) ≡ None → (number : ℕ) → HasV6 (media_parts lines) number → ⊥ }
{}
