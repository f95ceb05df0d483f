ghost use Rattle.std.specs.Prelude.{◌≡◌, List};
ghost use Rattle.rtp_packet.specs.declared.head.Half.{Half};
ghost use Rattle.srtp_sources.specs.declared.sources.Sources.{Sources};
ghost use Rattle.srtp_sources.specs.Notes.{Note};
ghost use Rattle.srtp_sources.specs.Tables.{SourcesFor};
ghost use Rattle.srtp_sources.specs.SavedSources.{FitsSources, saved_sources};

/// Theorem (no run-time code): two tables that are saved alike are one table, so a table that is loaded stands for all lists of
/// notes for which the saved one stood.
pub fn saved_sources_differ()
    ensures same { (a b : Sources) → FitsSources a → FitsSources b → saved_sources a ≡ saved_sources b → a ≡ b }
    ensures stands { (a b : Sources) → FitsSources a → FitsSources b → saved_sources a ≡ saved_sources b → (half : Half) (notes : List Note) → SourcesFor half a notes → SourcesFor half b notes }
{}
