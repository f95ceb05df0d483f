ghost use Rattle.std.specs.Prelude.{◌≡◌, ◌∷◌, true, List, ℕ};
ghost use Rattle.relay_outside.specs.declared.settings.Config.{Config};
ghost use Rattle.ng_reply.specs.declared.code.ErrorCode.{ErrorCode};
ghost use Rattle.call_board.specs.Acts.{Control, Turn, BoardEntry, Lease, Undone};
ghost use Rattle.call_board.specs.Fits.{IsFitting};
ghost use Rattle.ng_server.specs.Errors.{is_idle, LeavesAll, LeavesCalls};

/// Theorem (no run-time code): after an error the calls, their descriptions and the held pairs are as before it, and the same pairs are
/// free. After an error that comes before anything is leased, running out of memory among them, the order of the free pairs and the
/// number of keys drawn are as before, too; after an offer that was undone (`port fault`, `key source fault`) the keys that it had
/// drawn are used up.
pub fn errors_change_nothing()
    ensures idle { (config : Config) (h : List BoardEntry) (e : BoardEntry) (c : Control) → e.event ≡ Turn c → is_idle c.act ≡ true → LeavesAll config e h }
    ensures undone { (config : Config) (h : List BoardEntry) (e : BoardEntry) (c : Control) (code : ErrorCode) (leases : List Lease) (draws : List (List ℕ)) →
        e.event ≡ Turn c → c.act ≡ Undone code leases draws → IsFitting config (e ∷ h) → LeavesCalls config e h draws }
{}
