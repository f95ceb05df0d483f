ghost use Rattle.std.specs.Prelude.{◌≡◌, ℕ, List};
ghost use Rattle.hex.specs.Hex.{IsBytes};
ghost use Rattle.relay_script.specs.Fields.{IsText};
ghost use Rattle.relay_script.specs.Lines.{SpellsLine};
ghost use Rattle.relay_script.specs.EventLines.{shown_text};
ghost use Rattle.relay_script.specs.Steps.{Step};

/// A line asks for at most one step, so that `parse` returns exactly that one.
pub fn one_step()
    ensures { (line : List ℕ) (first second : Step) → SpellsLine line first → SpellsLine line second → first ≡ second }
{}

/// The text in which the bytes of a reply are printed stands for those bytes in a script too.
pub fn printed_text_is_read()
    ensures { (bytes : List ℕ) → IsBytes bytes → IsText (shown_text bytes) bytes }
{}
