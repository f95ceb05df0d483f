/// What a test may watch or hold while a cell's turn is held; it keeps no log.
pub trait Gate {
    ghost use Rattle.std.specs.Prelude.{ℕ};

    /// This gate was passed at this cell. What that means is the gate's own matter, so that who is handed a gate of any type knows it of that
    /// gate alone, by a call of it.
    ghost passed: { Self → ℕ → Type 0 };

    /// Called once in each relay, while the turn of this cell is held.
    fn inside(&self, cell: u32)
        ensures { passed self.now cell };
}
