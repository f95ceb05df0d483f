//! What holds of every state: from the reading of its parts to that of the whole.
ghost use Rattle.std.specs.Prelude.{◌≡◌, ◌<◌, ◌++◌, ℕ, List, length, map};
ghost use Rattle.std.specs.List.{AllByRecursion};
ghost use Rattle.relay_outside.specs.declared.lines.LineCall.{LineCall};
ghost use Rattle.state_lines.specs.LineReads.{text_read, RefusesForm};
ghost use Rattle.state_lines.specs.StateLines.{heading, end_line, begun_lines, state_lines, IsValueText, IsOneLine, IsValue, IsState};
ghost use Rattle.state_lines.specs.declared.faults.LineFault.{LineFault};

/// Where the heading is refused, a state of however many values is, for the same fault.
pub fn refused_headings_refuse_states()
    ensures { (count : ℕ) (fault : LineFault) (calls : List LineCall) → RefusesForm (IsOneLine heading) 0 fault calls → RefusesForm (IsState count) 0 fault calls }
{}

/// Where a value is refused that is read behind others, the state is, for the same fault.
pub fn refused_values_refuse_states()
    ensures { (count : ℕ) (values : List (List ℕ)) (fault : LineFault) (calls : List LineCall) → AllByRecursion IsValueText values → length values < count
        → RefusesForm IsValue (length (begun_lines values)) fault calls → RefusesForm (IsState count) 0 fault (map text_read (begun_lines values) ++ calls) }
{}

/// Where the last line is refused behind all values, the state is, for the same fault.
pub fn refused_endings_refuse_states()
    ensures { (count : ℕ) (values : List (List ℕ)) (fault : LineFault) (calls : List LineCall) → AllByRecursion IsValueText values → length values ≡ count
        → RefusesForm (IsOneLine end_line) (length (begun_lines values)) fault calls → RefusesForm (IsState count) 0 fault (map text_read (begun_lines values) ++ calls) }
{}

/// Lines begin with one state at most: neither its values nor what follows them can be told from them in two ways.
pub fn states_are_read_once()
    ensures { (a b x y : List (List ℕ)) → AllByRecursion IsValueText a → AllByRecursion IsValueText b → state_lines a ++ x ≡ state_lines b ++ y → (a ≡ b) × (x ≡ y) }
{}
