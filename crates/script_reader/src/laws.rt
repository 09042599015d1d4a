ghost use Rattle.std.specs.Prelude.{◌≡◌, ℕ, List};
ghost use Rattle.script_reader.specs.BadLines.{IsBadAt};
ghost use Rattle.script_reader.specs.Canonical.{canonical, IsSayable};
ghost use Rattle.script_reader.specs.Lines.{Spells};
ghost use Rattle.script_reader.specs.declared.line.Line.{Line};

/// The canonical text of a line spells it, so it is read as the same line.
pub fn canonical_text()
    ensures { (line : Line) → IsSayable line → Spells (canonical line) line }
{}

/// No text spells two lines.
pub fn one_line()
    ensures { (text : List ℕ) (a b : Line) → Spells text a → Spells text b → a ≡ b }
{}

/// A bad line goes wrong in one column.
pub fn one_column()
    ensures { (text : List ℕ) (a b : ℕ) → IsBadAt text a → IsBadAt text b → a ≡ b }
{}
