//! What holds of the table alone.
ghost use Rattle.std.specs.Prelude.{ℕ, List};
ghost use Rattle.script_lines.specs.{Lines.SaysSame, Table.Spells};
ghost use Rattle.script_lines.specs.declared.line.Line.{Line};

/// No text spells two lines that say different things.
pub fn one_line()
    ensures { (a b : Line) (text : List ℕ) → Spells a text → Spells b text → SaysSame a b }
{}
