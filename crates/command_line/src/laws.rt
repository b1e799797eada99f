//! A law of the definitions, the contract of a function that does nothing.
ghost use Rattle.std.specs.Prelude.{ℕ, List};
ghost use Rattle.po_syntax.specs.Facts.LinesWithEnds.{ContainsLines, lines_with_ends};

/// The lines of a text are its parts up to each LF, and what is left after the last one.
pub fn texts_are_cut_into_lines()
    ensures { (text : List ℕ) → ContainsLines text (lines_with_ends text) }
{}
