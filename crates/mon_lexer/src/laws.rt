//! Laws of texts, as contracts of functions that do nothing.

ghost use Rattle.mon_lexer.specs.Lines.{LinesOfCharacters, LinesOnce};

/// A text has exactly one list of lines.
pub fn lines_once()
    ensures { LinesOnce }
{}

/// Each line of a text in UTF-8 is in UTF-8, and the lines of its characters are the characters of its lines.
pub fn lines_are_of_characters()
    ensures { LinesOfCharacters }
{}
