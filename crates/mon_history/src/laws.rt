//! Laws of histories.
ghost use Rattle.mon_history.specs.Laws.{LetThrough, ReadLegally};

/// A law: words that stand for a journal let through what the journal's configuration lets through, and answer what it
/// answers.
pub fn let_through()
    ensures { LetThrough }
{}

/// A law: a thread that read a word history by its words read the history of the changes and disables legally.
pub fn legal_reading()
    ensures { ReadLegally }
{}
