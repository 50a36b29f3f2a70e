//! A law of first words.
ghost use Rattle.mon_instrument.specs.Laws.{FirstWordsStand};

/// A law: the first words of a program stand for the journal without calls.
pub fn first_words_stand()
    ensures { FirstWordsStand }
{}
