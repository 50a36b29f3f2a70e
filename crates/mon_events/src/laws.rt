//! Laws of sets, of words of bits, and of names.

ghost use Rattle.mon_events.specs.Laws.{SetsByBits, WordsByBits, PlacesBack, NamesAreRead};

/// A law: the set of the events that pass a test has just those.
pub fn sets_by_bits()
    ensures { SetsByBits }
{}

/// A law: a word that is made of given bits has just these.
pub fn words_by_bits()
    ensures { WordsByBits }
{}

/// A law: a bit of a location is that of one slot and one tool.
pub fn places_back()
    ensures { PlacesBack }
{}

/// A law: the name of an event is read as that event.
pub fn names_are_read()
    ensures { NamesAreRead }
{}
