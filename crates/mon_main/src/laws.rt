//! The laws of answers, as functions that do nothing.
ghost use Rattle.mon_main.specs.Laws.{StatusesAgree, TextsAgree};

/// A request is answered by one status.
pub fn statuses_agree()
    ensures { StatusesAgree }
{}

/// What words ask for of one thread is answered by one text.
pub fn texts_agree()
    ensures { TextsAgree }
{}
