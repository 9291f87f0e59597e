//! Each law is a function that does nothing, and its clauses are the law.
ghost use Rattle.word_laws.specs.Laws.{SameWordsSameUpdate, UpdatesAreSpelled, WordsAreRead};

/// The canonical words of an update whose operands have the forms of operands are read as this update.
pub fn words_are_read()
    ensures { WordsAreRead }
{}

/// Two such updates with the same words are one.
pub fn same_words_same_update()
    ensures { SameWordsSameUpdate }
{}

/// What is read as an update has operands with the forms of operands. So its canonical words are read as
/// the same update.
pub fn updates_are_spelled()
    ensures { UpdatesAreSpelled }
{}
