ghost use Rattle.answer_words.specs.Laws.{AnswersAreRead};

/// The text of an answer, whose operands have the forms of operands, is read as this answer.
pub fn answers_are_read()
    ensures read { AnswersAreRead }
{}
