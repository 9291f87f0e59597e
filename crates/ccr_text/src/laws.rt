ghost use Rattle.ccr_text.specs.Lengths.{TextsHaveTheirLength};

/// How many bytes the text of a table has.
pub fn texts_have_their_length()
    ensures length { TextsHaveTheirLength }
{}
