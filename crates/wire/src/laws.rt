ghost use Rattle.std.specs.Prelude.{◌≡◌, ◌++◌, List, ℕ};
ghost use Rattle.wire.specs.declared.message.Message.{Message};
ghost use Rattle.wire.specs.Spelling.{spelling, Fits};
ghost use Rattle.wire.specs.Lengths.{SpellingsHaveTheirLength};

/// Two messages have different spellings, and no spelling is a proper prefix of another's: bytes begin
/// with the spelling of one message at most. (A message has one spelling, since `spelling` is a
/// function of it.)
pub fn spellings_are_apart()
    ensures apart { (a b : Message) (x y : List ℕ) → Fits a → Fits b → spelling a ++ x ≡ spelling b ++ y → (a ≡ b) × (x ≡ y) }
{}

/// How many bytes a message's spelling has: a number by its kind, and what its texts and lists add.
pub fn spellings_have_their_length()
    ensures length { SpellingsHaveTheirLength }
{}
