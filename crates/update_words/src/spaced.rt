// Words with one space between.
ghost use Rattle.std.specs.Prelude.{◌≡◌, ◌++◌, ◌∷◌, [], IfOk, OnOk};
ghost use Rattle.std.specs.Fmt.{decimal};
ghost use Rattle.update_words.specs.Joined.{spaced};

use crate::lists::push_number;
use cl_base::Name;
use std::alloc::{AllocError, Global};

/// The first two words of a command.
pub fn command(alloc: Global, tool: &[u8], command: &[u8]) -> Result<Vec<u8>, AllocError>
    ensures { IfOk result (λ text. text.items ≡ spaced (tool.now ∷ command.now ∷ [])) }
{
    let mut text = tool.to_vec(alloc)?;
    push_word(&mut text, command)?;
    Ok(text)
}

/// The first two words of a command and the name behind them.
pub fn named(alloc: Global, tool: &[u8], verb: &[u8], name: &Name) -> Result<Vec<u8>, AllocError>
    ensures { IfOk result (λ text. text.items ≡ spaced (tool.now ∷ verb.now ∷ name.now ∷ [])) }
{
    let mut text = command(alloc, tool, verb)?;
    push_word(&mut text, name.bytes())?;
    Ok(text)
}

/// The first two words of a command and the number behind them.
pub fn numbered(alloc: Global, tool: &[u8], verb: &[u8], number: u64) -> Result<Vec<u8>, AllocError>
    ensures { IfOk result (λ text. text.items ≡ spaced (tool.now ∷ verb.now ∷ decimal number ∷ [])) }
{
    let mut text = command(alloc, tool, verb)?;
    push_number_word(&mut text, number)?;
    Ok(text)
}

/// A space and the word, behind the text.
pub fn push_word(text: &mut Vec<u8>, word: &[u8]) -> Result<(), AllocError>
    ensures { OnOk result (text.new.items ≡ text.old.items ++ 32 ∷ word.now) }
{
    text.push(b' ')?;
    text.extend_from_slice(word)?;
    Ok(())
}

/// A space and the number, behind the text.
pub fn push_number_word(text: &mut Vec<u8>, number: u64) -> Result<(), AllocError>
    ensures { OnOk result (text.new.items ≡ text.old.items ++ 32 ∷ decimal number) }
{
    text.push(b' ')?;
    push_number(text, number)
}
