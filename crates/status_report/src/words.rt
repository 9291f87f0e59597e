ghost use Rattle.std.specs.Prelude.{◌≡◌, ◌++◌, IfOk};
ghost use Rattle.std.specs.String.{string_bytes};

use cl_base::Name;
use std::alloc::{AllocError, Global};

/// The text, and these bytes behind it.
pub fn with_bytes(text: String, bytes: &[u8]) -> Result<Vec<u8>, AllocError>
    ensures { IfOk result (λ line. line.items ≡ string_bytes text ++ bytes.now) }
{
    let mut line = text.into_bytes();
    line.extend_from_slice(bytes)?;
    Ok(line)
}

/// These words.
pub fn plain(alloc: Global, words: &'static str) -> Result<Vec<u8>, AllocError>
    ensures { IfOk result (λ text. text.items ≡ words.now) }
{
    Ok(String::from_str(alloc, words)?.into_bytes())
}

/// The words, and the name behind them.
pub fn named(alloc: Global, words: &'static str, name: &Name) -> Result<Vec<u8>, AllocError>
    ensures { IfOk result (λ text. text.items ≡ words.now ++ name.now) }
{
    with_bytes(String::from_str(alloc, words)?, name.bytes())
}
