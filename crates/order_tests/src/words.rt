// Words, and what they spell.
use cl_base::{Method, Name, NodeId, NodeSet, Seconds};
use std::alloc::{AllocError, Global};
use std::test::Fail;
use update_words::{METHODS, method_word};

/// The parts of the text between these separators.
pub fn parts(alloc: Global, text: &[u8], separator: u8) -> Result<Vec<&[u8]>, AllocError> {
    text.split(|b| *b == separator).collect(alloc)
}

pub fn name(word: &[u8]) -> Result<Name, Fail> {
    Ok(Name::new(word)?)
}

fn number(word: &[u8]) -> u64 {
    let mut number = 0u64;
    for digit in word {
        number = number
            .wrapping_mul(10)
            .wrapping_add(digit.wrapping_sub(b'0') as u64);
    }
    number
}

pub fn node(word: &[u8]) -> Result<NodeId, Fail> {
    Ok(NodeId::new(number(word))?)
}

fn set_of(words: &[&[u8]]) -> Result<NodeSet, Fail> {
    let mut set = NodeSet::empty();
    for word in words {
        set = set.with(node(word)?);
    }
    Ok(set)
}

/// The nodes of a list, or `none`.
pub fn set(alloc: Global, list: &[u8]) -> Result<NodeSet, Fail> {
    if list == b"none".as_slice() {
        return Ok(NodeSet::empty());
    }
    set_of(&parts(alloc, list, b',')?)
}

/// The seconds of a list, or `none`.
pub fn seconds(alloc: Global, list: &[u8]) -> Result<Seconds, Fail> {
    let mut seconds = Vec::new(alloc);
    if list != b"none".as_slice() {
        for second in &parts(alloc, list, b',')? {
            seconds.push(number(second))?;
        }
    }
    Ok(Seconds::new(seconds))
}

pub fn method(word: &[u8]) -> Option<Method> {
    for m in METHODS {
        if method_word(m) == word {
            return Some(m);
        }
    }
    None
}
