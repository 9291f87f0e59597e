ghost use Rattle.std.specs.Prelude.{◌≡◌, ◌++◌, ◌∷◌, [], OnOk};
ghost use Rattle.std.specs.Fmt.{decimal};
ghost use Rattle.cl_base.specs.Numbers.{by_commas};
ghost use Rattle.ccr_rows.specs.Texts.{choice_text, with_commas};
ghost use Rattle.ccr_rows.specs.Rows.{row, row_of};

use crate::items::{Item, list_text, numbers_text};
use crate::words::{choice_word, number_text, word_text};
use ccr_text::Row;
use cl_base::{Bytes, Items, Name, NodeId};
use std::alloc::{AllocError, Global};

/// Adds a row with this key.
pub fn push_row(rows: &mut Vec<Row>, key: Vec<u8>, value: Vec<u8>) -> Result<(), AllocError>
    ensures { OnOk result (rows.new.items ≡ rows.old.items ++ row key.items value.items ∷ []) }
{
    rows.push(Row {
        key: Bytes::new(key),
        value: Bytes::new(value),
    })?;
    Ok(())
}

/// Adds a row of a thing that has several: its key is the name, a dot and the word.
pub fn push_row_of(
    rows: &mut Vec<Row>,
    alloc: Global,
    name: &Name,
    word: &'static str,
    value: Vec<u8>,
) -> Result<(), AllocError>
    ensures { OnOk result (rows.new.items ≡ rows.old.items ++ row_of name.now word.now value.items ∷ []) }
{
    let mut key = name.bytes().to_vec(alloc)?;
    key.push(b'.')?;
    key.extend_from_slice(word.as_bytes())?;
    push_row(rows, key, value)
}

/// Adds a row with a word.
pub fn push_word(
    rows: &mut Vec<Row>,
    alloc: Global,
    name: &Name,
    word: &'static str,
    value: &'static str,
) -> Result<(), AllocError>
    ensures { OnOk result (rows.new.items ≡ rows.old.items ++ row_of name.now word.now value.now ∷ []) }
{
    let value = word_text(alloc, value)?;
    push_row_of(rows, alloc, name, word, value)
}

/// Adds a row with a name.
pub fn push_name(
    rows: &mut Vec<Row>,
    alloc: Global,
    name: &Name,
    word: &'static str,
    value: &Name,
) -> Result<(), AllocError>
    ensures { OnOk result (rows.new.items ≡ rows.old.items ++ row_of name.now word.now value.now ∷ []) }
{
    let value = value.bytes().to_vec(alloc)?;
    push_row_of(rows, alloc, name, word, value)
}

/// Adds a row with a truth value.
pub fn push_choice(
    rows: &mut Vec<Row>,
    alloc: Global,
    name: &Name,
    word: &'static str,
    choice: bool,
) -> Result<(), AllocError>
    ensures { OnOk result (rows.new.items ≡ rows.old.items ++ row_of name.now word.now (choice_text choice) ∷ []) }
{
    push_word(rows, alloc, name, word, choice_word(choice))
}

/// Adds a row with a number.
pub fn push_number(
    rows: &mut Vec<Row>,
    alloc: Global,
    name: &Name,
    word: &'static str,
    number: u64,
) -> Result<(), AllocError>
    ensures { OnOk result (rows.new.items ≡ rows.old.items ++ row_of name.now word.now (decimal number) ∷ []) }
{
    let value = number_text(alloc, number)?;
    push_row_of(rows, alloc, name, word, value)
}

/// Adds a row with the numbers of nodes.
pub fn push_nodes(
    rows: &mut Vec<Row>,
    alloc: Global,
    name: &Name,
    word: &'static str,
    nodes: &Items<NodeId>,
) -> Result<(), AllocError>
    ensures { OnOk result (rows.new.items ≡ rows.old.items ++ row_of name.now word.now (by_commas nodes.now) ∷ []) }
{
    let value = numbers_text(alloc, nodes.items())?;
    push_row_of(rows, alloc, name, word, value)
}

/// Adds a row with a list.
pub fn push_list<T: Item>(
    rows: &mut Vec<Row>,
    alloc: Global,
    name: &Name,
    word: &'static str,
    items: &Items<T>,
) -> Result<(), AllocError>
    ensures { OnOk result (rows.new.items ≡ rows.old.items ++ row_of name.now word.now (with_commas (T.Item.written) items.now) ∷ []) }
{
    let value = list_text(alloc, items.items())?;
    push_row_of(rows, alloc, name, word, value)
}
