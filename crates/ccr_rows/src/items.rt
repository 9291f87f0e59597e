// Values that are lists: items with commas between, or `none`.
ghost use Rattle.std.specs.Prelude.{◌≡◌, ◌++◌, List, ℕ, IfOk, OnOk};
ghost use Rattle.std.specs.Fmt.{decimal};
ghost use Rattle.cl_base.specs.Numbers.{by_commas};
ghost use Rattle.update_words.specs.Methods.{method_text};
ghost use Rattle.update_words.specs.Words.{weight_text};
ghost use Rattle.ccr_rows.specs.Texts.{affinity_text, factor_text, name_text, with_commas};

use ccr_tables::Weight;
use cl_base::{Method, Name, NodeId};
use itoa::Buffer;
use load_limits::Factor;
use rg_props::Affine;
use std::alloc::{AllocError, Global};
use update_words::method_word;

/// What stands between commas.
pub trait Item {
    /// How it is written.
    ghost written: { Self → List ℕ };

    /// Adds it to the text.
    fn push_to(&self, text: &mut Vec<u8>) -> Result<(), AllocError>
        ensures text { OnOk result (text.new.items ≡ text.old.items ++ written self.now) };
}

impl Item for NodeId {
    ghost written = { λ n. decimal n };

    fn push_to(&self, text: &mut Vec<u8>) -> Result<(), AllocError> {
        let mut buffer = Buffer::new();
        text.extend_from_slice(buffer.format(self.number()).as_bytes())
    }
}

impl Item for Name {
    ghost written = { name_text };

    fn push_to(&self, text: &mut Vec<u8>) -> Result<(), AllocError> {
        text.extend_from_slice(self.bytes())
    }
}

impl Item for Affine {
    ghost written = { affinity_text };

    fn push_to(&self, text: &mut Vec<u8>) -> Result<(), AllocError> {
        text.extend_from_slice(self.affinity.sign())?;
        text.extend_from_slice(self.group.bytes())
    }
}

impl Item for Factor {
    ghost written = { factor_text };

    fn push_to(&self, text: &mut Vec<u8>) -> Result<(), AllocError> {
        let mut buffer = Buffer::new();
        text.extend_from_slice(self.name.bytes())?;
        text.push(b'@')?;
        text.extend_from_slice(buffer.format(self.load).as_bytes())
    }
}

impl Item for Weight {
    ghost written = { weight_text };

    fn push_to(&self, text: &mut Vec<u8>) -> Result<(), AllocError> {
        let mut buffer = Buffer::new();
        text.extend_from_slice(buffer.format(self.weight).as_bytes())?;
        text.push(b'@')?;
        self.node.push_to(text)
    }
}

impl Item for Method {
    ghost written = { method_text };

    fn push_to(&self, text: &mut Vec<u8>) -> Result<(), AllocError> {
        text.extend_from_slice(method_word(*self))
    }
}

/// The items with commas between, or `none`.
pub fn list_text<T: Item>(alloc: Global, items: &[T]) -> Result<Vec<u8>, AllocError>
    ensures { IfOk result (λ text. text.items ≡ with_commas (T.Item.written) items.now) }
{
    let [first, rest @ ..] = items else {
        return b"none".to_vec(alloc);
    };
    let mut text = Vec::new(alloc);
    first.push_to(&mut text)?;
    for item in rest {
        text.push(b',')?;
        item.push_to(&mut text)?;
    }
    Ok(text)
}

#[tactic(auto, using(crate::proofs::Pieces::numbers_same))]
/// The numbers with commas between, or `none`.
pub fn numbers_text(alloc: Global, nodes: &[NodeId]) -> Result<Vec<u8>, AllocError>
    ensures { IfOk result (λ text. text.items ≡ by_commas nodes.now) }
{
    list_text(alloc, nodes)
}
