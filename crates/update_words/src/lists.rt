// Numbers, and lists of nodes and of weights by commas.
ghost use Rattle.std.specs.Prelude.{◌≡◌, ◌++◌, OnOk};
ghost use Rattle.std.specs.Fmt.{decimal};
ghost use Rattle.update_words.specs.Words.{nodes_text, weight_text, weights_text};

use ccr_tables::Weight;
use cl_base::NodeId;
use itoa::Buffer;
use std::alloc::AllocError;

/// The number in decimal digits, behind the text.
pub fn push_number(text: &mut Vec<u8>, number: u64) -> Result<(), AllocError>
    ensures { OnOk result (text.new.items ≡ text.old.items ++ decimal number) }
{
    let mut buffer = Buffer::new();
    text.extend_from_slice(buffer.format(number).as_bytes())?;
    Ok(())
}

/// The nodes by commas, behind the text.
pub fn push_nodes(text: &mut Vec<u8>, nodes: &[NodeId]) -> Result<(), AllocError>
    ensures { OnOk result (text.new.items ≡ text.old.items ++ nodes_text nodes.now) }
{
    let [first, rest @ ..] = nodes else {
        return Ok(());
    };
    push_number(text, first.number())?;
    for node in rest {
        text.push(b',')?;
        push_number(text, node.number())?;
    }
    Ok(())
}

/// The weights by commas, behind the text.
pub fn push_weights(text: &mut Vec<u8>, weights: &[Weight]) -> Result<(), AllocError>
    ensures { OnOk result (text.new.items ≡ text.old.items ++ weights_text weights.now) }
{
    let [first, rest @ ..] = weights else {
        return Ok(());
    };
    push_weight(text, *first)?;
    for weight in rest {
        text.push(b',')?;
        push_weight(text, *weight)?;
    }
    Ok(())
}

fn push_weight(text: &mut Vec<u8>, weight: Weight) -> Result<(), AllocError>
    ensures { OnOk result (text.new.items ≡ text.old.items ++ weight_text weight) }
{
    push_number(text, weight.weight)?;
    text.push(b'@')?;
    push_number(text, weight.node.number())
}
