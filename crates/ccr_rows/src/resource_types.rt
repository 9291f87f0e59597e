// The rows of resource types.
ghost use Rattle.std.specs.Prelude.{◌≡◌, ◌++◌, ◌∷◌, [], IfOk, OnOk};
ghost use Rattle.std.specs.List.{filter};
ghost use Rattle.cl_base.specs.Methods.{has_method};
ghost use Rattle.ccr_rows.specs.Texts.{methods_text};
ghost use Rattle.ccr_rows.specs.Rows.{type_row, type_rows};

use crate::items::list_text;
use crate::row::push_row;
use crate::words::{failover_word, single_word};
use ccr_text::Row;
use cl_base::{Method, Name};
use rt_types::{ResourceType, Types};
use std::alloc::{AllocError, Global};
use update_words::METHODS;

/// Adds the rows of the table `types`.
pub fn push_types(rows: &mut Vec<Row>, alloc: Global, types: &Types) -> Result<(), AllocError>
    ensures { OnOk result (rows.new.items ≡ rows.old.items ++ type_rows types.now) }
{
    for place in 0..types.len() {
        if let Some((name, t)) = types.at(place) {
            push_type(rows, alloc, name, t)?;
        }
    }
    Ok(())
}

fn push_type(
    rows: &mut Vec<Row>,
    alloc: Global,
    name: &Name,
    t: &ResourceType,
) -> Result<(), AllocError>
    ensures { OnOk result (rows.new.items ≡ rows.old.items ++ type_row name.now t.now ∷ []) }
{
    let mut value = t.agent().bytes().to_vec(alloc)?;
    value.push(b' ')?;
    let methods = methods_text(alloc, t)?;
    value.extend_from_slice(methods.as_slice())?;
    value.push(b' ')?;
    value.extend_from_slice(single_word(t.single()).as_bytes())?;
    value.push(b' ')?;
    value.extend_from_slice(failover_word(t.failover()).as_bytes())?;
    push_row(rows, name.bytes().to_vec(alloc)?, value)
}

#[tactic(auto, unfolding(crate::specs::Texts::methods_text))]
fn methods_text(alloc: Global, t: &ResourceType) -> Result<Vec<u8>, AllocError>
    ensures { IfOk result (λ text. text.items ≡ methods_text t.now.methods) }
{
    let methods = methods_among(alloc, t, &METHODS)?;
    list_text(alloc, methods.as_slice())
}

// Those of the methods that the type has.
fn methods_among(
    alloc: Global,
    t: &ResourceType,
    methods: &[Method],
) -> Result<Vec<Method>, AllocError>
    ensures { IfOk result (λ among. among.items ≡ filter (has_method t.now.methods) methods.now) }
{
    let mut among = Vec::new(alloc);
    for method in methods {
        if t.has(*method) {
            among.push(*method)?;
        }
    }
    Ok(among)
}
