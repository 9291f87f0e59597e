ghost use Rattle.std.specs.Prelude.{◌≡◌, ◌≤◌, ◌⊎◌, Ok, Err, IfOk, IfErr};
ghost use Rattle.ccr_tables.specs.Updates.{table_named};
ghost use Rattle.admin_commands.specs.Answers.{answer_to, rows_of, unless_refused};
ghost use Rattle.admin_commands.specs.Records.{most_bytes};
ghost use Rattle.admin_commands.specs.declared.error.CheckError.TheVariants.{NoMemory};

use crate::accepted::Accepted;
use crate::asks::refusal_of_ask;
use crate::error::CheckError;
use crate::updates::refusal;
use ccr_tables::{AdminCommand, Config, table_named};
use cl_base::{DevSet, Name, NodeSet, Query, Refusal, Thing};
use rg_view::GroupView;
use std::alloc::Global;

/// Accepts the command over the configuration in force, or refuses it with the first refusal that
/// fits, in the order of their numbers. The view is what is known of groups, and the membership has
/// these members and holds these devices. The length is that of the president's record, as long as
/// it may become, without the command and without what is added for groups and resources.
pub fn check(
    alloc: Global,
    c: AdminCommand,
    config: &Config,
    view: &GroupView,
    members: NodeSet,
    held: DevSet,
    length: u64,
) -> Result<Accepted, CheckError>
    requires room { length ≤ most_bytes }
    ensures accepted { IfOk result (λ a.
        answer_to config.now view.entry.now members held length c ≡ Ok a) }
    ensures refused { IfErr result (λ e. (e ≡ NoMemory)
        ⊎ (answer_to config.now view.entry.now members held length c ≡ Err e)) }
{
    match c {
        AdminCommand::Change(u) => {
            let found = refusal(alloc, config, view, members, held, length, &u)?;
            unless_refused(found, Accepted::Change(u))
        }
        AdminCommand::Act(ask) => {
            unless_refused(refusal_of_ask(config, view, &ask), Accepted::Act(ask))
        }
        AdminCommand::Status(query) => Ok(Accepted::Query(query)),
        AdminCommand::Rows(name) => rows_of(config, name),
    }
}

fn unless_refused(found: Option<Refusal>, accepted: Accepted) -> Result<Accepted, CheckError>
    ensures { result ≡ unless_refused found accepted }
{
    match found {
        Some(refusal) => Err(CheckError::Refused(refusal)),
        None => Ok(accepted),
    }
}

/// A table that is there, or that it is not.
fn rows_of(config: &Config, name: Name) -> Result<Accepted, CheckError>
    ensures { result ≡ rows_of (table_named config.now.groups.version name) name }
{
    match table_named(config.version(), &name) {
        Some(table) => Ok(Accepted::Query(Query::Rows(table))),
        None => Err(CheckError::Refused(Refusal::Unknown(Thing::Named(name)))),
    }
}
