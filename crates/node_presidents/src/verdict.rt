// The president's verdict on the request that is first.
ghost use Rattle.std.specs.Prelude.{◌≡◌, Ok, IfOk};
ghost use Rattle.admin_words.specs.Commands.{request_of};
ghost use Rattle.admin_words.specs.declared.request.Request.TheVariants as asked;
ghost use Rattle.node_model.specs.Presidents.{is_busy, is_clear};
ghost use Rattle.node_model.specs.Seats.{version_of};
ghost use Rattle.node_presidents.specs.Verdicts.{judged, judged_under, verdict_of};
ghost use Rattle.node_queries.specs.Checks.{checked_under};

use crate::words::word_answer;
use admin_commands::{Accepted, CheckError};
use admin_words::{Request, parse_request};
use ccr_tables::{AdminCommand, Config, Update};
use cl_base::{Ask, Bytes};
use node_decisions::in_force;
use node_model::{Cluster, Presidency, Seat, UpNode};
use node_queries::checked;
use rgm_president::President;
use status_report::Answer;
use std::alloc::{AllocError, Global};
use update_words::words;

/// What becomes of a request.
#[derive(Drop)]
pub enum Verdict {
    /// The update in these words is proposed.
    Propose(Bytes),
    /// This is done.
    Act(Ask),
    /// It is answered so.
    Answer(Answer),
    /// It waits.
    Wait,
}

#[tactic(auto, unfolding(crate::specs::Verdicts::judged))]
/// The president's verdict on the request that is first, where no update is proposed.
pub fn judge(alloc: Global, cluster: &Cluster, up: &mut UpNode) -> Result<Verdict, AllocError>
    ensures value { IfOk result (λ verdict. verdict ≡ judged cluster.now up.old) }
    ensures same { up.new ≡ up.old }
{
    let Some(presidency) = &up.presidency else {
        return Ok(Verdict::Wait);
    };
    if presidency.proposals.proposed().is_some() {
        return Ok(Verdict::Wait);
    }
    let Some(first) = presidency.proposals.first() else {
        return Ok(Verdict::Wait);
    };
    let config = in_force(alloc, cluster, &mut up.made, &up.seat)?;
    judge_text(alloc, cluster, config, &up.seat, presidency, &first.text)
}

/// The verdict on a request of this text, under this configuration.
fn judge_text(
    alloc: Global,
    cluster: &Cluster,
    config: &Config,
    seat: &Seat,
    presidency: &Presidency,
    text: &Bytes,
) -> Result<Verdict, AllocError>
    ensures value { IfOk result (λ verdict. verdict ≡ judged_under cluster.now config.now seat.now presidency.now (request_of (version_of cluster.now) text.now)) }
{
    match parse_request(alloc, cluster.header.get().version, text.items()) {
        Ok(Request::Change(u)) => judge_update(alloc, cluster, config, seat, presidency, u),
        Ok(Request::Act(ask)) => judge_act(alloc, cluster, config, seat, presidency, ask),
        Err(e) => Ok(Verdict::Answer(word_answer(e)?)),
    }
}

/// An update waits while an order is outstanding.
fn judge_update(
    alloc: Global,
    cluster: &Cluster,
    config: &Config,
    seat: &Seat,
    presidency: &Presidency,
    u: Update,
) -> Result<Verdict, AllocError>
    ensures value { IfOk result (λ verdict. verdict ≡ judged_under cluster.now config.now seat.now presidency.now (Ok (asked.Change u))) }
{
    if is_busy(&presidency.groups) {
        return Ok(Verdict::Wait);
    }
    judge_command(
        alloc,
        cluster,
        config,
        seat,
        presidency,
        AdminCommand::Change(u),
    )
}

/// A clear waits while an order is outstanding.
fn judge_act(
    alloc: Global,
    cluster: &Cluster,
    config: &Config,
    seat: &Seat,
    presidency: &Presidency,
    ask: Ask,
) -> Result<Verdict, AllocError>
    ensures value { IfOk result (λ verdict. verdict ≡ judged_under cluster.now config.now seat.now presidency.now (Ok (asked.Act ask))) }
{
    let clear = is_clear(&ask);
    if is_busy(&presidency.groups) && clear {
        return Ok(Verdict::Wait);
    }
    judge_command(
        alloc,
        cluster,
        config,
        seat,
        presidency,
        AdminCommand::Act(ask),
    )
}

/// The verdict on a command that does not wait.
fn judge_command(
    alloc: Global,
    cluster: &Cluster,
    config: &Config,
    seat: &Seat,
    presidency: &Presidency,
    command: AdminCommand,
) -> Result<Verdict, AllocError>
    ensures value { IfOk result (λ verdict. verdict ≡ verdict_of (checked_under cluster.now config.now seat.now presidency.now command)) }
{
    match checked(alloc, cluster, config, seat, presidency, command) {
        Ok(accepted) => accepted_so(alloc, accepted),
        Err(CheckError::Refused(refusal)) => Ok(Verdict::Answer(Answer::Refused(refusal))),
        Err(CheckError::NoMemory) => Err(AllocError),
    }
}

fn accepted_so(alloc: Global, accepted: Accepted) -> Result<Verdict, AllocError>
    ensures value { IfOk result (λ verdict. verdict ≡ verdict_of (Ok accepted)) }
{
    match accepted {
        Accepted::Change(u) => Ok(Verdict::Propose(Bytes::new(words(alloc, &u)?))),
        Accepted::Act(ask) => Ok(Verdict::Act(ask)),
        Accepted::Query(_) => Ok(Verdict::Answer(Answer::Ok)),
    }
}

/// Whether an order is outstanding.
fn is_busy(president: &President) -> bool
    ensures { result ≡ is_busy president.now }
{
    !president.view().outstanding.is_empty()
}

fn is_clear(ask: &Ask) -> bool
    ensures { result ≡ is_clear ask.now }
{
    matches!(ask, Ask::Clear { .. })
}
