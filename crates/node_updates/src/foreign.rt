// Texts that no node of the cluster sends.
ghost use Rattle.std.specs.Prelude.{◌≡◌, not, IfOk, IfErr};
ghost use Rattle.std.specs.Option.{is_some, option_map};
ghost use Rattle.ccr_commit.specs.Entries.{texts_of};
ghost use Rattle.admin_words.specs.Commands.{request_of};
ghost use Rattle.answer_words.specs.Answers.{answer_in};
ghost use Rattle.config_cache.specs.InForce.{may_follow};
ghost use Rattle.node_model.specs.declared.stop.Stop.TheVariants.{NoMemory};
ghost use Rattle.update_log.specs.Logs.{is_update};
ghost use Rattle.node_model.specs.Members.{is_bad_log, is_bad_update, is_next_of, is_ok};
ghost use Rattle.node_model.specs.Seats.{state_of, version_of};

use admin_words::{WordError, parse_request};
use answer_words::parse_answer;
use cl_base::{Bytes, Epoch};
use config_cache::ConfigCache;
use node_model::{Cluster, Seat, Stop, UpNode};
use node_presidents::{is_member_in, last_place};
use std::alloc::{AllocError, Global};
use update_log::{is_update, votes_after};

/// Whether the list of updates, with the pending one behind the others, is bad.
pub fn is_bad_log(
    alloc: Global,
    cluster: &Cluster,
    committed: &[Bytes],
    pending: Option<&Bytes>,
) -> Result<bool, Stop>
    ensures value { IfOk result (λ bad. bad ≡ is_bad_log cluster.now committed.now (option_map (λ text. text.now) pending.entry)) }
    ensures only { IfErr result (λ e. e ≡ NoMemory) }
{
    match votes_after(alloc, cluster.header.get(), committed, pending) {
        Ok(votes) => Ok(votes.is_none()),
        Err(_) => Err(Stop::NoMemory),
    }
}

/// Whether the text of a Prepare is no update, or one that may not come next. Nothing is changed.
pub fn is_bad_update(
    alloc: Global,
    cluster: &Cluster,
    up: &mut UpNode,
    epoch: Epoch,
    place: u64,
    text: &Bytes,
) -> Result<bool, Stop>
    ensures value { IfOk result (λ bad. bad ≡ is_bad_update cluster.now up.old epoch place text.now) }
    ensures only { IfErr result (λ e. e ≡ NoMemory) }
    ensures same { up.new ≡ up.old }
{
    if is_no_update(alloc, cluster, text)? {
        return Ok(true);
    }
    if !is_next_of(up, epoch, place) {
        return Ok(false);
    }
    let may_follow = may_follow(alloc, cluster, &mut up.made, &up.seat, text)?;
    Ok(!may_follow)
}

fn is_no_update(alloc: Global, cluster: &Cluster, text: &Bytes) -> Result<bool, AllocError>
    ensures { IfOk result (λ bad. bad ≡ not (is_update (version_of cluster.now) text.now)) }
{
    match is_update(alloc, cluster.header.get().version, text.items()) {
        Ok(is_update) => Ok(!is_update),
        Err(_) => Err(AllocError),
    }
}

/// Whether the update may come behind those of the seat.
fn may_follow(
    alloc: Global,
    cluster: &Cluster,
    made: &mut ConfigCache,
    seat: &Seat,
    text: &Bytes,
) -> Result<bool, AllocError>
    ensures value { IfOk result (λ so. so ≡ may_follow cluster.now.header (texts_of (state_of seat.now).saved.entries) text.now) }
    ensures same { made.new ≡ made.old }
{
    match made.may_follow(alloc, cluster.header.get(), seat.entries(), text.items()) {
        Ok(so) => Ok(so),
        Err(_) => Err(AllocError),
    }
}

/// Whether the update is the next of the node's own membership.
fn is_next_of(up: &UpNode, epoch: Epoch, place: u64) -> bool
    ensures { result ≡ is_next_of up.now epoch place }
{
    is_member_in(up, epoch) && place == last_place(&up.seat) + 1
}

/// Whether the text is no request.
pub fn is_bad_request(alloc: Global, cluster: &Cluster, text: &[u8]) -> Result<bool, Stop>
    ensures value { IfOk result (λ bad. bad ≡ not (is_ok (request_of (version_of cluster.now) text.now))) }
    ensures only { IfErr result (λ e. e ≡ NoMemory) }
{
    match parse_request(alloc, cluster.header.get().version, text) {
        Ok(_) => Ok(false),
        Err(WordError::NoMemory) => Err(Stop::NoMemory),
        Err(_) => Ok(true),
    }
}

/// Whether the text is no answer.
pub fn is_bad_answer(alloc: Global, text: &[u8]) -> Result<bool, Stop>
    ensures value { IfOk result (λ bad. bad ≡ not (is_some (answer_in text.now))) }
    ensures only { IfErr result (λ e. e ≡ NoMemory) }
{
    Ok(parse_answer(alloc, text)?.is_none())
}
