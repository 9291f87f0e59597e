ghost use Rattle.std.specs.Prelude.{◌≡◌, ◌<◌, ◌^◌, ◌≤◌, ◌+◌, ◌-◌, [], None, Some, false, true, IfOk, IfSome, OnOk, length};
ghost use Rattle.rg_view.specs.Orders.{order_of};
ghost use Rattle.rgm_president.specs.Decisions.{call_on, decision, goals_set, members_of, ordered, outlook_over, turns_of, turns_unless, with_turn, with_turns};
ghost use Rattle.rgm_president.specs.Goals.{with_goals};
ghost use Rattle.rgm_president.specs.Sequence.{groups_in_order, sequence};
ghost use Rattle.rgm_president.specs.Steady.{IsSteady};
ghost use Rattle.sequencer.specs.Resting.{is_in_order};
ghost use Rattle.sequencer.specs.Shown.{FollowsOrder, Shows};

use crate::goals::set_goals;
use crate::ordering::{groups_in_order, resources_in_order};
use crate::president::President;
use crate::unchanged::is_forgotten;
use ccr_tables::Config;
use cl_base::{Method, Name, NodeId, NodeSet};
use rg_view::GroupView;
use rgm_state::NoMemory;
use sequencer::{Outlook, is_in_order, next_call};
use std::alloc::Global;
use wire::Order;

impl President {
    /// Decides at the second `now`: the goals anew, group by group, and then, unless it is held up,
    /// an order to each member that has none and for which a call is allowed, in ascending order.
    pub fn decide(
        &mut self,
        alloc: Global,
        c: &Config,
        now: u64,
        held_up: bool,
    ) -> Result<Vec<(NodeId, Order)>, NoMemory>
        requires number { self.old.given < 2 ^ 63 }
        ensures orders { IfOk result (λ orders. orders.items ≡ (decision c.now now held_up self.old).orders) }
        ensures after { OnOk result (self.new ≡ (decision c.now now held_up self.old).president) }
    {
        let (orders, _) = self.decide_anew(alloc, c, now, held_up)?;
        Ok(orders)
    }

    /// The same, and true only where from now on a decision would change nothing.
    pub(crate) fn decide_anew(
        &mut self,
        alloc: Global,
        c: &Config,
        now: u64,
        held_up: bool,
    ) -> Result<(Vec<(NodeId, Order)>, bool), NoMemory>
        requires number { self.old.given < 2 ^ 63 }
        ensures orders { IfOk result (λ found. found.0.items ≡ (decision c.now now held_up self.old).orders) }
        ensures after { OnOk result (self.new ≡ (decision c.now now held_up self.old).president) }
        ensures settled { IfOk result (λ found. found.1 ≡ true → IsSteady c.now self.new) }
    {
        let groups = groups_in_order(alloc, c.groups())?;
        let resources = resources_in_order(alloc, c.groups(), &groups)?;
        self.decide_in_order(alloc, c, &groups, &resources, now, held_up)
    }

    /// The same, where the groups and resources are gone through in this order.
    fn decide_in_order(
        &mut self,
        alloc: Global,
        c: &Config,
        groups: &[Name],
        resources: &[Name],
        now: u64,
        held_up: bool,
    ) -> Result<(Vec<(NodeId, Order)>, bool), NoMemory>
        requires number { self.old.given < 2 ^ 63 }
        requires groups { groups.now ≡ groups_in_order c.now.groups }
        requires resources { resources.now ≡ sequence c.now.groups }
        ensures orders { IfOk result (λ found. found.0.items ≡ (decision c.now now held_up self.old).orders) }
        ensures after { OnOk result (self.new ≡ (decision c.now now held_up self.old).president) }
        ensures settled { IfOk result (λ found. found.1 ≡ true → IsSteady c.now self.new) }
    {
        let same = self.set_goals(alloc, c, groups, resources, now)?;
        let orders = self.give_unless(alloc, c, resources, held_up)?;
        let settled = self.is_settled(same, held_up, &orders);
        Ok((orders, settled))
    }

    /// Whether the decision that did so left the goals as they were and gave no order, though it was not
    /// held up, and the second does not count.
    fn is_settled(&self, same: bool, held_up: bool, orders: &[(NodeId, Order)]) -> bool
        ensures same { result ≡ true → same ≡ true }
        ensures free { result ≡ true → held_up ≡ false }
        ensures none { result ≡ true → orders.now ≡ [] }
        ensures nothing { result ≡ true → self.now.view.groups ≡ [] }
    {
        same && !held_up && orders.is_empty() && is_forgotten(&self.view.groups)
    }

    #[tactic(auto, unfolding(crate::specs::Decisions::goals_set))]
    /// Decides the goals. The answer is true only where this changed nothing but the second.
    fn set_goals(
        &mut self,
        alloc: Global,
        c: &Config,
        groups: &[Name],
        resources: &[Name],
        now: u64,
    ) -> Result<bool, NoMemory>
        ensures after { OnOk result (self.new ≡ goals_set c.now groups.now resources.now now self.old) }
        ensures number { OnOk result (self.new.given ≡ self.old.given) }
        ensures same { IfOk result (λ same. same ≡ true → with_goals c.now groups.now resources.now now self.old.view ≡ record self.old.view { now = now }) }
    {
        self.steady = false;
        set_goals(alloc, &mut self.view, c, groups, resources, now)
    }

    #[tactic(auto, unfolding(crate::specs::Decisions::turns_unless))]
    /// Gives each member that has no order its first allowed call, unless it is held up.
    fn give_unless(
        &mut self,
        alloc: Global,
        c: &Config,
        resources: &[Name],
        held_up: bool,
    ) -> Result<Vec<(NodeId, Order)>, NoMemory>
        requires { self.old.given < 2 ^ 63 }
        ensures orders { IfOk result (λ orders. orders.items ≡ (turns_unless c.now resources.now held_up self.old).orders) }
        ensures after { OnOk result (self.new ≡ (turns_unless c.now resources.now held_up self.old).president) }
    {
        if held_up {
            return Ok(Vec::new(alloc));
        }
        self.give_orders(alloc, c, resources)
    }

    #[tactic(auto, unfolding(crate::specs::Decisions::with_turns))]
    /// Gives each member that has no order its first allowed call.
    fn give_orders(
        &mut self,
        alloc: Global,
        c: &Config,
        resources: &[Name],
    ) -> Result<Vec<(NodeId, Order)>, NoMemory>
        requires { self.old.given < 2 ^ 63 }
        ensures orders { IfOk result (λ orders. orders.items ≡ (with_turns c.now resources.now self.old).orders) }
        ensures after { OnOk result (self.new ≡ (with_turns c.now resources.now self.old).president) }
    {
        let members = self.members(alloc)?;
        self.give_all(alloc, c, resources, &members)
    }

    /// The members, in ascending order.
    fn members(&self, alloc: Global) -> Result<Vec<NodeId>, NoMemory>
        ensures members { IfOk result (λ nodes. nodes.items ≡ members_of self.now.view.members) }
        ensures few { IfOk result (λ nodes. length nodes.items ≤ 32) }
    {
        members_of(alloc, self.view.members)
    }

    /// Gives each of these nodes that has no order its first allowed call.
    fn give_all(
        &mut self,
        alloc: Global,
        c: &Config,
        resources: &[Name],
        nodes: &[NodeId],
    ) -> Result<Vec<(NodeId, Order)>, NoMemory>
        requires number { self.old.given < 2 ^ 63 }
        requires few { length nodes.now ≤ 32 }
        ensures orders { IfOk result (λ orders. orders.items ≡ (turns_of c.now resources.now self.old nodes.now).orders) }
        ensures after { OnOk result (self.new ≡ (turns_of c.now resources.now self.old nodes.now).president) }
    {
        let in_order = is_in_order(c.groups(), resources);
        let mut orders = Vec::new(alloc);
        let mut outlook = None;
        for n in nodes {
            outlook = self.give_next(alloc, c, resources, *n, in_order, outlook, &mut orders)?;
        }
        Ok(orders)
    }

    #[tactic(auto, unfolding(crate::specs::Decisions::with_turn))]
    /// Gives the member its first allowed call, unless it has an order. What the calls rest on is
    /// found where it is not known, and handed back as it stands then.
    fn give_next(
        &mut self,
        alloc: Global,
        c: &Config,
        resources: &[Name],
        n: NodeId,
        in_order: bool,
        known: Option<Outlook>,
        orders: &mut Vec<(NodeId, Order)>,
    ) -> Result<Option<Outlook>, NoMemory>
        requires number { self.old.given < 2 ^ 64 - 1 }
        requires in_order { in_order ≡ true → is_in_order c.now.groups resources.now ≡ true }
        requires known { IfSome known (λ o. Shows c.now.groups o (outlook_over c.now resources.now self.old.view)) }
        ensures turn { OnOk result (record { president = self.new; orders = orders.new.items } ≡ with_turn c.now resources.now (record { president = self.old; orders = orders.old.items }) n) }
        ensures number { OnOk result (self.new.given ≤ self.old.given + 1) }
        ensures holds { IfOk result (λ left. IfSome left (λ o. Shows c.now.groups o (outlook_over c.now resources.now self.new.view))) }
    {
        if self.view.outstanding.at(n).is_some() {
            return Ok(known);
        }
        let outlook = self.outlook_now(alloc, c, resources, known)?;
        let call = self.call_now(c, resources, &outlook, n);
        let Some((resource, method)) = call else {
            return Ok(Some(outlook));
        };
        self.give_call(
            alloc, c, resources, n, resource, method, in_order, outlook, orders,
        )
    }

    /// What the calls rest on now, found where it is not known.
    fn outlook_now(
        &self,
        alloc: Global,
        c: &Config,
        resources: &[Name],
        known: Option<Outlook>,
    ) -> Result<Outlook, NoMemory>
        requires { IfSome known (λ o. Shows c.now.groups o (outlook_over c.now resources.now self.now.view)) }
        ensures { IfOk result (λ o. Shows c.now.groups o (outlook_over c.now resources.now self.now.view)) }
    {
        match known {
            Some(outlook) => Ok(outlook),
            None => find_outlook(alloc, c, self.view(), resources),
        }
    }

    /// The first allowed call on the node.
    fn call_now(
        &self,
        c: &Config,
        resources: &[Name],
        outlook: &Outlook,
        n: NodeId,
    ) -> Option<(Name, Method)>
        requires { Shows c.now.groups outlook.now (outlook_over c.now resources.now self.now.view) }
        ensures { result ≡ call_on c.now resources.now self.now.view n }
    {
        call_on(c, self.view(), resources, outlook, n)
    }

    /// Gives the member, which has none, an order for the call. What the calls rest on then is handed
    /// back, where it can be brought up to date.
    fn give_call(
        &mut self,
        alloc: Global,
        c: &Config,
        resources: &[Name],
        n: NodeId,
        r: Name,
        method: Method,
        in_order: bool,
        outlook: Outlook,
        orders: &mut Vec<(NodeId, Order)>,
    ) -> Result<Option<Outlook>, NoMemory>
        requires room { order_of self.old.view.outstanding n ≡ None }
        requires number { self.old.given < 2 ^ 64 - 1 }
        requires in_order { in_order ≡ true → is_in_order c.now.groups resources.now ≡ true }
        requires known { Shows c.now.groups outlook (outlook_over c.now resources.now self.old.view) }
        ensures turn { OnOk result (record { president = self.new; orders = orders.new.items } ≡ ordered n (record { president = self.old; orders = orders.old.items }) (Some (r, method))) }
        ensures number { OnOk result (self.new.given ≤ self.old.given + 1) }
        ensures holds { IfOk result (λ left. IfSome left (λ o. Shows c.now.groups o (outlook_over c.now resources.now self.new.view))) }
    {
        let order = self.order(alloc, n, r, Some(method))?;
        orders.push((n, order))?;
        self.outlook_after(alloc, c, resources, &r, in_order, outlook)
    }

    /// What the calls rest on after an order for the resource was given, where it can be brought up to
    /// date: where each resource comes after what it rests on.
    fn outlook_after(
        &self,
        alloc: Global,
        c: &Config,
        resources: &[Name],
        r: &Name,
        in_order: bool,
        outlook: Outlook,
    ) -> Result<Option<Outlook>, NoMemory>
        requires { in_order ≡ true → is_in_order c.now.groups resources.now ≡ true }
        ensures { IfOk result (λ left. IfSome left (λ o. FollowsOrder c.now.groups c.now.types c.now.limits resources.now r.now self.now.view outlook o)) }
    {
        if !in_order {
            return Ok(None);
        }
        let left = with_order(alloc, c, self.view(), resources, r, outlook)?;
        Ok(Some(left))
    }
}

fn with_order(
    alloc: Global,
    c: &Config,
    view: &GroupView,
    resources: &[Name],
    r: &Name,
    outlook: Outlook,
) -> Result<Outlook, NoMemory>
    requires { is_in_order c.now.groups resources.now ≡ true }
    ensures { IfOk result (λ o. FollowsOrder c.now.groups c.now.types c.now.limits resources.now r.now view.entry.now outlook o) }
{
    let mut left = outlook;
    left.add_order(alloc, c.groups(), c.types(), c.limits(), view, resources, r)?;
    Ok(left)
}

/// The members, in ascending order.
fn members_of(alloc: Global, members: NodeSet) -> Result<Vec<NodeId>, NoMemory>
    ensures members { IfOk result (λ nodes. nodes.items ≡ members_of members) }
    ensures few { IfOk result (λ nodes. length nodes.items ≤ 32) }
{
    let nodes = members.nodes(alloc)?;
    Ok(nodes)
}

/// The first allowed call on the node.
fn call_on(
    c: &Config,
    view: &GroupView,
    resources: &[Name],
    outlook: &Outlook,
    n: NodeId,
) -> Option<(Name, Method)>
    requires { Shows c.now.groups outlook.now (outlook_over c.now resources.now view.now) }
    ensures { result ≡ call_on c.now resources.now view.entry.now n }
{
    next_call(
        c.groups(),
        c.types(),
        c.limits(),
        view,
        outlook,
        resources,
        n,
    )
}

/// What the calls rest on, as it stands.
pub fn find_outlook(
    alloc: Global,
    c: &Config,
    view: &GroupView,
    resources: &[Name],
) -> Result<Outlook, NoMemory>
    ensures { IfOk result (λ o. Shows c.now.groups o (outlook_over c.now resources.now view.entry.now)) }
{
    let outlook = Outlook::find(alloc, c.groups(), c.types(), c.limits(), view, resources)?;
    Ok(outlook)
}
