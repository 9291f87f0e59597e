ghost use Rattle.std.specs.Prelude.{◌≡◌, None, Some, IfSome, OnOk, OnErr, count_by, is_some, IsTrue, ◌↔◌};
ghost use Rattle.std.specs.Option.{option_copied};
ghost use Rattle.rg_view.specs.Orders.{no_orders, order_of, orders_with, orders_without, OrdersAfter};

use crate::memory::NoMemory;
use cl_base::{Method, Name, NodeId};
use slab::Slab;
use std::alloc::Global;
use std::marker::Model;

/// An order that was given to a node and is not done.
#[derive(Clone, Copy, Debug)]
pub struct Outstanding {
    /// The node that is to carry it out.
    pub node: NodeId,
    /// The order's number.
    pub number: u64,
    /// The resource.
    pub resource: Name,
    /// The method, or None to clear the resource's marks.
    pub method: Option<Method>,
}

/// The outstanding orders, at most one a node. Contracts see the order of each node, or None, from
/// node 1 to the greatest.
#[derive(Debug, Drop)]
pub struct Orders {
    orders: Slab<Outstanding>,
    /// Where each node's order is kept, node 1 first.
    keys: [Option<usize>; 32],
}

impl Model for Orders {
    ghost use Rattle.std.specs.Prelude.{List, Option, map};
    ghost use Rattle.std.specs.Option.{option_and_then};
    ghost use Rattle.slab.specs.Slab.{get};
    ghost use Rattle.rg_view.specs.declared.orders.Outstanding.{Outstanding};

    ghost Value = { List (Option Outstanding) };

    ghost use Rattle.rg_view.specs.Kept.{kept, IsKept};

    ghost view = { λ o. kept o.orders o.keys };

    ghost invariant = { λ o. IsKept o.orders o.keys };
}

impl Orders {
    /// No orders.
    pub fn new(alloc: Global) -> Orders
        ensures value { result ≡ no_orders }
    {
        Orders {
            orders: Slab::new(alloc),
            keys: [None; 32],
        }
    }

    /// The node's order.
    pub fn at(&self, n: NodeId) -> Option<&Outstanding>
        ensures value { option_copied result ≡ order_of self.now n }
        ensures node { IfSome result (λ o. o.now.node ≡ n) }
    {
        let key = self.keys[n.number() as usize - 1]?;
        self.orders.get(key)
    }

    /// Adds an order of a node that has none.
    pub fn put(&mut self, o: Outstanding) -> Result<(), NoMemory>
        requires { order_of self.old o.node ≡ None }
        ensures ok { OnOk result (self.new ≡ orders_with self.old o) }
        ensures after { OnOk result (OrdersAfter self.old o.node (Some o) self.new) }
        ensures err { OnErr result (self.new ≡ self.old) }
    {
        let place = o.node.number() as usize - 1;
        match self.orders.insert(o) {
            Ok(key) => {
                self.keys[place] = Some(key);
                Ok(())
            }
            Err(_) => Err(NoMemory),
        }
    }

    /// Takes the node's order out, if it has one.
    pub fn take(&mut self, n: NodeId) -> Option<Outstanding>
        ensures value { result ≡ order_of self.old n }
        ensures node { IfSome result (λ o. o.node ≡ n) }
        ensures rest { self.new ≡ orders_without self.old n }
        ensures after { OrdersAfter self.old n None self.new }
    {
        let place = n.number() as usize - 1;
        let key = self.keys[place]?;
        self.keys[place] = None;
        self.orders.try_remove(key)
    }

    /// How many orders there are.
    pub fn len(&self) -> usize
        ensures value { result ≡ count_by is_some self.now }
    {
        self.orders.len()
    }

    /// Whether there are none.
    pub fn is_empty(&self) -> bool
        ensures value { IsTrue result ↔ (count_by is_some self.now ≡ 0) }
    {
        self.orders.is_empty()
    }
}
