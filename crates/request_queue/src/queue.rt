ghost use Rattle.std.specs.Prelude.{◌≡◌, ◌<◌, ◌^◌, length, OnOk, OnErr};
ghost use Rattle.std.specs.Option.{option_map};
ghost use Rattle.request_queue.specs.Queue.{answered, ended, found, goes_again, is_full, most_requests, next_number, nothing_asked, oldest, ticked, with_number, with_request};

use crate::request::Request;
use std::alloc::{AllocError, Global};
use std::marker::Model;
use std::mem;

/// How many requests wait at most.
const MOST: usize = 64;

/// At which tick after it was sent the oldest goes again.
const AGAIN: u64 = 4;

/// The requests of a node, since its boot. Contracts see it as a `Queue`.
#[derive(Drop)]
pub struct RequestQueue {
    asked: u64,
    waiting: Vec<Request>,
    age: u64,
}

impl Model for RequestQueue {
    ghost use Rattle.request_queue.specs.Queue.{Queue};

    ghost Value = { Queue };

    ghost use Rattle.std.specs.Prelude.{◌<◌};

    ghost view = { λ q. record { asked = q.asked; waiting = q.waiting.items; age = q.age } };

    ghost invariant = { λ q. q.age < 4 };
}

impl RequestQueue {
    /// Nothing was asked since the boot.
    pub fn new(alloc: Global) -> RequestQueue
        ensures value { result ≡ nothing_asked }
    {
        RequestQueue {
            asked: 0,
            waiting: Vec::new(alloc),
            age: 0,
        }
    }

    /// The number of the next request or command, which is taken by it.
    pub fn take_number(&mut self) -> u64
        ensures value { result ≡ next_number self.old }
        ensures after { self.new ≡ with_number self.old }
    {
        self.asked = self.asked.saturating_add(1);
        self.asked
    }

    /// Whether as many requests wait as may.
    pub fn is_full(&self) -> bool
        ensures value { result ≡ is_full self.now }
    {
        self.waiting.len() >= MOST
    }

    /// The request waits behind the others. One that waits alone is to be sent in the same event. Without
    /// memory nothing is changed.
    pub fn push(&mut self, request: Request) -> Result<(), AllocError>
        requires room { length self.old.waiting < most_requests }
        ensures ok { OnOk result (self.new ≡ with_request self.old request) }
        ensures err { OnErr result (self.new ≡ self.old) }
    {
        let alone = self.waiting.is_empty();
        self.waiting.push(request)?;
        if alone {
            self.age = 0;
        }
        Ok(())
    }

    /// How many requests wait.
    pub fn len(&self) -> usize
        ensures value { result ≡ length self.now.waiting }
        ensures most { result < 2 ^ 63 }
    {
        self.waiting.len()
    }

    /// The request that waits longest: it is the one that the president has or is to get.
    pub fn oldest(&self) -> Option<&Request>
        ensures value { option_map (λ r. r.now) result ≡ oldest self.now }
    {
        self.waiting.first()
    }

    /// A tick of the node. Whether the oldest is to be sent again: at the fourth tick after it was sent.
    pub fn tick(&mut self) -> bool
        ensures value { result ≡ goes_again self.old }
        ensures after { self.new ≡ ticked self.old }
    {
        if self.waiting.is_empty() {
            self.age = 0;
            return false;
        }
        let due = self.age + 1 >= AGAIN;
        self.age = if due { 0 } else { self.age + 1 };
        due
    }

    /// The request of this number is answered, if it is the oldest: it waits no longer, and the next one
    /// is to be sent in the same event. Any other answer changes nothing.
    pub fn answer(&mut self, number: u64) -> Option<Request>
        ensures value { result ≡ found self.old.waiting number }
        ensures after { self.new ≡ answered self.old number }
    {
        if self.waiting.first()?.number != number {
            return None;
        }
        self.age = 0;
        Some(self.waiting.remove(0))
    }

    /// The membership ends: what waited, oldest first, waits no longer. The numbers go on.
    pub fn end(&mut self, alloc: Global) -> Vec<Request>
        ensures value { result.items ≡ self.old.waiting }
        ensures after { self.new ≡ ended self.old }
    {
        self.age = 0;
        mem::replace(&mut self.waiting, Vec::new(alloc))
    }
}
