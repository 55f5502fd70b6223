//! The threads that wait, in order.
ghost use Rattle.std.specs.Prelude.{◌≡◌, ◌++◌, ◌∷◌, [], false, OnOk, OnErr};
ghost use Rattle.std.specs.List.{position};
ghost use Rattle.ro_condition.specs.Waiters.{wait_of, is_of, waits_for, without, heard_of, with_signal, with_broadcast};

use std::alloc::{AllocError, Global};
use std::marker::Model;

/// A thread that waits on a condition variable.
#[derive(Clone, Copy, PartialEq, Eq, Debug)]
pub struct Waiter {
    /// Its number.
    pub thread: u32,
    /// The address of the condition variable.
    pub condition: u32,
    /// Whether a signal or a broadcast has reached it.
    pub signalled: bool,
}

impl Waiter {
    fn waits_for(&self, condition: u32) -> bool
        ensures { result ≡ waits_for condition self.now }
    {
        self.condition == condition && !self.signalled
    }

    fn hear(&mut self, condition: u32)
        ensures { self.new ≡ heard_of condition self.old }
    {
        if self.waits_for(condition) {
            self.signalled = true;
        }
    }
}

/// The threads that wait on condition variables, in the order in which they began.
#[derive(Drop)]
pub struct Waiters {
    waiters: Vec<Waiter>,
}

impl Model for Waiters {
    ghost use Rattle.std.specs.Prelude.{List};
    ghost use Rattle.ro_condition.specs.declared.waiters.Waiter.{Waiter};

    ghost Value = { List Waiter };

    ghost view = { λ w. w.waiters.items };
}

impl Waiters {
    /// Nobody waits.
    pub fn new(alloc: Global) -> Waiters
        ensures { result ≡ [] }
    {
        Waiters {
            waiters: Vec::new(alloc),
        }
    }

    /// The wait of a thread, where it waits.
    pub fn of(&self, thread: u32) -> Option<Waiter>
        ensures { result ≡ wait_of self.now thread }
    {
        let place = self.place_of(thread)?;
        Some(self.waiters[place])
    }

    /// A thread begins to wait, last of all. It fails only for want of memory, and then changes nothing.
    pub fn begin(&mut self, thread: u32, condition: u32) -> Result<(), AllocError>
        ensures begun { OnOk result (self.new ≡ self.old ++ record { thread = thread; condition = condition; signalled = false } ∷ []) }
        ensures kept { OnErr result (self.new ≡ self.old) }
    {
        self.waiters.push(Waiter {
            thread,
            condition,
            signalled: false,
        })?;
        Ok(())
    }

    /// A thread waits no longer.
    pub fn end(&mut self, thread: u32)
        ensures { self.new ≡ without self.old thread }
    {
        if let Some(place) = self.place_of(thread) {
            self.waiters.remove(place);
        }
    }

    /// The first that waits on the condition variable and was not signalled is, if any.
    pub fn signal(&mut self, condition: u32)
        ensures { self.new ≡ with_signal self.old condition }
    {
        if let Some(place) = self.first_for(condition) {
            self.waiters[place].signalled = true;
        }
    }

    /// All that wait on the condition variable are signalled.
    pub fn broadcast(&mut self, condition: u32)
        ensures { self.new ≡ with_broadcast self.old condition }
    {
        tell_all(&mut self.waiters, condition);
    }

    fn place_of(&self, thread: u32) -> Option<usize>
        ensures { result ≡ position (is_of thread) self.now }
    {
        self.waiters
            .iter()
            .position(|waiter| waiter.thread == thread)
    }

    fn first_for(&self, condition: u32) -> Option<usize>
        ensures { result ≡ position (waits_for condition) self.now }
    {
        self.waiters
            .iter()
            .position(|waiter| waiter.waits_for(condition))
    }
}

/// Each that waits on the condition variable is signalled.
fn tell_all(waiters: &mut [Waiter], condition: u32)
    ensures { waiters.new ≡ with_broadcast waiters.old condition }
{
    for waiter in waiters.iter_mut() {
        waiter.hear(condition);
    }
}
