//! Threads that stand still, and in how many replicas each does.
ghost use Rattle.std.specs.Prelude.{ℕ, ◌≡◌, ◌<◌, IfOk, length, true, false};
ghost use Rattle.ro_group.specs.Groups.{stands, is_ready, Changes, Releases};

use std::alloc::{AllocError, Global};
use std::marker::Model;

/// How many threads a replica has at most.
const MOST_THREADS: usize = ro_limits::MOST_THREADS as usize;

/// The group of each thread: the replicas in which it stands still.
#[derive(Drop)]
pub struct Groups {
    /// Of each replica, whether each of its threads stands still.
    rows: Vec<[bool; MOST_THREADS]>,
    /// Of each thread, in how many replicas it stands still.
    counts: [usize; MOST_THREADS],
}

impl Model for Groups {
    ghost use Rattle.ro_group.specs.Groups.{Groups, Counts};

    ghost Value = { Groups };

    ghost view = { λ g. g.rows.items };

    ghost invariant = { λ g. Counts g.rows.items g.counts };
}

impl Groups {
    /// The groups of so many replicas, in which no thread stands still.
    ///
    /// # Errors
    /// Where there is no memory.
    pub fn new(alloc: Global, replicas: u32) -> Result<Groups, AllocError>
        ensures count { IfOk result (λ groups. length groups ≡ replicas) }
        ensures none { IfOk result (λ groups. (replica thread : ℕ) → stands groups replica thread ≡ false) }
    {
        let mut rows = Vec::with_capacity(alloc, replicas as usize)?;
        for _ in 0..replicas {
            rows.push([false; MOST_THREADS])?;
        }
        Ok(Groups {
            rows,
            counts: [0; MOST_THREADS],
        })
    }

    /// Whether a thread stands still in a replica.
    pub fn stopped(&self, replica: u32, thread: u32) -> bool
        requires replica { replica < length self.now }
        requires thread { thread < 16 }
        ensures { result ≡ stands self.now replica thread }
    {
        self.rows[replica as usize][thread as usize]
    }

    /// Whether a thread stands still in every replica.
    pub fn ready(&self, thread: u32) -> bool
        requires { thread < 16 }
        ensures { result ≡ is_ready self.now thread }
    {
        self.counts[thread as usize] == self.rows.len()
    }

    /// A thread stands still in a replica from now on.
    pub fn note(&mut self, replica: u32, thread: u32)
        requires replica { replica < length self.old }
        requires thread { thread < 16 }
        ensures { Changes self.old self.new replica thread true }
    {
        self.set(replica as usize, thread as usize, true);
    }

    /// A thread doesn't stand still in a replica any more.
    pub fn cancel(&mut self, replica: u32, thread: u32)
        requires replica { replica < length self.old }
        requires thread { thread < 16 }
        ensures { Changes self.old self.new replica thread false }
    {
        self.set(replica as usize, thread as usize, false);
    }

    /// A thread doesn't stand still in any replica any more.
    pub fn release(&mut self, thread: u32)
        requires { thread < 16 }
        ensures { Releases self.old self.new thread }
    {
        for replica in 0..self.rows.len() {
            self.set(replica, thread as usize, false);
        }
    }

    // Notes anew whether a thread stands still in a replica.
    fn set(&mut self, replica: usize, thread: usize, stopped: bool)
        requires replica { replica < length self.old }
        requires thread { thread < 16 }
        ensures { Changes self.old self.new replica thread stopped }
    {
        let row = &mut self.rows[replica];
        if row[thread] == stopped {
            return;
        }
        row[thread] = stopped;
        if stopped {
            self.counts[thread] += 1;
        } else {
            self.counts[thread] -= 1;
        }
    }
}
