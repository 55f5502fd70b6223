//! The calls on condition variables. The kernel neither reads nor writes a condition variable's own bytes.
ghost use Rattle.std.specs.Prelude.{◌≡◌, ◌&&◌, None, Some};
ghost use Rattle.ro_mutex.specs.Owners.{owner_of};
ghost use Rattle.ro_condition.specs.Waiters.{wait_of, with_signal, with_broadcast};
ghost use Rattle.ro_kernel.specs.Serve.{on_word, is_free, wait_at, signals, is_blocked, is_parked};
ghost use Rattle.ro_kernel.specs.Served.{Brings, IsServe};

use crate::answers::answer;
use crate::errors::{EFAULT, EPERM};
use crate::outcome::Served;
use crate::state::Kernel;
use ro_condition::Waiter;
use ro_event::Call;
use std::alloc::AllocError;

impl Kernel {
    /// pthread_cond_wait(c, m): its first step, or its second where the thread waits already.
    pub(crate) fn wait(&mut self, thread: u32, call: Call) -> Result<Served, AllocError>
        ensures { let kernel = self.old.kernel in IsServe (on_word self.old.setup kernel thread call (wait_at self.old.setup kernel thread call (wait_of kernel.waiters thread))) self.old self.new result }
    {
        if !self.fits(call.a0) {
            return Ok(answer(self.alloc, thread, call, EFAULT));
        }
        match self.waiters.of(thread) {
            None => self.begin_wait(thread, call),
            Some(waiter) => Ok(self.end_wait(thread, call, waiter)),
        }
    }

    /// The first step of a wait: the mutex is free, and the thread waits.
    fn begin_wait(&mut self, thread: u32, call: Call) -> Result<Served, AllocError>
        ensures { IsServe (wait_at self.old.setup self.old.kernel thread call None) self.old self.new result }
    {
        if !self.fits(call.a1) {
            return Ok(answer(self.alloc, thread, call, EFAULT));
        }
        if !self.is_owner(thread, call.a1) {
            return Ok(answer(self.alloc, thread, call, EPERM));
        }
        self.waiters.begin(thread, call.a0)?;
        self.mutexes.unlock(call.a1, thread);
        Ok(Served::Parked)
    }

    /// Its second step: the mutex is the thread's again, where it was signalled and nobody holds the mutex.
    fn end_wait(&mut self, thread: u32, call: Call, waiter: Waiter) -> Served
        ensures { Brings (wait_at self.old.setup self.old.kernel thread call (Some waiter)) self.old self.new result }
    {
        if !self.can_end_wait(call, waiter) {
            return Served::Blocked;
        }
        self.mutexes.lock(call.a1, thread);
        self.waiters.end(thread);
        answer(self.alloc, thread, call, 0)
    }

    /// pthread_cond_signal(c).
    pub(crate) fn signal(&mut self, thread: u32, call: Call) -> Served
        ensures { let kernel = self.old.kernel in Brings (on_word self.old.setup kernel thread call (signals kernel thread call (with_signal kernel.waiters call.a0))) self.old self.new result }
    {
        if !self.fits(call.a0) {
            return answer(self.alloc, thread, call, EFAULT);
        }
        self.waiters.signal(call.a0);
        answer(self.alloc, thread, call, 0)
    }

    /// pthread_cond_broadcast(c).
    pub(crate) fn broadcast(&mut self, thread: u32, call: Call) -> Served
        ensures { let kernel = self.old.kernel in Brings (on_word self.old.setup kernel thread call (signals kernel thread call (with_broadcast kernel.waiters call.a0))) self.old self.new result }
    {
        if !self.fits(call.a0) {
            return answer(self.alloc, thread, call, EFAULT);
        }
        self.waiters.broadcast(call.a0);
        answer(self.alloc, thread, call, 0)
    }

    /// Whether pthread_cond_wait(c, m) would block.
    pub(crate) fn wait_blocks(&self, thread: u32, call: Call) -> bool
        ensures { let kernel = self.now.kernel in result ≡ is_blocked (on_word self.now.setup kernel thread call (wait_at self.now.setup kernel thread call (wait_of kernel.waiters thread))) }
    {
        if !self.fits(call.a0) {
            return false;
        }
        match self.waiters.of(thread) {
            None => false,
            Some(waiter) => !self.can_end_wait(call, waiter),
        }
    }

    /// Whether pthread_cond_wait(c, m) would do its first step.
    pub(crate) fn wait_parks(&self, thread: u32, call: Call) -> bool
        ensures { let kernel = self.now.kernel in result ≡ is_parked (on_word self.now.setup kernel thread call (wait_at self.now.setup kernel thread call (wait_of kernel.waiters thread))) }
    {
        if !self.fits(call.a0) {
            return false;
        }
        match self.waiters.of(thread) {
            None => self.fits(call.a1) && self.is_owner(thread, call.a1),
            Some(_) => false,
        }
    }

    /// Whether a wait can end.
    fn can_end_wait(&self, call: Call, waiter: Waiter) -> bool
        ensures { result ≡ (waiter.signalled && is_free (owner_of self.now.kernel.owners call.a1)) }
    {
        waiter.signalled && self.mutexes.owner(call.a1) == Some(None)
    }
}
