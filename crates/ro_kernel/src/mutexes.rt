//! The calls on mutexes. The kernel neither reads nor writes a mutex's own bytes.
ghost use Rattle.std.specs.Prelude.{◌≡◌};
ghost use Rattle.ro_mutex.specs.Owners.{owner_of};
ghost use Rattle.ro_kernel.specs.Serve.{answers, on_word, init_at, lock_at, trylock_at, unlock_at, is_owner, is_blocked};
ghost use Rattle.ro_kernel.specs.Served.{Brings};

use crate::answers::answer;
use crate::errors::{EAGAIN, EBUSY, EDEADLK, EFAULT, EPERM};
use crate::outcome::Served;
use crate::state::Kernel;
use ro_event::Call;
use ro_mutex::{Entered, Locked, Tried, Unlocked};

impl Kernel {
    /// pthread_mutex_destroy(m), pthread_cond_init(c, attr) and pthread_cond_destroy(c), which do nothing but look at the address.
    pub(crate) fn check_word(&mut self, thread: u32, call: Call) -> Served
        ensures { let kernel = self.old.kernel in Brings (on_word self.old.setup kernel thread call (answers kernel thread call 0)) self.old self.new result }
    {
        let value = if self.fits(call.a0) { 0 } else { EFAULT };
        answer(self.alloc, thread, call, value)
    }

    /// pthread_mutex_init(m, attr): m comes into the table, unless it is there.
    pub(crate) fn init(&mut self, thread: u32, call: Call) -> Served
        ensures { let kernel = self.old.kernel in Brings (on_word self.old.setup kernel thread call (init_at kernel thread call (owner_of kernel.owners call.a0))) self.old self.new result }
    {
        if !self.fits(call.a0) {
            return answer(self.alloc, thread, call, EFAULT);
        }
        let value = match self.mutexes.enter(call.a0) {
            Entered::Added | Entered::Known => 0,
            Entered::Full => EAGAIN,
        };
        answer(self.alloc, thread, call, value)
    }

    /// pthread_mutex_lock(m).
    pub(crate) fn lock(&mut self, thread: u32, call: Call) -> Served
        ensures { let kernel = self.old.kernel in Brings (on_word self.old.setup kernel thread call (lock_at kernel thread call (owner_of kernel.owners call.a0))) self.old self.new result }
    {
        if !self.fits(call.a0) {
            return answer(self.alloc, thread, call, EFAULT);
        }
        let value = match self.mutexes.lock(call.a0, thread) {
            Locked::Got => 0,
            Locked::Held => return Served::Blocked,
            Locked::Deadlock => EDEADLK,
            Locked::Full => EAGAIN,
        };
        answer(self.alloc, thread, call, value)
    }

    /// pthread_mutex_trylock(m).
    pub(crate) fn trylock(&mut self, thread: u32, call: Call) -> Served
        ensures { let kernel = self.old.kernel in Brings (on_word self.old.setup kernel thread call (trylock_at kernel thread call (owner_of kernel.owners call.a0))) self.old self.new result }
    {
        if !self.fits(call.a0) {
            return answer(self.alloc, thread, call, EFAULT);
        }
        let value = match self.mutexes.trylock(call.a0, thread) {
            Tried::Got => 0,
            Tried::Busy => EBUSY,
            Tried::Full => EAGAIN,
        };
        answer(self.alloc, thread, call, value)
    }

    /// pthread_mutex_unlock(m).
    pub(crate) fn unlock(&mut self, thread: u32, call: Call) -> Served
        ensures { let kernel = self.old.kernel in Brings (on_word self.old.setup kernel thread call (unlock_at kernel thread call (owner_of kernel.owners call.a0))) self.old self.new result }
    {
        if !self.fits(call.a0) {
            return answer(self.alloc, thread, call, EFAULT);
        }
        let value = match self.mutexes.unlock(call.a0, thread) {
            Unlocked::Freed => 0,
            Unlocked::NotOwner => EPERM,
        };
        answer(self.alloc, thread, call, value)
    }

    /// Whether pthread_mutex_lock(m) would block.
    pub(crate) fn lock_blocks(&self, thread: u32, call: Call) -> bool
        ensures { let kernel = self.now.kernel in result ≡ is_blocked (on_word self.now.setup kernel thread call (lock_at kernel thread call (owner_of kernel.owners call.a0))) }
    {
        if !self.fits(call.a0) {
            return false;
        }
        match self.mutexes.owner(call.a0) {
            Some(Some(owner)) => owner != thread,
            _ => false,
        }
    }

    /// Whether the thread holds a mutex.
    pub(crate) fn is_owner(&self, thread: u32, mutex: u32) -> bool
        ensures { result ≡ is_owner thread (owner_of self.now.kernel.owners mutex) }
    {
        self.mutexes.owner(mutex) == Some(Some(thread))
    }
}
