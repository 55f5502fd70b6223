//! The calls on threads.
ghost use Rattle.std.specs.Prelude.{◌≡◌, true, Some, slice_get};
ghost use Rattle.ro_kernel.specs.Kernel.{lives_on};
ghost use Rattle.ro_kernel.specs.Serve.{serve_create, serve_join, serve_join_at, joined, serve_exit, is_blocked};
ghost use Rattle.ro_kernel.specs.Served.{Brings, IsServe};

use crate::Life;
use crate::answers::{answer, stores, word_bytes};
use crate::errors::{EAGAIN, EDEADLK, EFAULT, EINVAL, ESRCH};
use crate::outcome::Served;
use crate::state::Kernel;
use ro_event::{Call, Effect, Goes, Made};
use ro_journal::How;
use ro_limits::MOST_THREADS;
use std::alloc::AllocError;

impl Kernel {
    /// pthread_create(p, attr, start, arg).
    pub(crate) fn create(&mut self, thread: u32, call: Call) -> Result<Served, AllocError>
        ensures { IsServe (serve_create self.old.setup self.old.kernel thread call) self.old self.new result }
    {
        let number = self.made();
        if call.a1 != 0 || call.a2 % 4 != 0 {
            return Ok(answer(self.alloc, thread, call, EINVAL));
        }
        if !self.fits(call.a0) {
            return Ok(answer(self.alloc, thread, call, EFAULT));
        }
        if number >= MOST_THREADS {
            return Ok(answer(self.alloc, thread, call, EAGAIN));
        }
        let bytes = word_bytes(self.alloc, number)?;
        self.lives.push(Life::Live)?;
        Ok(Served::Done(Effect {
            answer: Some(0),
            goes: Goes::Returns,
            made: Some(Made {
                start: call.a2,
                argument: call.a3,
                creator: thread,
            }),
            ..Effect::storing(thread, call.a0, bytes)
        }))
    }

    /// pthread_join(t, p).
    pub(crate) fn join(&mut self, thread: u32, call: Call) -> Result<Served, AllocError>
        ensures { IsServe (serve_join self.old.setup self.old.kernel thread call) self.old self.new result }
    {
        match self.lives.get(call.a0 as usize).copied() {
            Some(life) => self.join_made(thread, call, life),
            None => Ok(answer(self.alloc, thread, call, ESRCH)),
        }
    }

    /// A join of a thread that was made, by its life.
    fn join_made(&mut self, thread: u32, call: Call, life: Life) -> Result<Served, AllocError>
        requires { slice_get self.old.kernel.lives call.a0 ≡ Some life }
        ensures { IsServe (serve_join_at self.old.setup self.old.kernel thread call (Some life)) self.old self.new result }
    {
        if call.a0 == thread {
            return Ok(answer(self.alloc, thread, call, EDEADLK));
        }
        let refused = call.a1 != 0 && !self.fits(call.a1);
        match life {
            Life::Joined => Ok(answer(self.alloc, thread, call, ESRCH)),
            _ if refused => Ok(answer(self.alloc, thread, call, EFAULT)),
            Life::Live => Ok(Served::Blocked),
            Life::Exited(value) => self.end_join(thread, call, value),
        }
    }

    /// The end of a join: the exit value is stored, unless p is 0.
    fn end_join(&mut self, thread: u32, call: Call, value: u32) -> Result<Served, AllocError>
        requires { slice_get self.old.kernel.lives call.a0 ≡ Some (Life.Exited value) }
        ensures { IsServe (joined self.old.setup self.old.kernel thread call value) self.old self.new result }
    {
        let bytes = if call.a1 == 0 {
            Vec::new(self.alloc)
        } else {
            word_bytes(self.alloc, value)?
        };
        self.lives[call.a0 as usize] = Life::Joined;
        Ok(stores(thread, call, 0, call.a1, bytes))
    }

    /// Whether pthread_join(t, p) would block.
    pub(crate) fn join_blocks(&self, thread: u32, call: Call) -> bool
        ensures { result ≡ is_blocked (serve_join self.now.setup self.now.kernel thread call) }
    {
        self.lives_on(call.a0) && call.a0 != thread && (call.a1 == 0 || self.fits(call.a1))
    }

    /// pthread_exit(v). The program ends with its last live thread.
    pub(crate) fn exit(&mut self, thread: u32, call: Call) -> Served
        requires { lives_on self.old.kernel thread ≡ true }
        ensures { Brings (serve_exit self.old.kernel thread call) self.old self.new result }
    {
        self.lives[thread as usize] = Life::Exited(call.a0);
        if !self.any_live() {
            return Served::Ends(How::Exit(0));
        }
        Served::Done(Effect::quiet(self.alloc, thread))
    }
}
