//! Serving a call, whichever it is.
ghost use Rattle.std.specs.Prelude.{◌≡◌, true, OnErr};
ghost use Rattle.ro_kernel.specs.Kernel.{lives_on};
ghost use Rattle.ro_kernel.specs.Serve.{serve, serve_by, serve_function, blocks, parks, serves};
ghost use Rattle.ro_kernel.specs.Served.{IsServe, may_take_memory};

use crate::answers::answer;
use crate::outcome::Served;
use crate::reservations::Reservation;
use crate::state::Kernel;
use ro_event::{Call, Function, Which};
use std::alloc::AllocError;

impl Kernel {
    /// Serves a call of a live thread, or says that it blocks or how the program ends. Where memory is wanting for
    /// the bytes that it stores or the place of one who waits, nothing changes.
    #[tactic(auto, unfolding(crate::specs::Serve::serve), using(crate::proofs::Reserving::given_back))]
    pub fn serve(&mut self, thread: u32, call: Call) -> Result<Served, AllocError>
        requires { lives_on self.old.kernel thread ≡ true }
        ensures served { IsServe (serve self.old.setup self.old.kernel thread call) self.old self.new result }
        ensures memory { OnErr result (may_take_memory call.which ≡ true) }
    {
        let reservation = self.release(thread);
        match self.serve_released(thread, call, reservation) {
            Ok(Served::Blocked) => {
                self.restore(thread, reservation);
                Ok(Served::Blocked)
            }
            Err(error) => {
                self.restore(thread, reservation);
                Err(error)
            }
            served => served,
        }
    }

    /// Serves a call of a thread that had this reservation, and has none now.
    fn serve_released(
        &mut self,
        thread: u32,
        call: Call,
        reservation: Option<Reservation>,
    ) -> Result<Served, AllocError>
        requires { lives_on self.old.kernel thread ≡ true }
        ensures served { IsServe (serve_by self.old.setup self.old.kernel thread call reservation call.which) self.old self.new result }
        ensures memory { OnErr result (may_take_memory call.which ≡ true) }
    {
        match call.which {
            Which::System(number) => self.system(thread, call, number),
            Which::Function(function) => self.function(thread, call, function),
            Which::Atomic(word) => self.atomic(thread, call, word, reservation),
        }
    }

    // Serves a call of a function of POSIX threads.
    fn function(
        &mut self,
        thread: u32,
        call: Call,
        function: Function,
    ) -> Result<Served, AllocError>
        requires { lives_on self.old.kernel thread ≡ true }
        ensures served { IsServe (serve_function self.old.setup self.old.kernel thread call function) self.old self.new result }
        ensures memory { OnErr result (may_take_memory (Which.Function function) ≡ true) }
    {
        match function {
            Function::Create => self.create(thread, call),
            Function::Join => self.join(thread, call),
            Function::Exit => Ok(self.exit(thread, call)),
            Function::ThreadSelf => Ok(answer(self.alloc, thread, call, thread)),
            Function::MutexInit => Ok(self.init(thread, call)),
            Function::MutexDestroy | Function::ConditionInit | Function::ConditionDestroy => {
                Ok(self.check_word(thread, call))
            }
            Function::Lock => Ok(self.lock(thread, call)),
            Function::TryLock => Ok(self.trylock(thread, call)),
            Function::Unlock => Ok(self.unlock(thread, call)),
            Function::Wait => self.wait(thread, call),
            Function::Signal => Ok(self.signal(thread, call)),
            Function::Broadcast => Ok(self.broadcast(thread, call)),
        }
    }

    /// Whether a call of the thread would block now.
    #[tactic(auto, unfolding(crate::specs::Serve::serve))]
    pub fn blocks(&self, thread: u32, call: Call) -> bool
        ensures { result ≡ blocks self.now.setup self.now.kernel thread call }
    {
        match call.which {
            Which::Function(Function::Join) => self.join_blocks(thread, call),
            Which::Function(Function::Lock) => self.lock_blocks(thread, call),
            Which::Function(Function::Wait) => self.wait_blocks(thread, call),
            _ => false,
        }
    }

    /// Whether a call of the thread would do its first step now, and block before its second.
    #[tactic(auto, unfolding(crate::specs::Serve::serve))]
    pub fn parks(&self, thread: u32, call: Call) -> bool
        ensures { result ≡ parks self.now.setup self.now.kernel thread call }
    {
        match call.which {
            Which::Function(Function::Wait) => self.wait_parks(thread, call),
            _ => false,
        }
    }

    /// Whether all of a call would be done now: so one that blocked can be served.
    #[tactic(auto, using(crate::proofs::Outcomes::outcome_laws))]
    pub fn ready(&self, thread: u32, call: Call) -> bool
        ensures { result ≡ serves self.now.setup self.now.kernel thread call }
    {
        !self.blocks(thread, call) && !self.parks(thread, call)
    }
}
