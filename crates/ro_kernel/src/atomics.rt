//! Atomic instructions: the kernel does what they do to their word, as it was found by more than half of the replicas.
//!
//! RISC-V Unprivileged ISA 20191213, chapter 8. An SC fails exactly where the standard lets it or wants it: its thread has no
//! reservation of the word, or the word is another one by now.
ghost use Rattle.std.specs.Prelude.{◌≡◌, true};
ghost use Rattle.ro_decode.specs.Table.{atomic_in};
ghost use Rattle.ro_kernel.specs.Kernel.{ranges_in, lives_on};
ghost use Rattle.ro_kernel.specs.Serve.{reaches, atomic_effect, stores_word, atomic_at, atomic_by};
ghost use Rattle.ro_kernel.specs.Served.{IsServe};

use crate::answers::{answer, word_bytes};
use crate::errors::{EFAULT, ENOSYS, negative};
use crate::outcome::Served;
use crate::reservations::{Reservation, end_all, is_reserved};
use crate::state::Kernel;
use ro_alu::amo;
use ro_decode::{AtomicOp, atomic_operation, destination};
use ro_event::{Call, Effect, Goes};
use ro_limits::PAGE_SIZE;
use ro_region::Kind;
use std::alloc::{AllocError, Global};

/// What every atomic instruction does: it answers a value in its rd and backs the page of its word.
fn accessed(alloc: Global, thread: u32, call: Call, word: u32, value: u32) -> Effect
    ensures { result ≡ atomic_effect thread call word value }
{
    Effect {
        answer: Some(value),
        register: destination(word),
        goes: Goes::Next,
        page: Some(call.a0 / PAGE_SIZE),
        ..Effect::quiet(alloc, thread)
    }
}

impl Kernel {
    /// The atomic instruction that a word spells, of a thread that had this reservation.
    pub(crate) fn atomic(
        &mut self,
        thread: u32,
        call: Call,
        word: u32,
        reservation: Option<Reservation>,
    ) -> Result<Served, AllocError>
        requires { lives_on self.old.kernel thread ≡ true }
        ensures { IsServe (atomic_by self.old.setup self.old.kernel thread call word reservation (atomic_in word)) self.old self.new result }
    {
        let Some(op) = atomic_operation(word) else {
            return Ok(answer(self.alloc, thread, call, negative(ENOSYS)));
        };
        if !self.reaches(op, call.a0) {
            return Ok(answer(self.alloc, thread, call, negative(EFAULT)));
        }
        self.access(thread, call, word, reservation, op)
    }

    /// The same of an operation that may access its word.
    #[tactic(auto, using(crate::proofs::Reserving::lives_below))]
    fn access(
        &mut self,
        thread: u32,
        call: Call,
        word: u32,
        reservation: Option<Reservation>,
        op: AtomicOp,
    ) -> Result<Served, AllocError>
        requires { lives_on self.old.kernel thread ≡ true }
        ensures { IsServe (atomic_at self.old.kernel thread call word reservation op) self.old self.new result }
    {
        match op {
            AtomicOp::LoadReserved => {
                self.reserved[thread as usize] = Some(Reservation {
                    address: call.a0,
                    word: call.a2,
                });
                Ok(Served::Done(accessed(self.alloc, thread, call, word, call.a2)))
            }
            AtomicOp::StoreConditional => {
                if is_reserved(reservation, call.a0, call.a2) {
                    self.store_word(thread, call, word, op, 0)
                } else {
                    Ok(Served::Done(accessed(self.alloc, thread, call, word, 1)))
                }
            }
            op => self.store_word(thread, call, word, op, call.a2),
        }
    }

    /// Stores what the operation makes of the word, and ends all reservations of it.
    fn store_word(
        &mut self,
        thread: u32,
        call: Call,
        word: u32,
        op: AtomicOp,
        value: u32,
    ) -> Result<Served, AllocError>
        ensures { IsServe (stores_word self.old.kernel thread call word op value) self.old self.new result }
    {
        let bytes = word_bytes(self.alloc, amo(op, call.a2, call.a1))?;
        end_all(&mut self.reserved, call.a0);
        Ok(Served::Done(Effect {
            place: call.a0,
            bytes,
            ..accessed(self.alloc, thread, call, word, value)
        }))
    }

    /// Whether an operation may access the word at an address.
    fn reaches(&self, op: AtomicOp, address: u32) -> bool
        ensures { result ≡ reaches (ranges_in self.now.setup self.now.kernel) op address }
    {
        match op {
            AtomicOp::LoadReserved => {
                address % 4 == 0 && self.regions.permits(address, 4, Kind::Read)
            }
            _ => self.fits(address),
        }
    }
}
