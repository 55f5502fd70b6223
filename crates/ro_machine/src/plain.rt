//! The machine.
ghost use Rattle.std.specs.Prelude.{◌≡◌, ℕ, List, [], None, Some, IfOk, IfErr, IfSome, OnErr, OnOk, length, replicate, true, ◌∷◌, ◌≤◌, ◌<◌, slice_get, vec_capacity};
ghost use Rattle.std.specs.Arc.{arc_value};
ghost use Rattle.ro_exec.specs.declared.Cpu.{Cpu as CpuSeen};
ghost use Rattle.ro_exec.specs.Threads.{first_cpu as first};
ghost use Rattle.ro_kernel.specs.Kernel.{lives_on};
ghost use Rattle.ro_plain.specs.Machine.{opening, layout_in, next_of};
ghost use Rattle.ro_machine.specs.declared.watching.Relation.TheVariants.{Nothing};
ghost use Rattle.ro_machine.specs.Parts.{Plays};
ghost use Rattle.ro_machine.specs.Seen.{machine_of, Steps, Refuses, SameMachine, StepsFrom, RefusesAt};
ghost use Rattle.ro_machine.specs.Watched.{LooksAt, Sees, TellsNext, TellsStop};
ghost use Rattle.ro_machine.specs.Lanes.{IsOpen, closed};

use crate::backing::execute;
use crate::calls::serve;
use crate::errors::StepError;
use crate::lane::{Lane, look_quickly};
use crate::looking::{Look, NOTHING_SEEN, look_ahead};
use crate::watching::{NO_BYTES, Relation, Watched, Went, told_of};
use ro_event::Stop;
use ro_exec::{Bank, Cpu, Learnt, NONE, Open, Step, quick_step};
use ro_image::Executable;
use ro_journal::How;
use ro_kernel::Kernel;
use ro_limits::{MOST_BYTES, MOST_THREADS};
use ro_pages::Pages;
use ro_replica::{first_cpu, pages_of};
use ro_thread::{Thread, run};
use std::alloc::{AllocError, Global};
use std::marker::Model;
use std::sync::Arc;

/// How many threads can be made.
const THREADS: usize = MOST_THREADS as usize;

/// How many bytes one step can write.
pub(crate) const MOST_WRITTEN: usize = MOST_BYTES as usize;

/// The unreplicated machine of a program and an input: one memory, whose pages are backed as they are touched, and threads
/// that step in any order.
#[derive(Drop)]
pub struct Plain {
    image: Arc<Executable>,
    pages: Pages,
    cpus: Vec<Cpu>,
    kernel: Kernel,
    ended: Option<How>,
    /// What the last step wrote.
    written: Vec<u8>,
}

impl Model for Plain {
    ghost use Rattle.std.specs.Arc.{arc_value};
    ghost use Rattle.std.specs.Prelude.{vec_capacity};
    ghost use Rattle.std.specs.Coded.{codes};
    ghost use Rattle.ro_pages.specs.Held.{coded_held};
    ghost use Rattle.ro_machine.specs.Parts.{Plays};
    ghost use Rattle.ro_machine.specs.Seen.{PlainOf, IsWhole};

    ghost Value = { PlainOf };

    ghost coded = { Prim.hlevel (codes, coded_held) };

    ghost view = { λ p. record { program = record { image = arc_value p.image; input = p.kernel.setup.input }; held = p.pages; cpus = p.cpus.items; kernel = p.kernel.kernel; ended = p.ended; written = p.written.items } };

    ghost invariant = { λ p. IsWhole (arc_value p.image) p.kernel p.cpus.items p.written.items (vec_capacity p.cpus) (vec_capacity p.written) };
}

impl Plain {
    /// The machine at the opening of a program, which it shares.
    ///
    /// # Errors
    /// Where there is no memory.
    pub fn begin(alloc: Global, image: &Arc<Executable>, input: &[u8]) -> Result<Plain, AllocError>
        ensures program { IfOk result (λ p. p.program ≡ record { image = arc_value image.now; input = input.now }) }
        ensures opening { IfOk result (λ p. machine_of p [] ≡ opening (record { image = arc_value image.now; input = input.now })) }
        ensures written { IfOk result (λ p. p.written ≡ []) }
    {
        let pages = pages_of(alloc, image.pieces())?;
        let cpus = first_cpus(alloc, image.entry())?;
        let kernel = Kernel::new(alloc, image.heap(), image.ranges(), input)?;
        let written = Vec::with_capacity(alloc, MOST_WRITTEN)?;
        Ok(Plain {
            image: Arc::try_clone(image)?,
            pages,
            cpus,
            kernel,
            ended: None,
            written,
        })
    }

    /// How the program ended, if it has: by an exit or a trap.
    pub fn ended(&self) -> Option<How>
        ensures { result ≡ self.now.ended }
    {
        self.ended
    }

    /// The number of threads that were ever made.
    pub fn made(&self) -> u32
        ensures { result ≡ length self.now.cpus }
    {
        self.kernel.made()
    }

    /// The bytes that the last step wrote.
    pub fn written(&self) -> &[u8]
        ensures bytes { result.now ≡ self.now.written }
        ensures most { length result.now ≤ 4096 }
    {
        self.written.as_slice()
    }

    /// Takes a step of a thread: one instruction, a whole call, or the trap at which it stands.
    ///
    /// # Errors
    /// `NoStep` where there is no such step: the program has ended, the thread does not live, or its call blocks; and
    /// `NoMemory`. It is the same machine then.
    pub fn step(&mut self, thread: u32) -> Result<(), StepError>
        ensures program { self.new.program ≡ self.old.program }
        ensures steps { OnOk result (Steps self.old thread self.new) }
        ensures refused { IfErr result (Refuses self.old thread) }
        ensures same { OnErr result (SameMachine self.new self.old) }
        ensures nothing { OnErr result (self.new.written ≡ []) }
    {
        self.go(thread)?;
        Ok(())
    }

    /// Takes a step of a thread, as `step` does, and tells which bytes it accessed and what it means for the order of the
    /// threads' steps.
    ///
    /// # Errors
    /// As of `step`.
    pub fn watch(&mut self, thread: u32) -> Result<Watched, StepError>
        ensures program { self.new.program ≡ self.old.program }
        ensures steps { OnOk result (Steps self.old thread self.new) }
        ensures sees { IfOk result (λ watched. (output : List ℕ) → Sees self.old.program (machine_of self.old output) thread watched) }
        ensures refused { IfErr result (Refuses self.old thread) }
        ensures same { OnErr result (SameMachine self.new self.old) }
        ensures nothing { OnErr result (self.new.written ≡ []) }
    {
        let look = self.look_at(thread);
        let made = self.kernel.made();
        let went = self.go(thread)?;
        Ok(told_of(look, went, made))
    }

    /// Takes the registers of a thread out, for plain steps of it in a row; none where it has no step.
    pub fn open(&mut self, thread: u32) -> Option<Lane>
        ensures program { self.new.program ≡ self.old.program }
        ensures same { SameMachine self.new self.old }
        ensures thread { IfSome result (λ lane. lane.thread ≡ thread) }
        ensures opened { IfSome result (λ lane. IsOpen self.new lane) }
        ensures closed { IfSome result (λ lane. closed self.new lane ≡ self.new) }
    {
        self.written.truncate(0);
        if self.ended.is_some() || !self.kernel.lives_on(thread) || thread as usize >= THREADS {
            return None;
        }
        Some(self.lane_of(thread))
    }

    // The registers of a thread that lives, where the program has not ended.
    fn lane_of(&self, thread: u32) -> Lane
        requires going { self.now.ended ≡ None }
        requires live { lives_on self.now.kernel thread ≡ true }
        requires empty { self.now.written ≡ [] }
        requires few { thread < 16 }
        ensures thread { result.thread ≡ thread }
        ensures opened { IsOpen self.now result }
        ensures closed { closed self.now result ≡ self.now }
    {
        let cpu = self.cpus[thread as usize];
        let mut code = NONE;
        code.follow(
            cpu.pc,
            &self.pages,
            self.kernel.regions(),
            self.image.calls(),
        );
        Lane {
            thread,
            registers: Bank::new(&cpu.registers),
            pc: cpu.pc,
            code,
            reads: Open::new(),
            writes: Open::new(),
        }
    }

    /// Takes a step of an open thread that is one plain instruction of its stretch of code, and tells which bytes it accessed;
    /// or none, and then nothing changes.
    #[inline(always)]
    pub fn watch_quickly(&mut self, lane: &mut Lane) -> Option<Watched>
        requires opened { IsOpen self.old lane.old }
        ensures opened { IsOpen self.new lane.new }
        ensures thread { lane.new.thread ≡ lane.old.thread }
        ensures program { self.new.program ≡ self.old.program }
        ensures steps { IfSome result (λ watched. Steps (closed self.old lane.old) lane.old.thread (closed self.new lane.new)) }
        ensures sees { IfSome result (λ watched. (output : List ℕ) → Sees self.old.program (machine_of (closed self.old lane.old) output) lane.old.thread watched) }
        ensures plain { IfSome result (λ watched. watched.relation ≡ Nothing) }
        ensures alone { IfSome result (λ watched. watched.atomic.count ≡ 0) }
        ensures same { result ≡ None → SameMachine (closed self.new lane.new) (closed self.old lane.old) }
    {
        let look = look_quickly(lane, &self.pages)?;
        // so that code is looked up wherever the stretch doesn't hold the pc
        let mut until = lane.pc;
        let done = quick_step::<Pages, Lane>(
            &mut lane.registers,
            &mut lane.pc,
            &mut self.pages,
            &mut lane.reads,
            &mut lane.writes,
            self.kernel.regions(),
            self.image.calls(),
            &mut lane.code,
            &mut until,
        );
        if !done {
            return None;
        }
        Some(Watched {
            loaded: look.loads,
            code: look.code,
            stored: look.stores,
            atomic: NO_BYTES,
            relation: Relation::Nothing,
        })
    }

    /// Puts the registers of an open thread back.
    pub fn close(&mut self, lane: &Lane)
        requires { IsOpen self.old lane.now }
        ensures { self.new ≡ closed self.old lane.now }
    {
        self.cpus[lane.thread as usize] = Cpu {
            registers: lane.registers.registers(),
            pc: lane.pc,
        };
    }

    // What is known of the next step of a thread.
    fn look_at(&self, thread: u32) -> Look
        ensures { (cpu : CpuSeen) → slice_get self.now.cpus thread ≡ Some cpu → LooksAt (layout_in self.now.program self.now.kernel) (machine_of self.now []).memory cpu result }
    {
        match self.cpus.get(thread as usize) {
            Some(cpu) => look_ahead(cpu, &self.pages, self.kernel.regions(), self.image.calls()),
            None => NOTHING_SEEN,
        }
    }

    // A step, and what it was.
    fn go(&mut self, thread: u32) -> Result<Went, StepError>
        ensures program { self.new.program ≡ self.old.program }
        ensures steps { OnOk result (Steps self.old thread self.new) }
        ensures told { IfOk result (λ went. (cpu : CpuSeen) → slice_get self.old.cpus thread ≡ Some cpu → TellsNext self.old.program (machine_of self.old []) thread (next_of self.old.program (machine_of self.old []) cpu) went) }
        ensures refused { IfErr result (Refuses self.old thread) }
        ensures same { OnErr result (SameMachine self.new self.old) }
        ensures nothing { OnErr result (self.new.written ≡ []) }
    {
        self.written.truncate(0);
        if self.ended.is_some() || !self.kernel.lives_on(thread) {
            return Err(StepError::NoStep);
        }
        self.go_on(thread)
    }

    /// Takes plain instructions of a thread, `most` at most, up to the next step that is none, or that needs a page which is
    /// not backed; answers how many it took.
    pub(crate) fn run_on(&mut self, thread: u32, most: u32) -> u32
        ensures count { result ≤ most }
        ensures plays { Plays self.old (replicate result thread) self.new [] }
    {
        if !self.kernel.lives_on(thread) || self.ended.is_some() {
            return 0;
        }
        self.run_some(thread, most)
    }

    // The same where the program has not ended and the thread lives.
    fn run_some(&mut self, thread: u32, most: u32) -> u32
        requires going { self.old.ended ≡ None }
        requires live { lives_on self.old.kernel thread ≡ true }
        ensures count { result ≤ most }
        ensures plays { Plays self.old (replicate result thread) self.new [] }
    {
        let mut running = Thread {
            cpu: self.cpus[thread as usize],
            since: 0,
            done: 0,
            stop: None,
        };
        let mut learnt = Learnt::nothing();
        let ran = run(
            &mut running,
            &mut self.pages,
            &mut learnt,
            self.kernel.regions(),
            self.image.calls(),
            most,
            u32::MAX,
        );
        self.cpus[thread as usize] = running.cpu;
        ran.count
    }

    // A step where the program has not ended and the thread lives.
    fn go_on(&mut self, thread: u32) -> Result<Went, StepError>
        requires going { self.old.ended ≡ None }
        requires live { lives_on self.old.kernel thread ≡ true }
        requires empty { self.old.written ≡ [] }
        ensures program { self.new.program ≡ self.old.program }
        ensures steps { OnOk result (Steps self.old thread self.new) }
        ensures told { IfOk result (λ went. (cpu : CpuSeen) → slice_get self.old.cpus thread ≡ Some cpu → TellsNext self.old.program (machine_of self.old []) thread (next_of self.old.program (machine_of self.old []) cpu) went) }
        ensures refused { IfErr result (Refuses self.old thread) }
        ensures same { OnErr result (SameMachine self.new self.old) }
        ensures nothing { OnErr result (self.new.written ≡ []) }
    {
        let done = execute(
            &mut self.cpus[thread as usize],
            &mut self.pages,
            self.kernel.regions(),
            self.image.calls(),
        )?;
        match done {
            Step::Did => Ok(Went::Executed),
            Step::Stopped(stop) => self.stand(thread, stop),
        }
    }

    // The step of a thread that stands at this stop.
    fn stand(&mut self, thread: u32, stop: Stop) -> Result<Went, StepError>
        requires going { self.old.ended ≡ None }
        requires live { lives_on self.old.kernel thread ≡ true }
        requires empty { self.old.written ≡ [] }
        ensures program { self.new.program ≡ self.old.program }
        ensures steps { OnOk result (StepsFrom self.old thread stop self.new) }
        ensures told { IfOk result (TellsStop self.old.program (machine_of self.old []) thread stop) }
        ensures refused { IfErr result (RefusesAt self.old thread stop) }
        ensures same { OnErr result (SameMachine self.new self.old) }
        ensures nothing { OnErr result (self.new.written ≡ []) }
    {
        match stop {
            Stop::Calls(call) => {
                let came = serve(
                    &mut self.kernel,
                    &mut self.pages,
                    &mut self.cpus,
                    &mut self.written,
                    thread,
                    call,
                )?;
                self.ended = came.how;
                Ok(Went::Called(came))
            }
            Stop::Trap(cause) => {
                self.ended = Some(How::Trap(cause));
                Ok(Went::Trapped)
            }
            // The machine has neither of these.
            Stop::PageFault(_) | Stop::Watchdog => Err(StepError::NoStep),
        }
    }
}

/// The first thread, with places for the others.
fn first_cpus(alloc: Global, entry: u32) -> Result<Vec<Cpu>, AllocError>
    ensures first { IfOk result (λ cpus. cpus.items ≡ first entry ∷ []) }
    ensures places { IfOk result (λ cpus. 16 ≤ vec_capacity cpus) }
{
    let mut cpus = Vec::with_capacity(alloc, THREADS)?;
    cpus.push(first_cpu(entry))?;
    Ok(cpus)
}
