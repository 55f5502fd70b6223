//! The event of a vote: what the winner's stop comes to.
ghost use Rattle.std.specs.Prelude.{ℕ, ◌≡◌, ◌≢◌, ◌<◌, List, IfSome, OnErr, OnOk, length, [], Some, None, true, false, if◌then◌else◌};
ghost use Rattle.ro_kernel.specs.Kernel.{lives_on, Kernel as KernelSeen};
ghost use Rattle.ro_kernel.specs.Mapped.{IsMapped};
ghost use Rattle.ro_kernel.specs.Serve.{put_out, serve as serve_of};
ghost use Rattle.ro_event.specs.Effects.{Effect as EffectSeen, quiet};
ghost use Rattle.ro_event.specs.declared.stops.Stop.{Stop as At};
ghost use Rattle.ro_event.specs.declared.calls.Call.{Call as Asked};
ghost use Rattle.ro_event.specs.declared.functions.Function.{Function as Posix};
ghost use Rattle.ro_legal.specs.Event.{event_of, quiet_effect, call_event};
ghost use Rattle.ro_serving.specs.Happening.{outcome_with, event_by, IsCause, IsEvent, IsCallEvent, LeavesWaiting};

use ro_event::{Call, Effect, Stop, View, Which};
use ro_journal::{Did, How};
use ro_kernel::{Kernel, Served, asked};
use std::alloc::{AllocError, Global};

/// What an event changes besides the kernel.
#[derive(Drop)]
pub struct Event {
    pub did: Did,
    pub effect: Effect,
    /// The call on which the thread is blocked from now on.
    pub blocked: Option<Call>,
    /// The end, if the program ended.
    pub due: Option<How>,
    /// Whether the payload is written to the output.
    pub writes: bool,
    /// Whether it may change which of the calls on which threads are blocked would be done.
    pub moves: bool,
}

impl Event {
    /// The event of a thread at which nothing happens, to be written over.
    #[inline(always)]
    pub fn nothing(alloc: Global, thread: u32) -> Event
        ensures { result ≡ record { did = Did.Watch; effect = quiet thread; blocked = None; due = None; writes = false; moves = false } }
    {
        Event {
            did: Did::Watch,
            effect: Effect::quiet(alloc, thread),
            blocked: None,
            due: None,
            writes: false,
            moves: false,
        }
    }
}

/// What a thread's stop and what it shows come to.
#[derive(Clone, Copy)]
pub struct Coming {
    pub did: Did,
    cause: Cause,
}

/// Where an event comes from.
#[derive(Clone, Copy)]
pub enum Cause {
    /// The kernel serves this call: as it is served, of an atomic instruction with the word that it found.
    Call(Call),
    /// The kernel stays as it is.
    Quiet {
        page: Option<u32>,
        releases: bool,
        due: Option<How>,
    },
}

impl Coming {
    /// What comes of a thread that stands still so.
    #[tactic(auto, unfolding(ro_legal::specs::Event::event_of))]
    #[inline(always)]
    pub fn of(kernel: &Kernel, thread: u32, view: &View) -> Coming
        ensures did { (event_of kernel.now.setup kernel.now.kernel thread view.now.stop view.now.payload).did ≡ result.did }
        ensures cause { IsCause kernel.now.setup kernel.now.kernel thread view.now.stop view.now.payload result.did result.cause }
    {
        match view.stop() {
            Stop::Calls(call) => coming_of_call(kernel, thread, asked(*call, view.payload())),
            Stop::Trap(cause) => quiet(Did::Trapped, None, false, Some(How::Trap(*cause))),
            Stop::PageFault(page) => quiet(Did::PageBacked, Some(*page), true, None),
            Stop::Watchdog => quiet(Did::Watch, None, true, None),
        }
    }

    /// The event of a live thread of which this comes is written where the caller has a place for one: a large value that is
    /// answered is copied on its way. For the same reason it is a part of its caller, as `serve` is.
    ///
    /// # Errors
    /// Where there is no memory; the kernel is as it was.
    #[inline(always)]
    pub fn happen(
        &self,
        alloc: Global,
        kernel: &mut Kernel,
        thread: u32,
        event: &mut Event,
    ) -> Result<(), AllocError>
        requires { lives_on kernel.old.kernel thread ≡ true }
        ensures event { OnOk result ((stop : At) (payload : List ℕ) → IsCause kernel.old.setup kernel.old.kernel thread stop payload self.now.did self.now.cause → IsEvent kernel.old.setup kernel.old.kernel kernel.new.kernel thread stop payload event.new) }
        ensures leaves { OnOk result (event.new.moves ≡ false → LeavesWaiting kernel.old.kernel kernel.new.kernel) }
        ensures room { OnOk result (IsMapped kernel.old.kernel.given → IfSome event.new.effect.range (λ range. length kernel.old.kernel.given < 4096)) }
        ensures setup { kernel.new.setup ≡ kernel.old.setup }
        ensures err { OnErr result (kernel.new ≡ kernel.old) }
    {
        match self.cause {
            Cause::Call(call) => serve(alloc, kernel, thread, call, event),
            Cause::Quiet {
                page,
                releases,
                due,
            } => {
                *event = quiet_event(alloc, self.did, thread, page, releases, due);
                Ok(())
            }
        }
    }
}

// What comes of a call as it is served.
fn coming_of_call(kernel: &Kernel, thread: u32, call: Call) -> Coming
    ensures did { (of : Asked) (payload : List ℕ) → (call_event kernel.now.kernel thread of payload (serve_of kernel.now.setup kernel.now.kernel thread call)).did ≡ result.did }
    ensures cause { result.cause ≡ Cause.Call call }
{
    Coming {
        did: did_of(kernel, thread, call),
        cause: Cause::Call(call),
    }
}

// Whether a call is served, does its first step, or blocks.
fn did_of(kernel: &Kernel, thread: u32, call: Call) -> Did
    ensures { (of : Asked) (payload : List ℕ) → (call_event kernel.now.kernel thread of payload (serve_of kernel.now.setup kernel.now.kernel thread call)).did ≡ result }
{
    if kernel.blocks(thread, call) {
        Did::Blocked
    } else if kernel.parks(thread, call) {
        Did::Parked
    } else {
        Did::Served
    }
}

// What comes to an event that leaves the kernel as it is.
fn quiet(did: Did, page: Option<u32>, releases: bool, due: Option<How>) -> Coming
    ensures { result ≡ record { did = did; cause = Cause.Quiet page releases due } }
{
    Coming {
        did,
        cause: Cause::Quiet {
            page,
            releases,
            due,
        },
    }
}

/// The event of a call of a live thread is written to a place.
///
/// # Errors
/// Where there is no memory; the kernel is as it was.
#[inline(always)]
pub fn serve(
    alloc: Global,
    kernel: &mut Kernel,
    thread: u32,
    call: Call,
    event: &mut Event,
) -> Result<(), AllocError>
    requires { lives_on kernel.old.kernel thread ≡ true }
    ensures event { OnOk result (IsCallEvent kernel.old.setup kernel.old.kernel kernel.new.kernel thread call event.new) }
    ensures leaves { OnOk result (event.new.moves ≡ false → LeavesWaiting kernel.old.kernel kernel.new.kernel) }
    ensures room { OnOk result (IsMapped kernel.old.kernel.given → IfSome event.new.effect.range (λ range. length kernel.old.kernel.given < 4096)) }
    ensures setup { kernel.new.setup ≡ kernel.old.setup }
    ensures err { OnErr result (kernel.new ≡ kernel.old) }
{
    let served = kernel.serve(thread, call)?;
    write_served(alloc, thread, call, served, event);
    Ok(())
}

// Writes the event of a call that came to this.
#[inline(always)]
fn write_served(alloc: Global, thread: u32, call: Call, served: Served, event: &mut Event)
    ensures moves { event.new.moves ≡ false → ((function : Posix) → call.which ≢ Which.Function function) × ((effect : EffectSeen) → served ≡ Served.Done effect → effect.range ≡ None) }
    ensures event { (kernel after : KernelSeen) (payload : List ℕ) → (served ≡ Served.Blocked → after ≡ kernel) → call_event kernel thread call (put_out call.which payload) (outcome_with after served) ≡ event_by event.new after (if event.new.writes then payload else []) }
{
    match served {
        Served::Done(effect) => {
            event.did = Did::Served;
            event.moves = effect.range.is_some() || is_function(call);
            event.effect = effect;
            event.blocked = None;
            event.due = None;
            event.writes = puts_out(call);
        }
        Served::Parked => *event = waiting_event(alloc, Did::Parked, thread, call),
        Served::Blocked => *event = waiting_event(alloc, Did::Blocked, thread, call),
        Served::Ends(how) => *event = ending_event(alloc, thread, how),
    }
}

// The event of a call that ends the program. It, and the others that change little, are functions of their own, so that the
// effect of a call that was served is copied once.
#[cold]
#[inline(never)]
fn ending_event(alloc: Global, thread: u32, how: How) -> Event
    ensures { result ≡ record { did = Did.Served; effect = quiet_effect thread None false; blocked = None; due = Some how; writes = false; moves = true } }
{
    Event {
        did: Did::Served,
        effect: quiet_effect(alloc, thread, None, false),
        blocked: None,
        due: Some(how),
        writes: false,
        moves: true,
    }
}

// Whether a call is one of a function: no other that gives no range changes anything that a blocked call waits for.
fn is_function(call: Call) -> bool
    ensures { result ≡ false → (function : Posix) → call.which ≢ Which.Function function }
{
    matches!(call.which, Which::Function(_))
}

// Whether a call writes its payload to the output, where it has one.
fn puts_out(call: Call) -> bool
    ensures { (payload : List ℕ) → put_out call.which payload ≡ (if result then payload else []) }
{
    !matches!(call.which, Which::Atomic(_))
}

// An event that leaves the thread blocked at its call.
#[cold]
#[inline(never)]
fn waiting_event(alloc: Global, did: Did, thread: u32, call: Call) -> Event
    ensures { result ≡ record { did = did; effect = quiet_effect thread None false; blocked = Some call; due = None; writes = false; moves = true } }
{
    Event {
        did,
        effect: quiet_effect(alloc, thread, None, false),
        blocked: Some(call),
        due: None,
        writes: false,
        moves: true,
    }
}

// An event that changes no more than the thread's stop, a page, or whether the program goes on.
#[inline(never)]
fn quiet_event(
    alloc: Global,
    did: Did,
    thread: u32,
    page: Option<u32>,
    releases: bool,
    due: Option<How>,
) -> Event
    ensures { result ≡ record { did = did; effect = quiet_effect thread page releases; blocked = None; due = due; writes = false; moves = false } }
{
    Event {
        did,
        effect: quiet_effect(alloc, thread, page, releases),
        blocked: None,
        due,
        writes: false,
        moves: false,
    }
}

// An effect that stores nothing and changes no register.
fn quiet_effect(alloc: Global, thread: u32, page: Option<u32>, releases: bool) -> Effect
    ensures { result ≡ quiet_effect thread page releases }
{
    Effect {
        page,
        releases,
        ..Effect::quiet(alloc, thread)
    }
}
