//! Two drivers are inside their runs at once.
ghost use Rattle.std.specs.Prelude.{◌≡◌, true, false, MatchResult, IfOk, OnErr};
ghost use Rattle.std.specs.Option.{MatchOption};
ghost use Rattle.ro_post.specs.Turns.{MatchLeased, IfOver};

use ro_drive::drive_all;
use ro_io::{Gate, OpenGate, Place};
use ro_post::{Driver, Post, Turn};
use std::alloc::AllocError;
use std::sync::Wait;
use std::sync::atomic::{AtomicU64, Ordering};
use std::test::Fail;
use std::thread;

/// Where two runs meet.
#[derive(Drop)]
struct Meeting {
    /// How many runs were called.
    called: AtomicU64,
    /// Whether the first of them saw the other.
    met: AtomicU64,
}

/// A post that gives each driver one lease.
#[derive(Drop)]
struct Hall<'a> {
    meeting: &'a Meeting,
}

/// The pass of a driver of the hall.
#[derive(Drop)]
struct Ticket {
    number: u32,
    /// Whether it has had its lease.
    used: bool,
    /// Whether the lease was run.
    ran: bool,
}

/// A lease of the hall.
#[derive(Drop)]
struct Visit<'a> {
    meeting: &'a Meeting,
    driver: u32,
}

impl<'a> Post for Hall<'a> {
    type Pass = Ticket;

    type Lease = Visit<'a>;

    type Back = ();

    ghost place_of = { λ lease. (lease.driver, 0, 0) };

    ghost is_ours = { λ post pass. Unit {0} };

    ghost number = { λ pass. pass.number };

    ghost at_rest = { λ pass. pass.ran ≡ pass.used };

    ghost holds = { λ pass lease. (pass.used ≡ true) × (pass.ran ≡ false) };

    ghost may_return = { λ pass back. (pass.used ≡ true) × (pass.ran ≡ true) };

    ghost is_over = { λ pass. pass.ran ≡ true };

    ghost wants = { λ pass. Unit {0} };

    fn place(lease: &Visit<'a>) -> (u32, u32, u32) {
        (lease.driver, 0, 0)
    }

    // The first that is called waits, for a while, until another is.
    fn run<G: Gate>(&self, pass: &mut Ticket, lease: Visit<'a>, _passed: &G::Passed) {
        pass.ran = true;
        if lease.meeting.called.fetch_add(1, Ordering::SeqCst) == 0 {
            for _ in 0..100_000_000u32 {
                if lease.meeting.called.load(Ordering::SeqCst) == 2 {
                    lease.meeting.met.store(1, Ordering::SeqCst);
                    return;
                }
                thread::yield_now();
            }
        }
    }

    fn turn<R: Wait>(&self, _rt: &R, pass: &mut Ticket) -> Result<Turn<Visit<'a>>, AllocError> {
        if pass.used {
            return Ok(Turn::Over);
        }
        pass.used = true;
        Ok(Turn::Leased(Visit {
            meeting: self.meeting,
            driver: pass.number,
        }))
    }

    fn give_back<R: Wait>(&self, _rt: &R, _pass: &mut Ticket, _back: ()) {}

    fn next<R: Wait>(
        &self,
        rt: &R,
        pass: &mut Ticket,
        back: Option<()>,
    ) -> Result<Turn<Visit<'a>>, AllocError>
        requires { Unit {0} × MatchOption back (pass.old.ran ≡ pass.old.used) (λ b. (pass.old.used ≡ true) × (pass.old.ran ≡ true)) }
        ensures same { Unit {0} × (pass.new.number ≡ pass.old.number) }
        ensures lease { MatchResult result (λ t. MatchLeased t (λ l. (pass.new.used ≡ true) × (pass.new.ran ≡ false)) (pass.new.ran ≡ pass.new.used)) (λ _. pass.new.ran ≡ pass.new.used) }
        ensures over { IfOk result (λ t. IfOver t (pass.new.ran ≡ true)) }
        ensures wants { OnErr result (Unit {0}) }
    {
        if let Some(back) = back {
            self.give_back(rt, pass, back);
        }
        self.turn(rt, pass)
    }

    fn rest<R: Wait>(&self, _rt: &R) {}
}

fn driver(number: u32) -> Driver<Ticket>
    ensures { result.pass.ran ≡ result.pass.used }
{
    Driver {
        pass: Ticket {
            number,
            used: false,
            ran: false,
        },
        outcome: None,
    }
}

#[test]
fn two_runs_at_once(rt: HostRuntime) -> Result<(), Fail> {
    let meeting = Meeting {
        called: AtomicU64::new(0),
        met: AtomicU64::new(0),
    };
    let hall = Hall { meeting: &meeting };
    let mut drivers = [driver(0), driver(1)];
    drive_all(&rt, &hall, &mut drivers, &OpenGate);
    assert_eq!(rt; meeting.called.load(Ordering::SeqCst), 2);
    assert_eq!(rt; meeting.met.load(Ordering::SeqCst), 1);
    for driver in &drivers {
        assert!(rt; driver.outcome.is_some());
        assert!(rt; driver.pass.ran);
    }
    Ok(())
}

/// A gate that counts those that pass, and those that leave.
#[derive(Drop)]
struct Counting {
    passed: AtomicU64,
    left: AtomicU64,
}

impl Gate for Counting {
    type Passed = Place;

    ghost place_of = { λ p. (p.driver, p.replica, p.thread) };

    fn pass<R: Wait>(&self, _rt: &R, driver: u32, replica: u32, thread: u32) -> Place {
        self.passed.fetch_add(1, Ordering::SeqCst);
        Place {
            driver,
            replica,
            thread,
        }
    }

    fn leave(&self, _passed: Place) {
        self.left.fetch_add(1, Ordering::SeqCst);
    }
}

#[test]
fn each_lease_passes_once(rt: HostRuntime) -> Result<(), Fail> {
    let meeting = Meeting {
        called: AtomicU64::new(0),
        met: AtomicU64::new(0),
    };
    let hall = Hall { meeting: &meeting };
    let gate = Counting {
        passed: AtomicU64::new(0),
        left: AtomicU64::new(0),
    };
    let mut drivers = [driver(0), driver(1)];
    drive_all(&rt, &hall, &mut drivers, &gate);
    assert_eq!(rt; gate.passed.load(Ordering::SeqCst), 2);
    assert_eq!(rt; gate.left.load(Ordering::SeqCst), 2);
    Ok(())
}
