//! Drivers: each takes turns at a post until all is over.
#![tactic(auto)]

ghost use Rattle.std.specs.Prelude.{◌≡◌, ℕ, ◌<◌, ◌≤◌, length, All, IsSome, IfSome, OnErr, OnOk, slice_index_or, slice_index};
ghost use Rattle.ro_drive.specs.Drives.{IsReady, IsDriven, Drove};

use ro_io::Gate;
use ro_post::{Driver, Post, Turn};
use std::alloc::AllocError;
use std::sync::Wait;
use std::thread;
use std::thread::Threads;

/// Takes turns until all is over. A lease passes the gate and runs with no lock held.
///
/// # Errors
/// Where memory was wanting at a turn.
pub fn drive<R: Wait, P: Post, G: Gate>(
    rt: &R,
    post: &P,
    pass: &mut P::Pass,
    gate: &G,
) -> Result<(), AllocError>
    requires { P.is_ours post.now pass.old × P.at_rest pass.old }
    ensures same { P.is_ours post.now pass.new × (P.number pass.new ≡ P.number pass.old) }
    ensures rest { P.at_rest pass.new }
    ensures over { OnOk result (P.is_over pass.new) }
    ensures wants { OnErr result (P.wants pass.new) }
{
    let mut back = None;
    for _ in rt.forever() {
        back = match post.next(rt, pass, back) {
            Ok(Turn::Leased(lease)) => {
                let (driver, replica, thread) = P::place(&lease);
                let passed = gate.pass(rt, driver, replica, thread);
                let back = post.run::<G>(pass, lease, &passed);
                gate.leave(passed);
                Some(back)
            }
            Ok(Turn::Did) => None,
            Ok(Turn::Wait) => {
                post.rest(rt);
                None
            }
            Ok(Turn::Over) => return Ok(()),
            Err(e) => return Err(e),
        };
    }
    unreachable!()
}

// Drives one driver, and leaves its answer.
fn drive_one<R: Wait, P: Post, G: Gate>(rt: &R, post: &P, driver: &mut Driver<P::Pass>, gate: &G)
    requires { IsReady P.is_ours P.number P.at_rest P.is_over P.wants post.now driver.old }
    ensures { Drove P.is_ours P.number P.at_rest P.is_over P.wants post.now driver.old driver.new }
{
    let answer = drive(rt, post, &mut driver.pass, gate);
    driver.outcome = Some(answer);
}

/// Drives each driver in a thread of its own where one can be had, and leaves the answer in its `outcome`.
pub fn drive_all<R: Threads + Wait + Sync, P: Post<Pass: Send> + Sync, G: Gate + Sync>(
    rt: &R,
    post: &P,
    drivers: &mut [Driver<P::Pass>],
    gate: &G,
)
    requires { All (IsReady P.is_ours P.number P.at_rest P.is_over P.wants post.now) drivers.old }
    ensures { IsDriven P.is_ours P.number P.at_rest P.is_over P.wants post.now drivers.old drivers.new }
{
    let count = drivers.len();
    if count == 0 {
        return;
    }
    thread::for_each_mut(
        rt,
        drivers,
        count,
        &|_, driver: &mut Driver<P::Pass>|
            requires { IsReady P.is_ours P.number P.at_rest P.is_over P.wants post.now driver.old }
            ensures { Drove P.is_ours P.number P.at_rest P.is_over P.wants post.entry.now driver.old driver.new }
        { drive_one(rt, post, driver, gate) },
    );
}
