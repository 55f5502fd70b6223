//! A program that locks a mutex twice, unlocks it twice, and exits with the sum of the four answers.
ghost use Rattle.std.specs.Prelude.{◌≡◌, [], IfOk, IsTrue};
ghost use Rattle.ro_replica.specs.Seen.{replica_of, CanCount};
ghost use Rattle.ro_replica.specs.Views.{is_unstopped};

use ro_event::{Call, Stop, Which};
use ro_image::{Executable, read_executable};
use ro_make::image_bytes;
use ro_peer::{Came, Decision, Locks, Mutex, Peer, PeerRan};
use ro_region::Regions;
use ro_replica::{Replica, ReplicaBox};
use std::alloc::{AllocError, Global};
use std::process::Abort;

const WORDS: [u32; 15] = [
    0x0001_1537,
    0x1A80_00EF,
    0x0005_0A13,
    0x0001_1537,
    0x19C0_00EF,
    0x0005_0A93,
    0x0001_1537,
    0x1940_00EF,
    0x00AA_8AB3,
    0x0001_1537,
    0x1880_00EF,
    0x0155_0533,
    0x0145_0533,
    0x05D0_0893,
    0x0000_0073,
];

const NAMES: [(&str, u32); 2] = [
    ("pthread_mutex_lock", 0x1_0200),
    ("pthread_mutex_unlock", 0x1_0204),
];

const MUTEX: u32 = 0x1_1000;

/// Gives each rank of each mutex to one thread.
#[derive(Drop)]
struct All {
    thread: u32,
}

impl Locks for All {
    ghost use Rattle.std.specs.Prelude.{◌≢◌, Some};

    ghost won = { λ all number rank thread. ⊥ };

    ghost rows = { λ all number rank. Some all.thread };

    ghost known = { λ all number rank. Some all.thread };

    ghost refused = { λ all number rank thread. thread ≢ all.thread };

    ghost stays = { λ all. tt };

    fn decide(&mut self, _number: u32, _rank: u32, thread: u32) -> Decision {
        if thread == self.thread {
            Decision::Asker
        } else {
            Decision::Other
        }
    }
}

fn image(rt: &impl Abort, alloc: Global) -> Result<Executable, AllocError> {
    let bytes = image_bytes(alloc, &WORDS, 5, &NAMES)?;
    match read_executable(alloc, bytes.as_slice()) {
        Ok(image) => Ok(image),
        Err(_) => panic!(rt; "it is accepted"),
    }
}

// A peer at the opening, which answers for the mutex.
fn opened(rt: &impl Abort, alloc: Global, owner: Option<u32>) -> Result<Peer, AllocError>
    ensures free { IfOk result (λ peer. peer.replica.waiting ≡ []) }
    ensures going { IfOk result (λ peer. IsTrue (is_unstopped 0 (replica_of peer.replica))) }
    ensures countable { IfOk result (λ peer. CanCount 4096 peer.replica 0) }
{
    let image = image(rt, alloc)?;
    let regions = Regions::new(alloc, image.ranges())?;
    let replica = Replica::new(alloc, &image, regions, 0, &[], 1000)?;
    let replica = ReplicaBox::new(alloc, replica)?;
    let mut peer = Peer::new(alloc, replica)?;
    peer.enter(MUTEX, owner);
    Ok(peer)
}

// How a run of thread 0 ends.
#[derive(Clone, Copy)]
enum End {
    // The exit, with the sum of the answers.
    Exit(u32),
    // Another end.
    Back(Came),
}

// A run of thread 0, and what it comes to.
#[derive(Clone, Copy)]
struct Row {
    // The owner at first.
    owner: Option<u32>,
    // The thread that gets each rank.
    gets: u32,
    quantum: u32,
    count: u32,
    end: End,
    // The owner and the rank then.
    after: Option<u32>,
    rank: u32,
}

const ROWS: &[Row] = &[
    // 0, 35, 0 and 1
    Row {
        owner: None,
        gets: 0,
        quantum: 4096,
        count: 18,
        end: End::Exit(36),
        after: None,
        rank: 1,
    },
    // 35, 35, 0 and 1
    Row {
        owner: Some(0),
        gets: 1,
        quantum: 4096,
        count: 18,
        end: End::Exit(71),
        after: None,
        rank: 0,
    },
    // a row of another thread, and an owner
    Row {
        owner: None,
        gets: 1,
        quantum: 4096,
        count: 2,
        end: End::Back(Came::Row(0)),
        after: None,
        rank: 0,
    },
    Row {
        owner: Some(1),
        gets: 0,
        quantum: 4096,
        count: 2,
        end: End::Back(Came::Owned(0)),
        after: Some(1),
        rank: 0,
    },
    // a quantum that ends before the lock, behind it, and later
    Row {
        owner: None,
        gets: 0,
        quantum: 2,
        count: 2,
        end: End::Back(Came::Quantum),
        after: None,
        rank: 0,
    },
    Row {
        owner: None,
        gets: 0,
        quantum: 3,
        count: 3,
        end: End::Back(Came::Quantum),
        after: Some(0),
        rank: 1,
    },
    Row {
        owner: None,
        gets: 0,
        quantum: 18,
        count: 18,
        end: End::Back(Came::Quantum),
        after: None,
        rank: 1,
    },
];

#[test]
fn answers_locks_and_unlocks(rt: HostRuntime) -> Result<(), AllocError> {
    for row in ROWS {
        assert_row(&rt, rt.alloc(), row)?;
    }
    Ok(())
}

fn came_of(end: End) -> Came {
    match end {
        End::Exit(code) => Came::Stopped(Stop::Calls(Call {
            which: Which::System(93),
            a0: code,
            a1: 0,
            a2: 0,
            a3: 0,
        })),
        End::Back(came) => came,
    }
}

fn assert_row(rt: &impl Abort, alloc: Global, row: &Row) -> Result<(), AllocError> {
    let mut peer = opened(rt, alloc, row.owner)?;
    let quantum = row.quantum.min(4096);
    let ran = peer.run(&mut All { thread: row.gets }, 0, quantum);
    let came = came_of(row.end);
    assert_eq!(rt;
        ran,
        PeerRan {
            count: row.count,
            came
        }
    );
    assert_mutex(rt, &peer, row);
    assert_stop(rt, &peer, came);
    Ok(())
}

// It stands still only where a vote is to be held.
fn assert_stop(rt: &impl Abort, peer: &Peer, came: Came) {
    let stop = match came {
        Came::Stopped(stop) => Some(stop),
        _ => None,
    };
    assert_eq!(rt; peer.replica().stop(0), stop);
    assert_eq!(rt; peer.replica().is_unstopped(0), stop.is_none());
}

fn assert_mutex(rt: &impl Abort, peer: &Peer, row: &Row) {
    assert_eq!(rt; peer.mutexes().number(0x1_1004), None);
    let number = peer.mutexes().number(MUTEX);
    assert_eq!(rt; number, Some(0));
    let Some(number) = number else {
        return;
    };
    let want = Mutex {
        address: MUTEX,
        owner: row.after,
        rank: row.rank,
    };
    assert_eq!(rt; peer.mutexes().mutex(number), want);
}
