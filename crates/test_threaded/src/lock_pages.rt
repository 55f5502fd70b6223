//! Ranks decided by one thread, and by eight at once.
ghost use Rattle.std.specs.Prelude.{◌≡◌};
ghost use Rattle.ro_lockpage.specs.Pages.{AreFrom};

use ro_lockpage::{Answer, LockPage, Pass};
use std::alloc::Global;
use std::process::Abort;
use std::sync::atomic::{AtomicU64, Ordering};
use std::test::Fail;
use std::thread;
use std::thread::Threads;

#[test]
fn a_rank_is_decided_once(rt: HostRuntime) -> Result<(), Fail> {
    let (page, mut passes) = LockPage::new(rt.alloc(), 2, 3)?;
    assert_eq!(rt; passes.len(), 8);
    assert_eq!(rt; page.decide(&mut passes[0], 0, 0, 4), Answer::For(4));
    assert_eq!(rt; page.decide(&mut passes[1], 0, 0, 5), Answer::For(4));
    assert_eq!(rt; page.decide(&mut passes[1], 1, 0, 5), Answer::For(5));
    assert_eq!(rt; page.look(&mut passes[2], 0, 1), None);
    assert_eq!(rt; page.look(&mut passes[2], 1, 0), Some(Answer::For(5)));
    for number in 0..8u32 {
        assert_eq!(rt; passes[number as usize].number(), number);
    }
    let closed = page.close(passes);
    for mutex in 0..2u32 {
        for rank in 0..3u32 {
            let answer = match (mutex, rank) {
                (0, 0) => Some(Answer::For(4)),
                (1, 0) => Some(Answer::For(5)),
                _ => None,
            };
            assert_eq!(rt; closed.row(mutex, rank), answer);
        }
    }
    Ok(())
}

#[test]
fn a_row_is_used_anew(rt: HostRuntime) -> Result<(), Fail> {
    let (page, mut passes) = LockPage::new(rt.alloc(), 1, 3)?;
    let pass = &mut passes[0];
    assert_eq!(rt; page.decide(pass, 0, 0, 4), Answer::For(4));
    assert_eq!(rt; page.look(pass, 0, 3), None);
    assert_eq!(rt; page.decide(pass, 0, 3, 15), Answer::For(15));
    assert_eq!(rt; page.decide(pass, 0, 3, 4), Answer::For(15));
    assert_eq!(rt; page.look(pass, 0, 6), None);
    // three ranks behind
    assert_eq!(rt; page.look(pass, 0, 0), Some(Answer::Passed));
    assert_eq!(rt; page.decide(pass, 0, 0, 4), Answer::Passed);
    assert_eq!(rt; page.decide(pass, 0, 1, 6), Answer::For(6));
    assert_eq!(rt; page.decide(pass, 0, u32::MAX, 15), Answer::For(15));
    let closed = page.close(passes);
    assert_eq!(rt; closed.row(0, u32::MAX), Some(Answer::For(15)));
    assert_eq!(rt; closed.row(0, 0), Some(Answer::Passed));
    assert_eq!(rt; closed.row(0, 3), Some(Answer::Passed));
    assert_eq!(rt; closed.row(0, 1), Some(Answer::For(6)));
    assert_eq!(rt; closed.row(0, 4), None);
    assert_eq!(rt; closed.row(0, 2), None);
    Ok(())
}

/// What eight threads share.
#[derive(Drop)]
struct Hall<'a> {
    page: &'a LockPage,
    /// For each rank the first thread that was answered, and one more.
    answers: &'a [AtomicU64],
    /// The rank at which each thread is.
    places: &'a [AtomicU64],
    /// How many threads have come.
    come: AtomicU64,
    /// How many answers were another than the first, or none.
    others: AtomicU64,
    /// How many ranks they decide.
    ranks: u32,
    /// Whether they look too.
    looks: bool,
}

impl<'a> Hall<'a> {
    // Waits, for a while, until all have come.
    fn meet(&self) {
        self.come.fetch_add(1, Ordering::SeqCst);
        for _ in 0..100_000u32 {
            if self.come.load(Ordering::SeqCst) == 8 {
                return;
            }
            thread::yield_now();
        }
    }

    // Whether all have come as far as this rank.
    fn all_past(&self, rank: u32) -> bool {
        for place in self.places {
            if place.load(Ordering::SeqCst) < u64::from(rank) {
                return false;
            }
        }
        true
    }

    // Tells that a thread is at this rank, and waits, for long, until no thread is 1,000 ranks behind.
    fn keep_near(&self, number: u32, rank: u32) {
        if let Some(place) = self.places.get(number as usize) {
            place.store(u64::from(rank), Ordering::SeqCst);
        }
        if rank >= 1000 {
            for _ in 0..100_000_000u32 {
                if self.all_past(rank - 999) {
                    return;
                }
                thread::yield_now();
            }
        }
    }

    fn note(&self, rank: u32, answer: Answer) {
        let (Some(first), Answer::For(thread)) = (self.answers.get(rank as usize), answer) else {
            self.others.fetch_add(1, Ordering::SeqCst);
            return;
        };
        let name = u64::from(thread) + 1;
        if let Err(found) = first.compare_exchange(0, name, Ordering::SeqCst, Ordering::SeqCst) {
            if found != name {
                self.others.fetch_add(1, Ordering::SeqCst);
            }
        }
    }

    // Decides each rank for the pass's number.
    fn ask(&self, pass: &mut Pass)
        requires page { self.now.page.now.mutexes ≡ 1 }
        requires pass { pass.old.page ≡ self.now.page.now.name }
        ensures { pass.new.page ≡ pass.old.page }
    {
        self.meet();
        let number = pass.number() % 16;
        for rank in 0..self.ranks {
            self.keep_near(number, rank);
            if self.looks {
                if let Some(answer) = self.page.look(pass, 0, rank) {
                    self.note(rank, answer);
                }
            }
            let answer = self.page.decide(pass, 0, rank, number);
            self.note(rank, answer);
            if self.looks && self.page.look(pass, 0, rank) != Some(answer) {
                self.others.fetch_add(1, Ordering::SeqCst);
            }
        }
    }
}

// Asks in a thread for each pass.
fn ask_all<R: Threads + Sync>(rt: &R, hall: &Hall, passes: &mut [Pass])
    requires page { hall.now.page.now.mutexes ≡ 1 }
    requires passes { AreFrom hall.now.page.now.name 0 passes.old }
{
    thread::for_each_mut(
        rt,
        passes,
        8,
        &|_, pass: &mut Pass|
            requires { (hall.now.page.now.mutexes ≡ 1) × (pass.old.page ≡ hall.now.page.now.name) }
            ensures { pass.new.page ≡ pass.old.page }
        { hall.ask(pass) },
    );
}

// So many words that are 0.
fn zeros(alloc: Global, number: u32) -> Result<Vec<AtomicU64>, Fail> {
    let mut words = Vec::with_capacity(alloc, number as usize)?;
    for _ in 0..number {
        words.push(AtomicU64::new(0))?;
    }
    Ok(words)
}

// Eight threads decide the same ranks, and are answered alike.
fn eight_threads<R: Threads + Abort + Sync>(
    rt: &R,
    alloc: Global,
    ranks: u32,
    looks: bool,
) -> Result<(), Fail> {
    let (page, mut passes) = LockPage::new(alloc, 1, 1024)?;
    let answers = zeros(alloc, ranks)?;
    let places = zeros(alloc, 8)?;
    let hall = Hall {
        page: &page,
        answers: answers.as_slice(),
        places: places.as_slice(),
        come: AtomicU64::new(0),
        others: AtomicU64::new(0),
        ranks,
        looks,
    };
    ask_all(rt, &hall, passes.as_mut_slice());
    assert_eq!(rt; hall.come.load(Ordering::SeqCst), 8);
    assert_eq!(rt; hall.others.load(Ordering::SeqCst), 0);
    for answer in &answers {
        assert!(rt; answer.load(Ordering::SeqCst) > 0);
    }
    Ok(())
}

#[test]
fn eight_threads_decide(rt: HostRuntime) -> Result<(), Fail> {
    eight_threads(&rt, rt.alloc(), 1000, false)
}

#[test]
fn eight_threads_decide_and_look(rt: HostRuntime) -> Result<(), Fail> {
    eight_threads(&rt, rt.alloc(), 1000, true)
}

#[test]
fn eight_threads_use_rows_anew(rt: HostRuntime) -> Result<(), Fail> {
    eight_threads(&rt, rt.alloc(), 5000, true)
}
