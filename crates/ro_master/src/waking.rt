//! Who of the drivers that rest is woken after a step, and which drivers are spare.
//!
//! Nothing that a run does hangs on it, only how long that takes: whoever makes an entry takes the next turn itself.
use ro_cores::Lendable;
use ro_journal::Entry;
use ro_settings::Settings;

/// A stretch of so many instructions takes longer than to wake a driver for it.
const WORTH_A_WAKE: u32 = 1_000;

/// Who is to be woken after a step.
#[derive(Clone, Copy, Debug, PartialEq, Eq)]
pub enum Wakes {
    /// Nobody.
    Nobody,
    /// Those that wait for a lease, of whom none sleeps, each for the replica that it had.
    Lookouts,
    /// Those that wait for a lease, of whom so many sleep.
    Helpers(u32),
    /// One more, for what can be lent beside a lease.
    One(Rester),
    /// All: the run is over, or a driver found no memory and leaves the run to the others.
    All,
}

/// A driver that rests.
#[derive(Clone, Copy, Debug, PartialEq, Eq)]
pub enum Rester {
    /// It waits for a lease, and looks out.
    Lookout,
    /// It waits for a lease, and sleeps.
    Sleeper,
    /// It is spare.
    Spare,
}

/// Which of the drivers that rest are wanted.
///
/// Where whole replicas are lent, a driver for each is of use. Behind a vote all of them can be lent; where the stretch before the
/// vote was short, the next one is taken to be short too, and the driver that voted goes on alone. Where several threads of a
/// replica can be lent, what a lease leaves to others hangs on its pages: so behind each take one more driver is woken where
/// something can still be lent. Drivers beyond those that can have a lease at once are spare.
#[derive(Drop)]
pub struct Waking {
    replicas: u32,
    drivers: u32,
    /// Several threads of a replica can be lent at once.
    shares: bool,
    /// How many drivers are of use at once, while as many threads live.
    of_use: u32,
    /// How many drivers are not spare.
    active: u32,
    /// Those that found nothing to be done at their last turn, a bit for the number of each.
    waiting: u32,
    /// How many of these sleep and are not spare.
    asleep: u32,
    /// The run is over for a driver, and so no driver is spare any more.
    is_left: bool,
    /// The helpers were not woken at the last vote.
    is_alone: bool,
    /// Who is to be woken after the last step.
    due: Wakes,
}

impl Waking {
    pub fn new(settings: &Settings) -> Waking {
        let Settings {
            replicas,
            drivers,
            ..
        } = *settings;
        Waking {
            replicas,
            drivers,
            shares: false,
            of_use: replicas.min(drivers),
            active: drivers,
            waiting: 0,
            asleep: 0,
            is_left: false,
            is_alone: false,
            due: Wakes::Nobody,
        }
    }

    /// Whether there are drivers that could be woken.
    pub fn has_others(&self) -> bool {
        self.drivers > 1
    }

    /// So much can be lent behind an event.
    pub fn can_lend(&mut self, lendable: Lendable) {
        self.shares = lendable.now > self.replicas;
        self.of_use = lendable.most.min(self.drivers);
    }

    /// A vote made this entry.
    pub fn voted(&mut self, entry: &Entry) {
        if !self.has_others() {
            return;
        }
        let is_long = match entry {
            Entry::Vote { count, .. } => *count >= WORTH_A_WAKE,
            _ => false,
        };
        self.is_alone = !is_long;
        self.due = match self.helpers_if(is_long) {
            Wakes::Helpers(0) if self.of_use > 1 => Wakes::Lookouts,
            due => due,
        };
    }

    /// A lease came back by this entry.
    pub fn came_back(&mut self, entry: &Entry) {
        if !self.has_others() {
            return;
        }
        let count = match entry {
            Entry::Put { count, .. } | Entry::Part { count, .. } => *count,
            _ => 0,
        };
        let is_wanted = self.is_alone && count >= WORTH_A_WAKE;
        self.is_alone = self.is_alone && !is_wanted;
        self.due = self.helpers_if(is_wanted);
    }

    /// A step that wakes nobody.
    pub fn stood(&mut self) {
        self.due = Wakes::Nobody;
    }

    /// Whom a driver that got a lease may wake for another one, where so many that look out are called already.
    pub fn another(&self, called: u32) -> Wakes {
        if !self.shares || self.is_alone {
            Wakes::Nobody
        } else if self.lookouts() > called {
            Wakes::One(Rester::Lookout)
        } else if self.asleep > 0 {
            Wakes::One(Rester::Sleeper)
        } else if self.active < self.of_use {
            Wakes::One(Rester::Spare)
        } else {
            Wakes::Nobody
        }
    }

    /// They are woken after this step.
    pub fn wakes(&mut self, wakes: Wakes) {
        self.due = wakes;
    }

    /// A driver leaves.
    pub fn left(&mut self) {
        self.is_left = true;
        self.due = Wakes::All;
    }

    /// Who is to be woken after the last step.
    pub fn due(&self) -> Wakes {
        self.due
    }

    /// The driver of this number takes a turn.
    pub fn came(&mut self, number: u32) {
        if self.waiting != 0 {
            self.waiting &= !bit_of(number);
        }
    }

    /// It found nothing to be done.
    pub fn found_nothing(&mut self, number: u32) {
        self.waiting |= bit_of(number);
        self.due = Wakes::Nobody;
    }

    /// How many drivers are to become spare yet.
    pub fn surplus(&self) -> u32 {
        self.active.saturating_sub(self.of_use)
    }

    /// Whether a driver that found nothing to be done is spare from now on.
    pub fn becomes_spare(&mut self) -> bool {
        let is_spare = !self.is_left && self.active > self.of_use;
        if is_spare {
            self.active -= 1;
        }
        is_spare
    }

    /// Whether a spare driver stays so.
    pub fn stays_spare(&self) -> bool {
        !self.is_left && self.active >= self.of_use
    }

    /// A spare driver comes back.
    pub fn is_spare_no_more(&mut self) {
        self.active = self.active.saturating_add(1);
    }

    /// A driver that waits for a lease falls asleep.
    pub fn fell_asleep(&mut self) {
        self.asleep = self.asleep.saturating_add(1);
    }

    /// It is awake.
    pub fn woke_up(&mut self) {
        self.asleep = self.asleep.saturating_sub(1);
    }

    // How many drivers look out, or were called and have not come yet.
    fn lookouts(&self) -> u32 {
        let spare = self.drivers.saturating_sub(self.active);
        let waiting = self.waiting.count_ones();
        waiting.saturating_sub(self.asleep).saturating_sub(spare)
    }

    // The helpers, where they are wanted and whole replicas are lent.
    fn helpers_if(&self, is_wanted: bool) -> Wakes {
        if is_wanted && !self.shares {
            let others = self.replicas.min(self.drivers).saturating_sub(1);
            Wakes::Helpers(self.asleep.min(others))
        } else {
            Wakes::Nobody
        }
    }
}

// The bit of a driver.
fn bit_of(number: u32) -> u32 {
    1u32.wrapping_shl(number)
}
