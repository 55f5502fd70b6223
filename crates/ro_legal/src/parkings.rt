//! Where threads wait at the locks of mutexes whose calls replicas answer by themselves.
ghost use Rattle.std.specs.Prelude.{◌≡◌};
ghost use Rattle.ro_legal.specs.Sides.{has_asked};

/// Where a thread came back at a lock of a mutex that it doesn't own.
#[derive(Clone, Copy, PartialEq, Eq, Debug)]
pub struct Parking {
    /// The mutex's address.
    pub mutex: u32,
    /// How often it had been got in the replica.
    pub rank: u32,
    /// It was free there.
    pub asked: bool,
}

impl Parking {
    /// Whether the thread found the mutex free, at this rank.
    pub fn has_asked(self, rank: u32) -> bool
        ensures { result ≡ has_asked self rank }
    {
        self.asked && rank == self.rank
    }
}
