//! Words that threads have reserved by LR.
ghost use Rattle.std.specs.Prelude.{◌≡◌, Some};
ghost use Rattle.ro_kernel.specs.Reserved.{without_at, unless_at, is_reserved};

/// The word that a thread's LR found, which an SC may store as long as nobody else has.
#[derive(Clone, Copy, PartialEq, Eq, Debug)]
pub struct Reservation {
    /// The address of the word.
    pub address: u32,
    /// What LR found there.
    pub word: u32,
}

impl Reservation {
    /// Whether it is of this word as it stands at the address.
    fn is_of(self, address: u32, word: u32) -> bool
        ensures { result ≡ is_reserved (Some self) address word }
    {
        self.address == address && self.word == word
    }
}

/// Whether an SC succeeds that finds this word at the address.
pub(crate) fn is_reserved(reservation: Option<Reservation>, address: u32, word: u32) -> bool
    ensures { result ≡ is_reserved reservation address word }
{
    match reservation {
        Some(reservation) => reservation.is_of(address, word),
        None => false,
    }
}

/// The reservation, but for one of this address.
fn unless_at(address: u32, reservation: Option<Reservation>) -> Option<Reservation>
    ensures { result ≡ unless_at address reservation }
{
    match reservation {
        Some(reservation) if reservation.address == address => None,
        other => other,
    }
}

/// All reservations of an address end.
pub(crate) fn end_all(reserved: &mut [Option<Reservation>], address: u32)
    ensures { reserved.new ≡ without_at reserved.old address }
{
    for reservation in reserved.iter_mut() {
        *reservation = unless_at(address, *reservation);
    }
}
