//! Where bytes go.
ghost use Rattle.std.specs.Prelude.{◌≡◌, ◌+◌, ◌<◌, ◌≤◌, length, take, IfOk, OnErr};
ghost use Rattle.ro_io.specs.Outside.{Rose, more};

/// A sink took nothing, and is given nothing more.
#[derive(Clone, Copy, Debug, PartialEq, Eq)]
pub struct Failed;

/// Where bytes go, a piece at a time.
pub trait Sink {
    ghost use Rattle.std.specs.Prelude.{ℕ, List, Option};

    // The bytes that it holds, where it tells.
    ghost held: { Self → Option (List ℕ) };

    // How often it failed.
    ghost failures: { Self → ℕ };

    // How many more bytes it surely takes.
    ghost sure: { Self → ℕ };

    /// Gives bytes to the sink, at least one of them, and answers how many it took, from the front. A sink that failed is
    /// not given to again.
    ///
    /// # Errors
    /// `Failed` where it took none. Its count of failures rose then, and only then.
    fn give(&mut self, piece: &[u8]) -> Result<usize, Failed>
        requires some { 0 < length piece.now }
        requires unfailed { failures self.old ≡ 0 }
        ensures count { IfOk result (λ n. (0 < n) × (n ≤ length piece.now)) }
        ensures taken { IfOk result (λ n. held self.new ≡ more (held self.old) (take n piece.now)) }
        ensures refused { OnErr result (held self.new ≡ held self.old) }
        ensures cause { OnErr result (Rose (failures self.old) (failures self.new)) }
        ensures calm { IfOk result (λ _. failures self.new ≡ failures self.old) }
        ensures failures { failures self.old ≤ failures self.new }
        ensures sure { IfOk result (λ n. sure self.old ≤ sure self.new + n) }
        ensures full { OnErr result (sure self.old < length piece.now) };
}
