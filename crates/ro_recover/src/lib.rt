//! Recovery: a replica that lost a vote becomes as the winner is.
#![tactic(auto)]

/// Something of which two are to be alike, so that one can take the place of the other.
pub trait Twin {
    ghost use Rattle.std.specs.Prelude.{ℕ};

    // Whether the second can become as the first is with no more memory.
    ghost may_become: { Self → Self → Type 0 };

    // What the second is after it became as the first is.
    ghost became: { Self → Self → Self → Type 0 };

    /// Becomes as another is, but for what is its own.
    fn copy_from(&mut self, other: &Self)
        requires { may_become other.now self.old }
        ensures { became other.now self.old self.new };
}

/// The loser becomes as the winner is, but for what is its own.
pub fn recover<T: Twin>(winner: &T, loser: &mut T)
    requires { T.may_become winner.now loser.old }
    ensures { T.became winner.now loser.old loser.new }
{
    loser.copy_from(winner);
}
