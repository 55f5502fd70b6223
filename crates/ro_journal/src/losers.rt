//! Who lost a vote.
ghost use Rattle.std.specs.Prelude.{◌≡◌, ◌++◌, ◌↔◌, [], ◌∷◌, length, IsNone, IfSome, MatchOption};
ghost use Rattle.ro_journal.specs.Losers.{numbers};

/// The replicas that lost a vote: at most two, as a vote of five has, the lower first.
#[derive(Clone, Copy, PartialEq, Eq, Debug)]
pub enum Lost {
    Nobody,
    One(u32),
    Two(u32, u32),
}

impl Lost {
    /// How many lost.
    pub fn count(self) -> usize
        ensures { result ≡ length (numbers self) }
    {
        match self {
            Lost::Nobody => 0,
            Lost::One(_) => 1,
            Lost::Two(_, _) => 2,
        }
    }

    /// These and one more behind them, or `None` where two lost already.
    pub fn with(self, number: u32) -> Option<Lost>
        ensures one_more { IfSome result (λ lost. numbers lost ≡ numbers self ++ number ∷ []) }
        ensures full { IsNone result ↔ (length (numbers self) ≡ 2) }
    {
        match self {
            Lost::Nobody => Some(Lost::One(number)),
            Lost::One(lower) => Some(Lost::Two(lower, number)),
            Lost::Two(_, _) => None,
        }
    }

    /// The first of them and the others, or `None` where nobody lost.
    pub fn split_first(self) -> Option<(u32, Lost)>
        ensures { MatchOption result (numbers self ≡ []) (λ parts. numbers self ≡ parts.0 ∷ numbers parts.1) }
    {
        match self {
            Lost::Nobody => None,
            Lost::One(number) => Some((number, Lost::Nobody)),
            Lost::Two(lower, higher) => Some((lower, Lost::One(higher))),
        }
    }
}
