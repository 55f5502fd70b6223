//! What the words of a page tell: each of the newest of its ranks that was decided.
ghost use Rattle.std.specs.Prelude.{◌≡◌, ◌+◌, ◌*◌, ◌<◌, IfSome, Some};
ghost use Rattle.ro_lockpage.specs.Ranks.{row_in, first_word, given, IfFor};

/// What is told of a rank that was decided.
#[derive(Clone, Copy, PartialEq, Eq, Debug)]
pub enum Answer {
    /// It was decided for this thread.
    For(u32),
    /// Its row tells of a newer rank, and no more of this one.
    Passed,
}

/// The least word that tells of a rank.
pub fn first_of_rank(rank: u32) -> u64
    ensures { result ≡ first_word rank }
{
    u64::from(rank) * 16 + 1
}

/// What a word tells of a rank, or `None` where it is empty or of an older rank.
pub fn row_of(word: u64, rank: u32) -> Option<Answer>
    ensures row { result ≡ row_in rank word }
    ensures thread { IfSome result (λ a. IfFor a (λ t. t < 16)) }
{
    let first = first_of_rank(rank);
    if word < first {
        None
    } else if word < first + 16 {
        Some(Answer::For((word - first) as u32))
    } else {
        Some(Answer::Passed)
    }
}

/// What a decide answers whose last step found this word.
pub fn answered(word: u64, rank: u32, thread: u32) -> Answer
    requires { thread < 16 }
    ensures answer { result ≡ given (row_in rank word) thread }
    ensures thread { IfFor result (λ t. t < 16) }
{
    match row_of(word, rank) {
        None => Answer::For(thread),
        Some(answer) => answer,
    }
}
