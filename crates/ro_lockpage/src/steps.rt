//! The steps on the table, of seats alone.
ghost use Rattle.std.specs.Prelude.{◌≡◌, ◌+◌, ◌*◌, ◌%◌, ◌<◌, ℕ, suc, List, [], ◌∷◌, ◌++◌};
ghost use mathlib.Core.Option.{none};
ghost use Rattle.atomic_table.specs.Table.{step};
ghost use Rattle.ro_lockpage.specs.Ranks.{first_word, word_of, AreOlder};
ghost use Rattle.ro_lockpage.specs.Hands.{first_of, others_of, fresh_hands};
ghost use Rattle.ro_lockpage.specs.Seats.{Exchanges, Looks, Shows, Keeps, holding, after_exchange, after_look, after_decide};

use crate::seats::{Asking, Deal, Exchange, Gather, Law, Look, Shape, View};
use crate::words::first_of_rank;
use atomic_table::{Seat, Shared};
use std::marker::Brand;

pub type Words = Shared<(), View, Shape, Law>;

pub type Chair = Seat<(), View>;

/// A rank of a mutex, its word, and a thread.
#[derive(Clone, Copy)]
pub struct Bid {
    pub place: usize,
    pub mutex: u32,
    pub rank: u32,
    pub thread: u32,
}

// The compare_exchange of the word of the rank that `A` names, for the thread that it names.
fn exchange<A: Asking>(words: &Words, seat: &mut Chair, bid: Bid, was: u64) -> u64
    requires asking { (bid.mutex ≡ A.at_mutex) × (bid.rank ≡ A.at_rank) × (bid.thread ≡ A.for_thread) × (was ≡ A.on_word) }
    requires older { (bid.thread < 16) × (was < first_word bid.rank) }
    requires place { (bid.place ≡ bid.mutex * words.now.key.rows + bid.rank % words.now.key.rows) × (bid.mutex < words.now.key.mutexes) × (0 < words.now.key.rows) }
    requires seat { (seat.old.table_id ≡ words.now.table_id) × (bid.place < words.now.table_id.words) }
    requires one { seat.old.me.0.hands ≡ first_of seat.old.me.0.hands ∷ [] }
    ensures seat { (seat.new.table_id ≡ seat.old.table_id) × (seat.new.id ≡ seat.old.id) }
    ensures exchanged { Exchanges A.at_mutex A.at_rank A.for_thread A.on_word (step words.now.table_id.slots bid.place was (word_of bid.rank bid.thread) none) seat.old.me result seat.new.me }
{
    let new = first_of_rank(bid.rank) + u64::from(bid.thread);
    words.compare_exchange::<Exchange<A>>(seat, bid.place, was, new)
}

// The load of the word of the rank that `A` names.
fn load<A: Asking>(words: &Words, seat: &mut Chair, place: usize, mutex: u32, rank: u32) -> u64
    requires asking { (mutex ≡ A.at_mutex) × (rank ≡ A.at_rank) }
    requires place { place ≡ mutex * words.now.key.rows + rank % words.now.key.rows }
    requires seat { (seat.old.table_id ≡ words.now.table_id) × (place < words.now.table_id.words) }
    requires one { seat.old.me.0.hands ≡ first_of seat.old.me.0.hands ∷ [] }
    ensures seat { (seat.new.table_id ≡ seat.old.table_id) × (seat.new.id ≡ seat.old.id) }
    ensures looked { Looks A.at_mutex A.at_rank (step words.now.table_id.slots place 0 0 none) seat.old.me result seat.new.me }
{
    let _ = (mutex, rank);
    words.load::<Look<A>>(seat, place)
}

/// Gives the first hand to a seat of its own.
pub fn deal(words: &Words, seat: &mut Chair) -> Chair
    requires seat { (seat.old.table_id ≡ words.now.table_id) × (0 < words.now.table_id.words) }
    requires view { (n : ℕ) × (k : ℕ) × (seat.old.me.0 ≡ holding (fresh_hands n (suc k))) }
    ensures seat { (seat.new.table_id ≡ seat.old.table_id) × (seat.new.me.1 ≡ seat.old.me.1) }
    ensures left { seat.new.me.0 ≡ holding (others_of seat.old.me.0.hands) }
    ensures new { (result.table_id ≡ seat.old.table_id) × (result.me ≡ (holding (first_of seat.old.me.0.hands ∷ []), [])) }
{
    words.split_seat::<Deal>(seat)
}

/// Takes the hands of another seat, in front of its own.
pub fn gather(words: &Words, seat: &mut Chair, other: Chair)
    requires seat { (seat.old.table_id ≡ words.now.table_id) × (other.table_id ≡ words.now.table_id) × (0 < words.now.table_id.words) }
    requires empty { other.me.1 ≡ [] }
    ensures seat { (seat.new.table_id ≡ seat.old.table_id) × (seat.new.me ≡ (holding (other.me.0.hands ++ seat.old.me.0.hands), seat.old.me.1)) }
{
    words.join_seat::<Gather>(seat, other);
}

/// Exchanges the word of a rank for that of the rank and a thread, where it is this older one, and answers what it was.
fn exchange_at(words: &Words, seat: &mut Chair, bid: Bid, was: u64) -> u64
    requires older { (bid.thread < 16) × (was < first_word bid.rank) }
    requires place { (bid.place ≡ bid.mutex * words.now.key.rows + bid.rank % words.now.key.rows) × (bid.mutex < words.now.key.mutexes) × (0 < words.now.key.rows) }
    requires seat { (seat.old.table_id ≡ words.now.table_id) × (bid.place < words.now.table_id.words) }
    requires one { seat.old.me.0.hands ≡ first_of seat.old.me.0.hands ∷ [] }
    ensures seat { (seat.new.table_id ≡ seat.old.table_id) × (seat.new.me ≡ (holding (after_exchange (first_of seat.old.me.0.hands) bid.mutex bid.rank bid.thread was result ∷ []), seat.old.me.1)) }
    ensures shows { Shows (first_of seat.old.me.0.hands) bid.mutex bid.rank result }
{
    exchange::<Brand>(words, seat, bid, was)
}

/// Decides a rank for a thread where its word is still that of an older one, and answers what the last step found.
pub fn decide_at(words: &Words, seat: &mut Chair, bid: Bid) -> u64
    requires thread { bid.thread < 16 }
    requires place { (bid.place ≡ bid.mutex * words.now.key.rows + bid.rank % words.now.key.rows) × (bid.mutex < words.now.key.mutexes) × (0 < words.now.key.rows) }
    requires seat { (seat.old.table_id ≡ words.now.table_id) × (bid.place < words.now.table_id.words) }
    requires one { seat.old.me.0.hands ≡ first_of seat.old.me.0.hands ∷ [] }
    ensures seat { (seat.new.table_id ≡ seat.old.table_id) × (seat.new.me.1 ≡ seat.old.me.1) }
    ensures decided { (older : List ℕ) × AreOlder bid.rank older × (seat.new.me.0 ≡ holding (after_decide (first_of seat.old.me.0.hands) bid.mutex bid.rank bid.thread older result ∷ [])) }
    ensures keeps { Keeps (first_of seat.old.me.0.hands).known bid.mutex bid.rank result }
{
    let first = first_of_rank(bid.rank);
    let mut found = look_at(words, seat, bid.place, bid.mutex, bid.rank);
    while found < first {
        let was = found;
        found = exchange_at(words, seat, bid, was);
        if found == was {
            return found;
        }
    }
    found
}

/// What the word of a rank holds.
pub fn look_at(words: &Words, seat: &mut Chair, place: usize, mutex: u32, rank: u32) -> u64
    requires place { place ≡ mutex * words.now.key.rows + rank % words.now.key.rows }
    requires seat { (seat.old.table_id ≡ words.now.table_id) × (place < words.now.table_id.words) }
    requires one { seat.old.me.0.hands ≡ first_of seat.old.me.0.hands ∷ [] }
    ensures seat { (seat.new.table_id ≡ seat.old.table_id) × (seat.new.me ≡ (holding (after_look (first_of seat.old.me.0.hands) mutex rank result ∷ []), seat.old.me.1)) }
    ensures shows { Shows (first_of seat.old.me.0.hands) mutex rank result }
{
    load::<Brand>(words, seat, place, mutex, rank)
}
