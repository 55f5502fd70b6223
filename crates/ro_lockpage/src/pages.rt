//! The page, its passes, and what is left of it.
ghost use Rattle.std.specs.Prelude.{◌≡◌, ◌+◌, ◌*◌, ◌%◌, ◌<◌, ◌≤◌, ◌⊎◌, ℕ, List, [], ◌∷◌, ◌++◌, length, map, Some, IfOk, IfSome, vec_capacity};
ghost use Rattle.ro_lockpage.specs.Ranks.{map_of, told, asked, steps, once, of_rank, row_in, thread_in, given, won_then, AreOlder, IfFor, Tells};
ghost use Rattle.ro_lockpage.specs.Hands.{first_of, fresh_hands};
ghost use Rattle.ro_lockpage.specs.Seats.{holding};
ghost use Rattle.ro_lockpage.specs.Pages.{HasShape, fresh_passes, AreFrom, AllAgree, AllSince, all_won, history, seen_of, row_of as row_told, IsPassSeat};
ghost use Rattle.ro_lockpage.specs.declared.words.Answer.TheVariants.{For, Passed};

use crate::seats::{Law, Shape, View};
use crate::steps::{Bid, Chair, deal, decide_at, gather, look_at};
use crate::words::{Answer, answered, row_of};
use atomic_table::{Closed as ClosedTable, Table};
use std::alloc::{AllocError, Global};
use std::marker::Model;

/// How many passes a page has.
const PASSES: u32 = 8;

/// Ranks of mutexes: the first time that a mutex is got, the second, and so on. No rank is decided at first; from the
/// call that decides it on it is decided for one thread, which never changes. A mutex has so many rows; the rank r stands
/// in the row r mod rows, which is used anew for each rank that is decided there, and tells of the newest of them. Where
/// no rank is asked for beyond the number of rows, each has a row of its own, and none is passed. Threads share the page
/// by `&`, each with a pass of its own.
#[derive(Drop)]
pub struct LockPage {
    table: Table<(), View, Shape, Law, Global>,
    shape: Shape,
}

// Contracts see which page it is, and its shape.
impl Model for LockPage {
    ghost use Rattle.std.specs.Prelude.{◌≡◌, ◌<◌, ◌≤◌, ◌*◌};
    ghost use Rattle.ro_lockpage.specs.Pages.{PageOf, HasShape};

    ghost Value = { PageOf };

    ghost view = { λ p. record { name = p.table.shared.table_id; mutexes = p.shape.mutexes; rows = p.shape.rows } };

    ghost invariant = { λ p. (p.table.shared.key ≡ p.shape) × (p.table.shared.table_id.words ≡ p.shape.mutexes * p.shape.rows) × (p.table.shared.table_id.slots ≡ 0) × HasShape p.shape.mutexes p.shape.rows };
}

/// What a thread asks with. Contracts see its page and number, what it was told, which ranks it decided, and what each of
/// its steps found.
#[derive(Drop)]
pub struct Pass {
    number: u32,
    seat: Chair,
}

impl Model for Pass {
    ghost use Rattle.ro_lockpage.specs.Hands.{first_of};
    ghost use Rattle.ro_lockpage.specs.Pages.{PassOf, IsPassSeat, seen_of};

    ghost Value = { PassOf };

    ghost view = { λ p. seen_of p.seat.table_id (first_of p.seat.me.0.hands) };

    ghost invariant = { λ p. IsPassSeat p.number p.seat };
}

/// A page that no thread shares any more.
pub struct Closed {
    words: ClosedTable<(), Global>,
    shape: Shape,
}

// Contracts see its shape and its words, each of which tells of the newest of its ranks that was decided.
impl Model for Closed {
    ghost use Rattle.std.specs.Prelude.{◌≡◌, ◌*◌};
    ghost use Rattle.std.specs.Mem.Slots.{slots_items, slots_len, IsFull};
    ghost use Rattle.ro_lockpage.specs.Pages.{ClosedOf, HasShape};

    ghost Value = { ClosedOf };

    ghost view = { λ c. record { mutexes = c.shape.mutexes; rows = c.shape.rows; words = slots_items c.words.words } };

    ghost invariant = { λ c. IsFull c.words.words × (slots_len c.words.words ≡ c.shape.mutexes * c.shape.rows) × (slots_len c.words.slots ≡ 0) × HasShape c.shape.mutexes c.shape.rows };
}

impl LockPage {
    /// A page of 1 to 256 mutexes with 1 to 1,024 rows each, no rank of which is decided, and its eight passes, with
    /// the numbers 0 to 7 in order.
    ///
    /// # Errors
    /// Where there is no memory.
    pub fn new(alloc: Global, mutexes: u32, rows: u32) -> Result<(LockPage, Vec<Pass>), AllocError>
        requires { HasShape mutexes rows }
        ensures { IfOk result (λ made. (made.0.mutexes ≡ mutexes) × (made.0.rows ≡ rows) × (made.1.items ≡ fresh_passes made.0.name 8)) }
    {
        let shape = Shape { mutexes, rows };
        let passes = Vec::with_capacity(alloc, PASSES as usize)?;
        let (table, seat) = lay(alloc, shape)?;
        let page = LockPage { table, shape };
        let passes = page.seated(seat, passes);
        Ok((page, passes))
    }

    // Deals a pass for each number.
    fn seated(&self, mut seat: Chair, mut passes: Vec<Pass>) -> Vec<Pass>
        requires empty { (passes.items ≡ []) × (vec_capacity passes ≡ 8) }
        requires seat { (seat.table_id ≡ self.now.name) × (seat.me ≡ (holding (fresh_hands 0 8), [])) }
        ensures { result.items ≡ fresh_passes self.now.name 8 }
    {
        for number in 0..PASSES - 1 {
            let dealt = deal(&self.table.shared, &mut seat);
            passes.push_reserved(Pass {
                number,
                seat: dealt,
            });
        }
        passes.push_reserved(Pass {
            number: PASSES - 1,
            seat,
        });
        passes
    }

    /// Decides a rank of a mutex for a thread (0 to 15) if its row tells of older ranks alone, and answers the thread for
    /// which the rank was decided then. A load finds what the row tells, and where that is older a `compare_exchange`
    /// decides, again and again as long as others decide older ranks there in between. Where the row tells of a newer
    /// rank, nothing is decided: that the caller asks for no rank that is as far behind is up to the caller.
    pub fn decide(&self, pass: &mut Pass, mutex: u32, rank: u32, thread: u32) -> Answer
        requires pass { pass.old.page ≡ self.now.name }
        requires range { mutex < self.now.mutexes }
        requires thread { thread < 16 }
        ensures same { (pass.new.page ≡ pass.old.page) × (pass.new.number ≡ pass.old.number) }
        ensures known { pass.new.known ≡ told pass.old.known mutex rank (thread_in (Some result)) }
        ensures did { (older : List ℕ) × (found : ℕ) × AreOlder rank older × (result ≡ given (row_in rank found) thread) × (pass.new.won ≡ won_then pass.old.won (row_in rank found) mutex rank thread) × (pass.new.asked ≡ pass.old.asked ++ steps mutex rank (older ++ found ∷ [])) }
        ensures knew { IfSome (map_of pass.old.known mutex rank) (λ t. ((result ≡ For t) ⊎ (result ≡ Passed)) × (pass.new.won ≡ pass.old.won)) }
        ensures thread { IfFor result (λ t. t < 16) }
    {
        let place = place_of(self.shape, mutex, rank);
        let bid = Bid {
            place,
            mutex,
            rank,
            thread,
        };
        let found = decide_at(&self.table.shared, &mut pass.seat, bid);
        answered(found, rank, thread)
    }

    /// The thread for which a rank was decided, by one load, or `None` where it found that the rank's row tells of none
    /// or of an older rank.
    pub fn look(&self, pass: &mut Pass, mutex: u32, rank: u32) -> Option<Answer>
        requires pass { pass.old.page ≡ self.now.name }
        requires range { mutex < self.now.mutexes }
        ensures same { (pass.new.page ≡ pass.old.page) × (pass.new.number ≡ pass.old.number) × (pass.new.won ≡ pass.old.won) }
        ensures known { pass.new.known ≡ told pass.old.known mutex rank (thread_in result) }
        ensures did { (found : ℕ) × (result ≡ row_in rank found) × (pass.new.asked ≡ pass.old.asked ++ asked mutex rank found ∷ []) }
        ensures knew { IfSome (map_of pass.old.known mutex rank) (λ t. (result ≡ Some (For t)) ⊎ (result ≡ Some Passed)) }
        ensures thread { IfSome result (λ a. IfFor a (λ t. t < 16)) }
    {
        let place = place_of(self.shape, mutex, rank);
        let found = look_at(&self.table.shared, &mut pass.seat, place, mutex, rank);
        row_of(found, rank)
    }

    // The seat that has the hands of all passes.
    fn gathered(&self, mut passes: Vec<Pass>) -> Chair
        requires { AreFrom self.now.name 0 passes.items × (length passes.items ≡ 8) }
        ensures seat { (result.table_id ≡ self.now.name) × (result.me.1 ≡ []) }
        ensures hands { passes.items ≡ map (seen_of self.now.name) result.me.0.hands }
    {
        let Some(last) = passes.pop() else {
            unreachable!()
        };
        let mut seat = last.into_seat();
        while let Some(pass) = passes.pop() {
            gather(&self.table.shared, &mut seat, pass.into_seat());
        }
        seat
    }

    /// Closes the page, with its eight passes in the order of their numbers.
    pub fn close(self, mut passes: Vec<Pass>) -> Closed
        requires { AreFrom self.name 0 passes.items × (length passes.items ≡ 8) }
        ensures shape { (result.mutexes ≡ self.mutexes) × (result.rows ≡ self.rows) }
        ensures known { AllAgree (history passes.items) passes.items }
        ensures won { (mutex rank : ℕ) → of_rank mutex rank (all_won passes.items) ≡ once mutex rank (history passes.items mutex rank) }
        ensures rows { (mutex rank : ℕ) → Tells self.rows (history passes.items) mutex rank (row_told result mutex rank) }
        ensures since { AllSince result passes.items }
    {
        let seat = self.gathered(passes);
        let LockPage { table, shape } = self;
        Closed {
            words: table.close_with(seat),
            shape,
        }
    }
}

impl Pass {
    /// Its number, 0 to 7.
    pub fn number(&self) -> u32
        ensures { result ≡ self.now.number }
    {
        self.number
    }

    // Its seat.
    fn into_seat(self) -> Chair
        ensures seat { (self ≡ seen_of result.table_id (first_of result.me.0.hands)) × IsPassSeat self.number result }
    {
        let Pass { number: _, seat } = self;
        seat
    }
}

impl Closed {
    /// The thread for which a rank was decided, or `None` where its row tells of none or of an older rank.
    pub fn row(&self, mutex: u32, rank: u32) -> Option<Answer>
        requires range { mutex < self.now.mutexes }
        ensures row { result ≡ row_told self.now mutex rank }
        ensures thread { IfSome result (λ a. IfFor a (λ t. t < 16)) }
    {
        let place = place_of(self.shape, mutex, rank);
        row_of(self.words.word(place), rank)
    }
}

impl Drop for Closed {
    fn drop(self) {
        let Closed { words, shape: _ } = self;
        words.free();
    }
}

// The word of a rank.
fn place_of(shape: Shape, mutex: u32, rank: u32) -> usize
    requires shape { HasShape shape.mutexes shape.rows }
    requires range { mutex < shape.mutexes }
    ensures { (result ≡ mutex * shape.rows + rank % shape.rows) × (result < shape.mutexes * shape.rows) }
{
    let row = rank % shape.rows;
    mutex as usize * shape.rows as usize + row as usize
}

// A table of words that are all 0.
fn lay(
    alloc: Global,
    shape: Shape,
) -> Result<(Table<(), View, Shape, Law, Global>, Chair), AllocError>
    requires { HasShape shape.mutexes shape.rows }
    ensures table { IfOk result (λ t. (t.0.shared.key ≡ shape) × (t.0.shared.table_id.words ≡ shape.mutexes * shape.rows) × (t.0.shared.table_id.slots ≡ 0)) }
    ensures seat { IfOk result (λ t. (t.1.table_id ≡ t.0.shared.table_id) × (t.1.me ≡ (holding (fresh_hands 0 8), []))) }
{
    let zeros = vec![in alloc; 0u64; shape.mutexes as usize * shape.rows as usize]?;
    Table::of_words(alloc, zeros.as_slice(), &shape)
}
