//! A replica at the opening of a program.
ghost use Rattle.std.specs.Prelude.{◌≡◌, ◌==◌, ◌||◌, ◌+◌, ◌≤◌, ◌∷◌, [], All, IfOk, OnOk, length, vec_capacity};
ghost use Rattle.std.specs.List.{filter};
ghost use Rattle.ro_pages.specs.Bytes.{covers_page, stored};
ghost use Rattle.ro_pages.specs.Held.{memory_of as memory_in, has_page};
ghost use Rattle.ro_exec.specs.Threads.{first_cpu as first};
ghost use Rattle.ro_image.specs.Image.{LiesLow, memory_of, holds_file_byte};
ghost use Rattle.ro_image.specs.Pieces.{piece_of, pieces_in};
ghost use Rattle.ro_replica.specs.Replica.{unstopped};
ghost use Rattle.ro_replica.specs.Seen.{IsOpening, AreFaults};

use crate::backing::{back_stretch, pages_over};
use crate::cpus::first_cpu;
use crate::replicas::Replica;
use crate::waiting::Waiting;
use ro_event::CallTable;
use ro_exec::{Cpu, Learnt};
use ro_faults::Fault;
use ro_image::{Executable, FilePiece};
use ro_pages::Pages;
use ro_region::Regions;
use ro_thread::Thread;
use std::alloc::{AllocError, Global};

/// How many threads a replica has places for.
pub(crate) const PLACES: usize = ro_limits::MOST_THREADS as usize;

impl Replica {
    /// A replica of this number at the opening of a program, with the faults of a list that are its own.
    ///
    /// # Errors
    /// Where there is no memory.
    pub fn new(
        alloc: Global,
        image: &Executable,
        regions: Regions,
        number: u32,
        faults: &[Fault],
        watchdog: u32,
    ) -> Result<Replica, AllocError>
        requires regions { regions ≡ record { given = []; first = image.now.ranges } }
        requires faults { AreFaults faults.now }
        ensures opening { IfOk result (λ r. IsOpening image.now number faults.now watchdog r) }
    {
        let pages = pages_of(alloc, image.pieces())?;
        let threads = first_threads(alloc, image.entry())?;
        let waiting = faults_of(alloc, faults, number)?;
        Ok(Replica {
            regions,
            calls: CallTable::new(*image.calls().addresses()),
            watchdog,
            pages,
            learnt: Learnt::nothing(),
            threads,
            waiting: Waiting::new(waiting),
        })
    }
}

/// A thread that is not stopped and has retired no instruction.
pub(crate) fn unstopped(cpu: Cpu) -> Thread
    ensures { result ≡ unstopped cpu }
{
    Thread {
        cpu,
        since: 0,
        done: 0,
        stop: None,
    }
}

/// The first thread, with places for the others.
fn first_threads(alloc: Global, entry: u32) -> Result<Vec<Thread>, AllocError>
    ensures first { IfOk result (λ threads. threads.items ≡ unstopped (first entry) ∷ []) }
    ensures places { IfOk result (λ threads. 16 ≤ vec_capacity threads) }
{
    let mut threads = Vec::with_capacity(alloc, PLACES)?;
    threads.push(unstopped(first_cpu(entry)))?;
    Ok(threads)
}

/// The faults of the replica of this number, in the list's order.
fn faults_of(alloc: Global, faults: &[Fault], number: u32) -> Result<Vec<Fault>, AllocError>
    ensures { IfOk result (λ own. own.items ≡ filter (λ fault. fault.replica == number) faults.now) }
{
    faults
        .iter()
        .filter(|fault| fault.replica == number)
        .copied()
        .collect(alloc)
}

/// The memory of a program at its opening: each page that holds a byte of its file is backed.
pub fn pages_of(alloc: Global, pieces: &[FilePiece]) -> Result<Pages, AllocError>
    requires { All LiesLow (pieces_in pieces.now) }
    ensures bytes { IfOk result (λ pages. memory_in pages.pages ≡ memory_of (pieces_in pieces.now)) }
    ensures backed { IfOk result (λ pages. has_page pages.pages ≡ holds_file_byte (pieces_in pieces.now)) }
{
    let mut pages = Pages::new(alloc)?;
    for i in (0..pieces.len()).rev() {
        put_piece(&mut pages, &pieces[i])?;
    }
    Ok(pages)
}

/// Stores the bytes of a piece, in pages that are backed for it.
fn put_piece(pages: &mut Pages, piece: &FilePiece) -> Result<(), AllocError>
    requires { LiesLow (piece_of piece.now) }
    ensures bytes { OnOk result (memory_in pages.new.pages ≡ stored (memory_in pages.old.pages) piece.now.place piece.now.bytes.items) }
    ensures backed { OnOk result (has_page pages.new.pages ≡ (λ page. has_page pages.old.pages page || covers_page (record { place = piece.now.place; count = length piece.now.bytes.items }) page)) }
{
    let len = piece.bytes.len() as u32;
    pages.reserve(pages_over(piece.place, len))?;
    back_stretch(pages, piece.place, len);
    pages.write_bytes(piece.place, piece.bytes.as_slice());
    Ok(())
}
