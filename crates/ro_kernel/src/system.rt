//! The system calls.
ghost use Rattle.std.specs.Prelude.{◌≡◌, ◌+◌, ◌≤◌, ◌==◌, ◌||◌, take, drop, length, IfOk, IfSome, IsSome, OnErr};
ghost use Rattle.ro_kernel.specs.Serve.{capped, serve_read, serve_write, serve_brk, serve_mmap, serve_system};
ghost use Rattle.ro_kernel.specs.Served.{Brings, IsServe};

use crate::answers::{answer, gives, stores};
use crate::errors::{EBADF, EFAULT, EINVAL, ENOMEM, ENOSYS, negative};
use crate::outcome::Served;
use crate::state::Kernel;
use ro_event::Call;
use ro_journal::How;
use ro_limits::{HEAP_SIZE, MAPPED_PAGES, MAPPED_START, MOST_BYTES, PAGE_SIZE};
use ro_region::{Kind, Range};
use std::alloc::AllocError;

// The calls have the numbers of Linux's generic table.

/// The number of `read`.
const READ: u32 = 63;

/// The number of `write`.
pub const WRITE: u32 = 64;

/// The number of `exit`.
const EXIT: u32 = 93;

/// The number of `exit_group`, which does what `exit` does.
const EXIT_GROUP: u32 = 94;

/// The number of `brk`.
const BRK: u32 = 214;

/// The number of `mmap`.
const MMAP: u32 = 222;

/// What `mmap` is asked for that gives memory of the caller's own: private and anonymous.
const MAP_PRIVATE_ANONYMOUS: u32 = 0x22;

/// Memory that may be read.
const PROT_READ: u32 = 1;

/// Memory that may be read and written.
const PROT_READ_WRITE: u32 = 3;

/// Where the memory ends that may be given on demand.
pub const MAPPED_END: u32 = MAPPED_START + MAPPED_PAGES * PAGE_SIZE;

/// The descriptor of the input.
const STDIN: u32 = 0;

/// The first descriptor of the output.
const STDOUT: u32 = 1;

/// The second descriptor of the output.
const STDERR: u32 = 2;

/// How many bytes a call moves that is asked for so many.
pub fn capped(len: u32) -> u32
    ensures { result ≡ capped len }
{
    len.min(MOST_BYTES)
}

/// Whether a file is one of those that are written to the output.
pub fn is_output(file: u32) -> bool
    ensures { result ≡ ((file == 1) || (file == 2)) }
{
    file == STDOUT || file == STDERR
}

impl Kernel {
    /// A system call by its number.
    pub(crate) fn system(
        &mut self,
        thread: u32,
        call: Call,
        number: u32,
    ) -> Result<Served, AllocError>
        ensures served { IsServe (serve_system self.old.setup self.old.kernel thread call number) self.old self.new result }
        ensures memory { OnErr result (number ≡ 63) }
    {
        match number {
            READ => self.read(thread, call),
            WRITE => Ok(self.write(thread, call)),
            EXIT | EXIT_GROUP => Ok(Served::Ends(How::Exit((call.a0 % 256) as u8))),
            BRK => Ok(self.brk(thread, call)),
            MMAP => Ok(self.mmap(thread, call)),
            _ => Ok(answer(self.alloc, thread, call, negative(ENOSYS))),
        }
    }

    /// read(fd, buf, len): the next bytes of the input.
    fn read(&mut self, thread: u32, call: Call) -> Result<Served, AllocError>
        ensures { IsServe (serve_read self.old.setup self.old.kernel thread call) self.old self.new result }
    {
        let len = capped(call.a2);
        if call.a0 != STDIN {
            return Ok(answer(self.alloc, thread, call, negative(EBADF)));
        }
        if len == 0 {
            return Ok(answer(self.alloc, thread, call, 0));
        }
        if !self.regions.permits(call.a1, len, Kind::Write) {
            return Ok(answer(self.alloc, thread, call, negative(EFAULT)));
        }
        let Some(bytes) = self.next_input(len)? else {
            return Ok(Served::Ends(How::NoMajority));
        };
        self.taken += bytes.len();
        Ok(stores(thread, call, bytes.len() as u32, call.a1, bytes))
    }

    /// The next bytes of the input, at most so many. They are `None` only where memory has changed by itself, so that no two of the
    /// copies that are kept say the same.
    fn next_input(&self, most: u32) -> Result<Option<Vec<u8>>, AllocError>
        ensures there { IfOk result IsSome }
        ensures bytes { IfOk result (λ found. IfSome found (λ bytes. bytes.items ≡ take most (drop self.now.kernel.taken self.now.setup.input))) }
        ensures most { IfOk result (λ found. IfSome found (λ bytes. length bytes.items ≤ most)) }
        ensures within { IfOk result (λ found. IfSome found (λ bytes. self.now.kernel.taken + length bytes.items ≤ length self.now.setup.input)) }
    {
        let Some(bytes) = self.input.part(self.taken, most as usize) else {
            return Ok(None);
        };
        Ok(Some(bytes.to_vec(self.alloc)?))
    }

    /// write(fd, buf, len): the answer alone, since the bytes are the caller's to read.
    fn write(&mut self, thread: u32, call: Call) -> Served
        ensures { Brings (serve_write self.old.setup self.old.kernel thread call) self.old self.new result }
    {
        let len = capped(call.a2);
        let value = if !is_output(call.a0) {
            negative(EBADF)
        } else if len > 0 && !self.regions.permits(call.a1, len, Kind::Read) {
            negative(EFAULT)
        } else {
            len
        };
        answer(self.alloc, thread, call, value)
    }

    /// brk(address): the new end of the heap, or the old one where the address lies outside.
    fn brk(&mut self, thread: u32, call: Call) -> Served
        ensures { Brings (serve_brk self.old.setup self.old.kernel thread call) self.old self.new result }
    {
        let end = u64::from(self.heap) + u64::from(HEAP_SIZE);
        if self.heap <= call.a0 && u64::from(call.a0) <= end {
            self.heap_end = call.a0;
        }
        answer(self.alloc, thread, call, self.heap_end)
    }

    /// mmap(addr, len, prot, flags): the address of so many bytes in whole pages, which may be accessed from now on. Where they
    /// should lie is not looked at: they follow those that were given before.
    fn mmap(&mut self, thread: u32, call: Call) -> Served
        ensures { Brings (serve_mmap self.old.kernel thread call) self.old self.new result }
    {
        if call.a3 != MAP_PRIVATE_ANONYMOUS {
            return answer(self.alloc, thread, call, negative(EINVAL));
        }
        if call.a2 != PROT_READ && call.a2 != PROT_READ_WRITE {
            return answer(self.alloc, thread, call, negative(EINVAL));
        }
        if call.a1 == 0 {
            return answer(self.alloc, thread, call, negative(EINVAL));
        }
        let page = u64::from(PAGE_SIZE);
        let length = u64::from(call.a1).div_ceil(page) * page;
        let end = u64::from(self.map_end) + length;
        if end > u64::from(MAPPED_END) {
            return answer(self.alloc, thread, call, negative(ENOMEM));
        }
        let range = Range {
            start: self.map_end,
            length: length as u32,
            read: true,
            write: call.a2 == PROT_READ_WRITE,
            execute: false,
        };
        self.regions.add(range);
        self.map_end = end as u32;
        gives(self.alloc, thread, call, range)
    }
}
