//! Error numbers, those of Linux and of POSIX threads.
ghost use Rattle.std.specs.Prelude.{◌≡◌, ◌^◌, ◌<◌};
ghost use Rattle.ro_kernel.specs.Serve.{minus};

/// The caller doesn't own the mutex.
pub const EPERM: u32 = 1;

/// There is no such thread.
pub const ESRCH: u32 = 3;

/// The descriptor is not one that is open for this.
pub const EBADF: u32 = 9;

/// There is no place for another thread or mutex.
pub const EAGAIN: u32 = 11;

/// There is not so much memory.
pub const ENOMEM: u32 = 12;

/// An address may not be read or written.
pub const EFAULT: u32 = 14;

/// The mutex is held.
pub const EBUSY: u32 = 16;

/// An argument is not valid.
pub const EINVAL: u32 = 22;

/// The caller would wait for itself.
pub const EDEADLK: u32 = 35;

/// There is no such call.
pub const ENOSYS: u32 = 38;

/// The answer of a system call that fails with this number.
pub fn negative(error: u32) -> u32
    requires { 0 < error }
    ensures { result ≡ minus error }
{
    error.wrapping_neg()
}
