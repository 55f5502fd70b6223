//! The input, which stands in memory for as long as a run goes on, and which all replicas read.
ghost use Rattle.std.specs.Prelude.{◌≡◌, ◌≤◌, IfOk, option_map, vec_len};
ghost use Rattle.ro_kernel.specs.Inputs.{IsThrice, part, prevailing};

use std::alloc::{AllocError, Global};

/// The input, three times: what memory changes by itself in one of them reaches nobody.
#[derive(Drop)]
pub(crate) struct Input {
    first: Vec<u8>,
    second: Vec<u8>,
    third: Vec<u8>,
}

impl Input {
    /// Keeps these bytes.
    pub fn of(alloc: Global, bytes: &[u8]) -> Result<Input, AllocError>
        ensures { IfOk result (λ input. IsThrice input bytes.now) }
    {
        Ok(Input {
            first: bytes.to_vec(alloc)?,
            second: bytes.to_vec(alloc)?,
            third: bytes.to_vec(alloc)?,
        })
    }

    /// The bytes behind so many, at most so many, as two of the three have them at least; `None` where no two are alike.
    pub fn part(&self, from: usize, most: usize) -> Option<&[u8]>
        requires first { from ≤ vec_len self.now.first }
        requires second { from ≤ vec_len self.now.second }
        requires third { from ≤ vec_len self.now.third }
        ensures { option_map (λ bytes. bytes.now) result ≡ prevailing (part from most self.now.first.items) (part from most self.now.second.items) (part from most self.now.third.items) }
    {
        prevailing(
            part(&self.first, from, most),
            part(&self.second, from, most),
            part(&self.third, from, most),
        )
    }
}

// The bytes behind so many, at most so many.
fn part(bytes: &Vec<u8>, from: usize, most: usize) -> &[u8]
    requires { from ≤ vec_len bytes.now }
    ensures { result.now ≡ part from most bytes.now.items }
{
    let rest = &bytes[from..];
    &rest[..rest.len().min(most)]
}

// What two of three are at least.
fn prevailing<'a>(one: &'a [u8], two: &'a [u8], three: &'a [u8]) -> Option<&'a [u8]>
    ensures { option_map (λ bytes. bytes.now) result ≡ prevailing one.entry.now two.entry.now three.entry.now }
{
    if one == two || one == three {
        Some(one)
    } else if two == three {
        Some(two)
    } else {
        None
    }
}
