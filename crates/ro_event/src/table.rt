//! The addresses at which a thread calls a function of POSIX threads.
ghost use Rattle.std.specs.Prelude.{ℕ, ◌≡◌, ◌+◌, ◌/◌, ◌%◌, ◌^◌, ◌<◌, ◌≤◌, ◌∷◌, drop, true, false, None, slice_index};
ghost use Rattle.std.specs.List.{list_any};
ghost use Rattle.ro_event.specs.Addresses.{is_at};
ghost use Rattle.ro_event.specs.Table.{call_at};

use crate::calls::Which;
use crate::functions::{FUNCTIONS, Function};
use std::marker::Model;

/// The addresses of the functions of POSIX threads, in their order; `None` where the program has none.
#[derive(Drop)]
pub struct CallTable {
    addresses: [Option<u32>; FUNCTIONS],
    /// The bits of the addresses, so that most places are seen to be none of them at once.
    filter: u64,
}

impl Model for CallTable {
    ghost use Rattle.ro_event.specs.Addresses.{Addresses, IsFilter};

    ghost Value = { Addresses };

    ghost view = { λ s. record { addresses = s.addresses } };

    ghost invariant = { λ s. IsFilter s.addresses s.filter };
}

impl CallTable {
    /// The table of these addresses.
    pub fn new(addresses: [Option<u32>; FUNCTIONS]) -> CallTable
        ensures { result.addresses ≡ addresses }
    {
        let mut filter = 0u64;
        for i in 0..FUNCTIONS {
            filter = with_address(filter, addresses[i]);
        }
        CallTable { addresses, filter }
    }

    /// The addresses that it was made of.
    pub fn addresses(&self) -> &[Option<u32>; FUNCTIONS]
        ensures { result.now ≡ self.now.addresses }
    {
        &self.addresses
    }

    /// The function whose address this is, the first where several have it.
    #[inline(always)]
    pub fn find(&self, pc: u32) -> Option<Which>
        ensures { result ≡ call_at self.now pc }
    {
        if (self.filter >> (pc / 4 % 64)) % 2 == 0 {
            return None;
        }
        self.search(pc)
    }

    /// A part of the addresses from `from` to before `to` that has no function's address: the one round a place, between
    /// the addresses that lie next to it. It begins at a multiple of 4, as they do.
    pub fn clear_around(&self, pc: u32, from: u32, to: u32) -> (u32, u32)
        requires aligned { from % 4 ≡ 0 }
        requires ordered { from ≤ to }
        requires low { to < 2 ^ 31 }
        ensures clear { (p : ℕ) → result.0 ≤ p → p < result.1 → call_at self.now p ≡ None }
        ensures round { list_any (is_at pc) self.now.addresses ≡ false → pc % 4 ≡ 0 → from ≤ pc → pc < to → (result.0 ≤ pc) × (pc < result.1) }
        ensures aligned { result.0 % 4 ≡ 0 }
        ensures begins { from ≤ result.0 }
        ensures ordered { result.0 ≤ result.1 }
        ensures ends { result.1 ≤ to }
    {
        let mut from = from;
        let mut to = to;
        for i in 0..FUNCTIONS {
            (from, to) = cut(self.addresses[i], pc, from, to);
        }
        (from, to)
    }

    fn search(&self, pc: u32) -> Option<Which>
        ensures { result ≡ call_at self.now pc }
    {
        for i in 0..FUNCTIONS {
            let function = Function::at(i);
            if stands_at(self.addresses[i], pc) {
                return Some(Which::Function(function));
            }
        }
        None
    }
}

/// The part of the addresses from `from` to before `to` that lies before a function's address, or the one behind it,
/// where the place lies behind it; all of them where they don't have that address.
fn cut(address: Option<u32>, pc: u32, from: u32, to: u32) -> (u32, u32)
    requires aligned { from % 4 ≡ 0 }
    requires ordered { from ≤ to }
    requires low { to < 2 ^ 31 }
    ensures clear { (p : ℕ) → result.0 ≤ p → p < result.1 → is_at p address ≡ false }
    ensures round { is_at pc address ≡ false → pc % 4 ≡ 0 → from ≤ pc → pc < to → (result.0 ≤ pc) × (pc < result.1) }
    ensures aligned { result.0 % 4 ≡ 0 }
    ensures begins { from ≤ result.0 }
    ensures ordered { result.0 ≤ result.1 }
    ensures ends { result.1 ≤ to }
{
    match address {
        Some(address) if from <= address && address < to => {
            if pc <= address {
                (from, address)
            } else {
                let behind = address / 4 * 4 + 4;
                if behind <= to {
                    (behind, to)
                } else {
                    (from, from)
                }
            }
        }
        _ => (from, to),
    }
}

fn stands_at(address: Option<u32>, pc: u32) -> bool
    ensures { result ≡ is_at pc address }
{
    address == Some(pc)
}

/// The filter with the bit of one more address.
fn with_address(filter: u64, address: Option<u32>) -> u64
    ensures set { (pc : ℕ) → is_at pc address ≡ true → result / 2 ^ (pc / 4 % 64) % 2 ≡ 1 }
    ensures kept { (k : ℕ) → filter / 2 ^ k % 2 ≡ 1 → result / 2 ^ k % 2 ≡ 1 }
{
    match address {
        Some(address) => with_bit(filter, address / 4 % 64),
        None => filter,
    }
}

fn with_bit(filter: u64, bit: u32) -> u64
    requires { bit < 64 }
    ensures set { result / 2 ^ bit % 2 ≡ 1 }
    ensures kept { (k : ℕ) → filter / 2 ^ k % 2 ≡ 1 → result / 2 ^ k % 2 ≡ 1 }
{
    filter | 1u64 << bit
}
