//! Sending bytes to a sink.
ghost use Rattle.std.specs.Prelude.{◌≡◌, ◌+◌, ◌^◌, ◌<◌, ◌≤◌, None, IfSome, length, take};
ghost use Rattle.ro_io.specs.Outside.{Rose, more};

use crate::sinks::{Failed, Sink};

/// Gives bytes to a sink, piece by piece, until it has taken all or fails; answers how many it took where it failed.
pub fn send<K: Sink>(out: &mut K, bytes: &[u8]) -> Option<u32>
    requires few { length bytes.now < 2 ^ 32 }
    requires unfailed { K.failures out.old ≡ 0 }
    ensures whole { result ≡ None → K.held out.new ≡ more (K.held out.old) bytes.now }
    ensures part { IfSome result (λ n. (n < length bytes.now) × (K.held out.new ≡ more (K.held out.old) (take n bytes.now)) × Rose (K.failures out.old) (K.failures out.new)) }
    ensures calm { result ≡ None → K.failures out.new ≡ K.failures out.old }
    ensures failures { K.failures out.old ≤ K.failures out.new }
    ensures sure { result ≡ None → K.sure out.old ≤ K.sure out.new + length bytes.now }
    ensures full { IfSome result (λ _. K.sure out.old < length bytes.now) }
{
    let mut sent = 0;
    while sent < bytes.len() {
        match out.give(&bytes[sent..]) {
            Ok(taken) => sent += taken,
            Err(Failed) => return Some(sent as u32),
        }
    }
    None
}
