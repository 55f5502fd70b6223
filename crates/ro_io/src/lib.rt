//! The outside: where files come from, where bytes go, and a gate that a lease passes before it runs. Contracts see what
//! a store or a sink holds where it tells, and how often it failed, a count that rises just where it fails. Over memory
//! there are `MemStore` and `MemSink`; the trusted edge is `FileStore` over the file system and `OutSink` over a stream, a
//! few lines each.
#![tactic(auto)]

mod file_store;
mod gates;
mod mem_sink;
mod mem_store;
mod out_sink;
mod sending;
mod sinks;
mod stores;

pub use file_store::FileStore;
pub use gates::{Gate, OpenGate, Place};
pub use mem_sink::{Act, MemSink};
pub use mem_store::MemStore;
pub use out_sink::OutSink;
pub use sending::send;
pub use sinks::{Failed, Sink};
pub use stores::{FetchError, Store};
