//! A store over the file system.
ghost use Rattle.std.specs.Prelude.{◌≡◌, ◌≤◌, None, IfOk, IfSome, length, take};

use crate::stores::{FetchError, Store};
use std::alloc::Global;
use std::fs;
use std::io::Read;
use std::marker::Model;
use std::rt::Files;

/// A store over the file system. It does not tell what files there are, nor for which it was called.
#[derive(Drop)]
pub struct FileStore<'a, R: Files> {
    rt: &'a R,
    failures: u64,
    calls: u64,
}

// Contracts see how often it failed, and how often it was called.
impl<'a, R: Files> Model for FileStore<'a, R> {
    ghost use Rattle.std.specs.Prelude.{ℕ};

    ghost Value = { ℕ × ℕ };

    ghost view = { λ s. (s.failures, s.calls) };
}

impl<'a, R: Files> FileStore<'a, R> {
    /// A store that was not called yet.
    pub fn new(rt: &'a R) -> FileStore<'a, R>
        ensures { result ≡ (0, 0) }
    {
        FileStore {
            rt,
            failures: 0,
            calls: 0,
        }
    }
}

impl<'a, R: Files> Store for FileStore<'a, R> {
    ghost told = { λ _. None };

    ghost failures = { λ s. s.0 };

    ghost calls = { λ s. record { count = s.1; list = None } };

    fn fetch(&mut self, alloc: Global, name: &str, most: usize) -> Result<Vec<u8>, FetchError> {
        self.calls = self.calls.saturating_add(1);
        match open_and_read(self.rt, alloc, name, most) {
            Ok(bytes) => Ok(bytes),
            Err(FetchError::NoMemory) => Err(FetchError::NoMemory),
            Err(FetchError::Failed) => {
                self.failures = self.failures.saturating_add(1);
                Err(FetchError::Failed)
            }
        }
    }
}

fn open_and_read<R: Files>(
    rt: &R,
    alloc: Global,
    name: &str,
    most: usize,
) -> Result<Vec<u8>, FetchError>
    ensures { IfOk result (λ bytes. length bytes.items ≤ most) }
{
    match fs::open(rt, name) {
        Ok(mut file) => read_front(alloc, &mut file, most),
        Err(_) => Err(FetchError::Failed),
    }
}

// The first `most` bytes that the reader gives, or all where it gives fewer.
fn read_front<F: Read>(alloc: Global, reader: &mut F, most: usize) -> Result<Vec<u8>, FetchError>
    ensures length { IfOk result (λ bytes. length bytes.items ≤ most) }
    ensures front { IfOk result (λ bytes.
        IfSome (F.remaining reader.old) (λ content. bytes.items ≡ take most content)) }
{
    let mut bytes = Vec::new(alloc);
    let mut buffer = [0u8; 4096];
    while bytes.len() < most {
        let size = buffer.len().min(most - bytes.len());
        let Ok(count) = reader.read(&mut buffer[..size]) else {
            return Err(FetchError::Failed);
        };
        if count == 0 {
            return Ok(bytes);
        }
        if bytes.extend_from_slice(&buffer[..count]).is_err() {
            return Err(FetchError::NoMemory);
        }
    }
    Ok(bytes)
}
