//! Runs an executable as replicas that are compared: `romain run EXE`, and options.
//!
//! What the program writes goes to standard output, and the report to standard error. The process ends with the
//! program's status, or with one of Romain's own.
#![tactic(auto)]

use ro_io::{FileStore, OpenGate, OutSink};
use ro_top::{romain, without_words};
use std::alloc::{AllocError, Global};
use std::env::{self, Args};
use std::io::ErrorKind;
use std::process::ExitCode;

fn main(rt: HostRuntime) -> ExitCode {
    let alloc = rt.alloc();
    let mut report = OutSink::new(rt.stderr());
    let Ok(words) = words(&rt, alloc) else {
        return ExitCode::from(without_words(&mut report));
    };
    let Ok(texts) = texts(alloc, words.as_slice()) else {
        return ExitCode::from(without_words(&mut report));
    };
    let mut store = FileStore::new(&rt);
    let out = OutSink::new(rt.stdout());
    let done = romain(
        &rt,
        alloc,
        texts.as_slice(),
        &mut store,
        out,
        &mut report,
        &OpenGate,
    );
    ExitCode::from(done.status())
}

// The words of the command line. Words that are no texts are no command, and so are none.
fn words(rt: &HostRuntime, alloc: Global) -> Result<Vec<String>, AllocError> {
    match env::args(rt) {
        Ok(args) => all_of(alloc, args),
        Err(error) if error.kind() == ErrorKind::OutOfMemory => Err(AllocError),
        Err(_) => Ok(Vec::new(alloc)),
    }
}

fn all_of(alloc: Global, args: Args) -> Result<Vec<String>, AllocError> {
    let mut words = Vec::with_capacity(alloc, args.len())?;
    for word in args {
        words.push(word)?;
    }
    Ok(words)
}

// The same as texts.
fn texts<'a>(alloc: Global, words: &'a [String]) -> Result<Vec<&'a str>, AllocError> {
    let mut texts = Vec::with_capacity(alloc, words.len())?;
    for word in words {
        texts.push(word.as_str())?;
    }
    Ok(texts)
}
