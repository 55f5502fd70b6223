//! Audits a journal: `romain audit EXE --journal F`, and the options of the run that it is said to be of.
//!
//! What is told goes to standard output. The process ends with 0 where the journal is legal, with 236 where it is not, and else
//! with the status of a run whose words or files are bad.
#![tactic(auto)]

mod auditing;

use auditing::audit;
use ro_io::{FileStore, OutSink};
use ro_top::without_words;
use std::alloc::{AllocError, Global};
use std::env::{self, Args};
use std::io::ErrorKind;
use std::process::ExitCode;

fn main(rt: HostRuntime) -> ExitCode {
    let alloc = rt.alloc();
    let mut report = OutSink::new(rt.stderr());
    let Ok(words) = words(&rt, alloc) else {
        return ExitCode::from(without_words(&mut report));
    };
    let Ok(texts) = texts(alloc, words.as_slice()) else {
        return ExitCode::from(without_words(&mut report));
    };
    let mut store = FileStore::new(&rt);
    let mut out = OutSink::new(rt.stdout());
    ExitCode::from(audit(alloc, texts.as_slice(), &mut store, &mut out, &mut report))
}

// The words of the command line. Words that are no texts are no command, and so are none.
fn words(rt: &HostRuntime, alloc: Global) -> Result<Vec<String>, AllocError> {
    match env::args(rt) {
        Ok(args) => all_of(alloc, args),
        Err(error) if error.kind() == ErrorKind::OutOfMemory => Err(AllocError),
        Err(_) => Ok(Vec::new(alloc)),
    }
}

fn all_of(alloc: Global, args: Args) -> Result<Vec<String>, AllocError> {
    let mut words = Vec::with_capacity(alloc, args.len())?;
    for word in args {
        words.push(word)?;
    }
    Ok(words)
}

// The same as texts.
fn texts<'a>(alloc: Global, words: &'a [String]) -> Result<Vec<&'a str>, AllocError> {
    let mut texts = Vec::with_capacity(alloc, words.len())?;
    for word in words {
        texts.push(word.as_str())?;
    }
    Ok(texts)
}
