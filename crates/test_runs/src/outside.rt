//! Each call of a command's store fails in turn, each of its output's sink and each of its report's.
use crate::commands::{BROKEN, COMMANDS, Command, TEXTS};
use crate::guests::GUESTS;
use ro_io::{Act, MemSink, MemStore, OpenGate};
use ro_journal::{Entry, How};
use ro_report::answer_line;
use ro_top::{Answer, Done, Told, romain};
use std::alloc::Global;
use std::process::Abort;
use std::sync::Wait;
use std::test::Fail;
use std::thread::Threads;

/// How many bytes a sink takes at most.
const ROOM: usize = 8192;

/// More calls than a command makes of a sink.
const MOST_CALLS: usize = 1_000;

// The store fails at each of its calls, and then at one that doesn't come.
#[test]
fn stores(rt: HostRuntime) -> Result<(), Fail> {
    for command in COMMANDS {
        for call in 1..=command.files {
            let came = Came::by(&rt, rt.alloc(), command.words, Some(call), &[], &[])?;
            let done = &came.done;
            assert_eq!(rt; done.answer, Answer::StoreFailed, "of {:?}", command.words);
            assert_eq!(rt; done.status(), 246, "of {:?}", command.words);
            assert!(rt; done.out.bytes().is_empty() && done.journal.is_empty());
            assert_eq!(rt; came.report.bytes(), b"answer store\n".as_slice());
        }
        let late = command.files.saturating_add(1);
        let came = Came::by(&rt, rt.alloc(), command.words, Some(late), &[], &[])?;
        came.is_whole(&rt, rt.alloc(), command)?;
    }
    Ok(())
}

// The sink of the output takes pieces of a size, and fails at each of its calls.
#[test]
fn outputs(rt: HostRuntime) -> Result<(), Fail> {
    for command in COMMANDS {
        for most in [1, 2, 1_000] {
            let mut whole = false;
            for calls in 0..MOST_CALLS {
                let acts = acts_of(rt.alloc(), most, calls)?;
                let came = Came::by(&rt, rt.alloc(), command.words, None, acts.as_slice(), &[])?;
                let Some(cut) = Cut::of(command.writes, most, calls) else {
                    came.is_whole(&rt, rt.alloc(), command)?;
                    whole = true;
                    break;
                };
                came.is_cut(&rt, rt.alloc(), command, &cut)?;
            }
            assert!(rt; whole, "of {:?}", command.words);
        }
    }
    Ok(())
}

// The sink of the report does.
#[test]
fn reports(rt: HostRuntime) -> Result<(), Fail> {
    for command in COMMANDS {
        for most in [5, 1_000] {
            let mut whole = false;
            for calls in 0..MOST_CALLS {
                let acts = acts_of(rt.alloc(), most, calls)?;
                let came = Came::by(&rt, rt.alloc(), command.words, None, &[], acts.as_slice())?;
                let Some(cut) = Cut::of(command.report, most, calls) else {
                    came.is_whole(&rt, rt.alloc(), command)?;
                    whole = true;
                    break;
                };
                came.is_told_in_part(&rt, rt.alloc(), command, &cut)?;
            }
            assert!(rt; whole, "of {:?}", command.words);
        }
    }
    Ok(())
}

#[test]
fn pieces(rt: HostRuntime) -> Result<(), Fail> {
    for row in BROKEN {
        let came = Came::by(&rt, rt.alloc(), row.words, None, row.acts, &[])?;
        let done = &came.done;
        assert_eq!(rt; done.status(), row.status, "of {:?}", row.words);
        assert_eq!(rt; done.out.bytes(), row.held.as_bytes(), "of {:?}", row.words);
        assert_eq!(rt;
            came.report.bytes(),
            row.report.as_bytes(),
            "of {:?}",
            row.words
        );
        match row.end {
            Some(how) => assert_eq!(rt; done.journal.last(), Some(&Entry::End { how })),
            None => assert!(rt; done.journal.is_empty() && done.views.is_empty()),
        }
    }
    Ok(())
}

/// What came of a command, and its report.
#[derive(Drop)]
struct Came {
    done: Done<MemSink>,
    report: MemSink,
}

impl Came {
    // Does a command over a store that fails at a call, if at any, and sinks with these acts.
    fn by<R: Threads + Wait + Abort + Sync>(
        rt: &R,
        alloc: Global,
        words: &[&str],
        failing: Option<u64>,
        out: &[Act],
        report: &[Act],
    ) -> Result<Came, Fail> {
        let mut store = store_of(rt, alloc, words)?;
        if let Some(call) = failing {
            store.fail_at(call)?;
        }
        let mut all = Vec::new(alloc);
        all.push("romain")?;
        for word in words {
            all.push(*word)?;
        }
        let mut report = MemSink::new(alloc, ROOM, Vec::from_slice(alloc, report)?)?;
        let out = MemSink::new(alloc, ROOM, Vec::from_slice(alloc, out)?)?;
        let done = romain(
            rt,
            alloc,
            all.as_slice(),
            &mut store,
            out,
            &mut report,
            &OpenGate,
        );
        Ok(Came { done, report })
    }

    // Nothing failed.
    fn is_whole(&self, rt: &impl Abort, alloc: Global, command: &Command) -> Result<(), Fail> {
        assert_eq!(rt; self.done.told, Told::Whole, "of {:?}", command.words);
        assert_eq!(rt;
            self.done.status(),
            command.status,
            "of {:?}",
            command.words
        );
        let writes = joined(alloc, command.writes)?;
        assert_eq!(rt;
            self.done.out.bytes(),
            writes.as_slice(),
            "of {:?}",
            command.words
        );
        let report = joined(alloc, command.report)?;
        assert_eq!(rt;
            self.report.bytes(),
            report.as_slice(),
            "of {:?}",
            command.words
        );
        Ok(())
    }

    // The sink of the output failed.
    fn is_cut(
        &self,
        rt: &impl Abort,
        alloc: Global,
        command: &Command,
        cut: &Cut,
    ) -> Result<(), Fail> {
        let Cut { text, taken, held } = *cut;
        let answer = Answer::SinkFailed { taken };
        assert_eq!(rt; self.done.answer, answer, "of {:?}", command.words);
        assert_eq!(rt; self.done.status(), 245, "of {:?}", command.words);
        let writes = joined(alloc, command.writes)?;
        assert!(rt;
            writes.starts_with(self.done.out.bytes()),
            "of {:?}",
            command.words
        );
        assert_eq!(rt; self.done.out.bytes().len(), held, "of {:?}", command.words);
        let report = match command.cut.get(text) {
            Some(summary) => {
                let end = Entry::End {
                    how: How::Sink(taken),
                };
                assert_eq!(rt;
                    self.done.journal.last(),
                    Some(&end),
                    "of {:?}",
                    command.words
                );
                format!(in alloc; "{summary}{held}\nanswer sink {taken}\n")?
            }
            None => format!(in alloc; "answer sink {taken}\n")?,
        };
        assert_eq!(rt;
            self.report.bytes(),
            report.as_bytes(),
            "of {:?}",
            command.words
        );
        Ok(())
    }

    // The sink of the report failed.
    fn is_told_in_part(
        &self,
        rt: &impl Abort,
        alloc: Global,
        command: &Command,
        cut: &Cut,
    ) -> Result<(), Fail> {
        assert_eq!(rt; self.done.told, Told::Failed, "of {:?}", command.words);
        assert_eq!(rt; self.done.status(), 251, "of {:?}", command.words);
        let writes = joined(alloc, command.writes)?;
        assert_eq!(rt;
            self.done.out.bytes(),
            writes.as_slice(),
            "of {:?}",
            command.words
        );
        let report = joined(alloc, command.report)?;
        assert!(rt;
            report.starts_with(self.report.bytes()),
            "of {:?}",
            command.words
        );
        assert_eq!(rt;
            self.report.bytes().len(),
            cut.held,
            "of {:?}",
            command.words
        );
        // The answer is as it was.
        let answer = answer_line(&self.done.answer);
        assert!(rt;
            report.ends_with(answer.as_bytes()),
            "of {:?}",
            command.words
        );
        Ok(())
    }
}

/// Where texts break off that are given one after another: in which of them, how many of its bytes were taken, and how many of all.
#[derive(Clone, Copy)]
struct Cut {
    text: usize,
    taken: u32,
    held: usize,
}

impl Cut {
    // Where so many calls take at most so many bytes each, and the next one fails; none where those took all.
    fn of(texts: &[&str], most: usize, calls: usize) -> Option<Cut> {
        let mut left = calls;
        let mut held: usize = 0;
        for (text, bytes) in texts.iter().enumerate() {
            let mut taken: u32 = 0;
            let mut room = 0;
            for _ in bytes.as_bytes() {
                if room == 0 {
                    if left == 0 {
                        return Some(Cut { text, taken, held });
                    }
                    left -= 1;
                    room = most;
                }
                room = room.saturating_sub(1);
                taken = taken.saturating_add(1);
                held = held.saturating_add(1);
            }
        }
        None
    }
}

// So many calls that take at most so many bytes, and one that fails.
fn acts_of(alloc: Global, most: usize, calls: usize) -> Result<Vec<Act>, Fail> {
    let mut acts = Vec::new(alloc);
    for _ in 0..calls {
        acts.push(Act::Take(most))?;
    }
    acts.push(Act::Fail)?;
    Ok(acts)
}

// The files that the words name: guests and texts.
fn store_of(rt: &impl Abort, alloc: Global, words: &[&str]) -> Result<MemStore, Fail> {
    let mut store = MemStore::new(alloc);
    for guest in GUESTS {
        if words.contains(&guest.name) {
            store.put(guest.name, guest.file(rt, alloc)?.as_slice())?;
        }
    }
    for (name, text) in TEXTS {
        store.put(name, text.as_bytes())?;
    }
    Ok(store)
}

fn joined(alloc: Global, texts: &[&str]) -> Result<Vec<u8>, Fail> {
    let mut bytes = Vec::new(alloc);
    for text in texts {
        bytes.extend_from_slice(text.as_bytes())?;
    }
    Ok(bytes)
}
