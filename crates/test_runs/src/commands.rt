//! Rows: commands, what comes of them where nothing fails, and where their output breaks off.
use ro_io::Act;
use ro_journal::How;

/// A command, and what comes of it where its store and its sinks do not fail.
pub(crate) struct Command {
    pub(crate) words: &'static [&'static str],
    /// How many files it fetches.
    pub(crate) files: u64,
    /// What it writes, write by write.
    pub(crate) writes: &'static [&'static str],
    /// Of a run, for each of these writes: the front of the summary, up to the count of bytes, where the sink fails at this write. Other
    /// commands have no summary then.
    pub(crate) cut: &'static [&'static str],
    /// Its report, line by line.
    pub(crate) report: &'static [&'static str],
    pub(crate) status: u8,
}

pub(crate) const COMMANDS: &[Command] = &[
    Command {
        words: &["run", "hello"],
        files: 1,
        writes: &["hello"],
        cut: &["votes 1 copies 0 struck 0 steps 6 bytes "],
        report: &[
            "votes 2 copies 0 struck 0 steps 9 bytes 5\n",
            "answer exit 0\n",
        ],
        status: 0,
    },
    Command {
        words: &[
            "run",
            "hello_in_two",
            "--faults",
            "later",
            "--input",
            "letters",
        ],
        files: 3,
        writes: &["hell", "o"],
        cut: &[
            "votes 1 copies 0 struck 0 steps 6 bytes ",
            "votes 2 copies 0 struck 0 steps 10 bytes ",
        ],
        report: &[
            "votes 3 copies 0 struck 0 steps 13 bytes 5\n",
            "answer exit 0\n",
        ],
        status: 0,
    },
    // A file may be two of a command's files, and is fetched for each.
    Command {
        words: &["run", "exit_7", "--input", "exit_7"],
        files: 2,
        writes: &[],
        cut: &[],
        report: &[
            "votes 1 copies 0 struck 0 steps 3 bytes 0\n",
            "answer exit 7\n",
        ],
        status: 7,
    },
    Command {
        words: &["run", "exit_7", "--journal", "--drivers", "1"],
        files: 1,
        writes: &[],
        cut: &[],
        report: &[
            "romain 2\n",
            "take 0 0 0\n",
            "put 0 0 0 2 0\n",
            "take 0 1 0\n",
            "put 0 1 0 2 0\n",
            "take 0 2 0\n",
            "put 0 2 0 2 0\n",
            "vote 0 2 0 - served\n",
            "end exit 7\n",
            "votes 1 copies 0 struck 0 steps 3 bytes 0\n",
            "answer exit 7\n",
        ],
        status: 7,
    },
    Command {
        words: &["run", "hello", "--mode", "coop"],
        files: 1,
        writes: &["hello"],
        cut: &["votes 1 copies 0 struck 0 steps 6 bytes "],
        report: &[
            "votes 2 copies 0 struck 0 steps 9 bytes 5\n",
            "answer exit 0\n",
        ],
        status: 0,
    },
    Command {
        words: &[
            "run",
            "exit_7",
            "--mode=coop",
            "--journal",
            "--drivers",
            "1",
        ],
        files: 1,
        writes: &[],
        cut: &[],
        report: &[
            "romain 2 coop\n",
            "take 0 0 0\n",
            "put 0 0 0 2 0\n",
            "take 0 1 0\n",
            "put 0 1 0 2 0\n",
            "take 0 2 0\n",
            "put 0 2 0 2 0\n",
            "vote 0 2 0 - served\n",
            "end exit 7\n",
            "votes 1 copies 0 struck 0 steps 3 bytes 0\n",
            "answer exit 7\n",
        ],
        status: 7,
    },
    Command {
        words: &["plain", "hello", "--plan", "one_write"],
        files: 2,
        writes: &["hello"],
        cut: &[],
        report: &["steps 9 bytes 5\n", "answer exit 0\n"],
        status: 0,
    },
    // Of a cooperative journal each step is in the plan where a replica is the first to make it.
    Command {
        words: &["plain", "hello", "--plan", "first_steps"],
        files: 2,
        writes: &["hello"],
        cut: &[],
        report: &["steps 9 bytes 5\n", "answer exit 0\n"],
        status: 0,
    },
    Command {
        words: &["races", "hello", "--plan", "first_steps"],
        files: 2,
        writes: &[],
        cut: &[],
        report: &["answer no-race\n"],
        status: 0,
    },
    Command {
        words: &[
            "plain",
            "hello_in_two",
            "--plan",
            "two_writes",
            "--input",
            "letters",
        ],
        files: 3,
        writes: &["hell", "o"],
        cut: &[],
        report: &["steps 13 bytes 5\n", "answer exit 0\n"],
        status: 0,
    },
    // What was written before the step that does not exist stays.
    Command {
        words: &["plain", "hello_in_two", "--plan", "writes_and_more"],
        files: 2,
        writes: &["hell", "o"],
        cut: &[],
        report: &["answer no-step 13\n"],
        status: 254,
    },
    // A check gives its sink nothing.
    Command {
        words: &["races", "hello_in_two", "--plan", "two_writes"],
        files: 2,
        writes: &[],
        cut: &[],
        report: &["answer no-race\n"],
        status: 0,
    },
    Command {
        words: &[
            "races", "reads_4", "--plan", "one_read", "--input", "letters",
        ],
        files: 3,
        writes: &[],
        cut: &[],
        report: &["answer no-race\n"],
        status: 0,
    },
    Command {
        words: &["inject", "42", "1", "exit_7"],
        files: 1,
        writes: &["0 1 5824 pc 11\n"],
        cut: &[],
        report: &["answer exit 0\n"],
        status: 0,
    },
    Command {
        words: &["bench", "1", "1"],
        files: 0,
        writes: &["bench 1 1 status 0 bytes 9 sum 1890\n"],
        cut: &[],
        report: &["answer exit 0\n"],
        status: 0,
    },
];

/// A command whose output's sink takes pieces of several sizes.
pub(crate) struct Broken {
    pub(crate) words: &'static [&'static str],
    pub(crate) acts: &'static [Act],
    pub(crate) status: u8,
    pub(crate) held: &'static str,
    pub(crate) report: &'static str,
    /// The last entry of the run's journal, an end; none where nothing is run.
    pub(crate) end: Option<How>,
}

pub(crate) const BROKEN: &[Broken] = &[
    // It takes one write in two pieces, and fails at the third.
    Broken {
        words: &["run", "hello"],
        acts: &[Act::Take(2), Act::Take(1), Act::Fail],
        status: 245,
        held: "hel",
        report: "votes 1 copies 0 struck 0 steps 6 bytes 3\nanswer sink 3\n",
        end: Some(How::Sink(3)),
    },
    Broken {
        words: &["run", "hello"],
        acts: &[
            Act::Take(1),
            Act::Take(1),
            Act::Take(1),
            Act::Take(1),
            Act::Take(1),
        ],
        status: 0,
        held: "hello",
        report: "votes 2 copies 0 struck 0 steps 9 bytes 5\nanswer exit 0\n",
        end: Some(How::Exit(0)),
    },
    // It takes the first of two writes.
    Broken {
        words: &["run", "hello_in_two"],
        acts: &[Act::Take(4), Act::Fail],
        status: 245,
        held: "hell",
        report: "votes 2 copies 0 struck 0 steps 10 bytes 4\nanswer sink 0\n",
        end: Some(How::Sink(0)),
    },
    // Its failure at the first write is the only one: nothing is given to it afterwards.
    Broken {
        words: &["run", "hello_in_two"],
        acts: &[Act::Take(3), Act::Fail, Act::Take(1), Act::Take(1)],
        status: 245,
        held: "hel",
        report: "votes 1 copies 0 struck 0 steps 6 bytes 3\nanswer sink 3\n",
        end: Some(How::Sink(3)),
    },
    Broken {
        words: &["plain", "hello_in_two", "--plan", "two_writes"],
        acts: &[Act::Take(3), Act::Fail, Act::Take(1), Act::Take(1)],
        status: 245,
        held: "hel",
        report: "answer sink 3\n",
        end: None,
    },
    Broken {
        words: &["inject", "42", "1", "exit_7"],
        acts: &[Act::Fail],
        status: 245,
        held: "",
        report: "answer sink 0\n",
        end: None,
    },
    Broken {
        words: &["inject", "42", "1", "exit_7"],
        acts: &[Act::Take(1), Act::Take(2), Act::Fail],
        status: 245,
        held: "0 1",
        report: "answer sink 3\n",
        end: None,
    },
];

/// Files that are texts.
pub(crate) const TEXTS: &[(&str, &str)] = &[
    ("letters", "abc"),
    // A fault in a thread that never comes.
    ("later", "0 1 5824 pc 11\n"),
    (
        "one_write",
        "romain 1\nvote 0 5 0 - served\nvote 0 2 0 - served\nend exit 0\n",
    ),
    (
        "two_writes",
        "romain 1\nvote 0 5 0 - served\nvote 0 3 0 - served\nvote 0 2 0 - served\n",
    ),
    (
        "writes_and_more",
        "romain 1\nvote 0 5 0 - served\nvote 0 3 0 - served\nvote 0 2 0 - served\nfree 0\n",
    ),
    (
        "first_steps",
        "romain 2 coop\nput 0 0 0 5 0\nput 0 1 0 5 0\nvote 0 5 0 - served\npart 0 1 0 1 0\nput 0 0 0 2 0\nvote 0 2 0 - served\n",
    ),
    (
        "one_read",
        "romain 1\nvote 0 4 0 - served\nvote 0 1 0 - served\n",
    ),
];
