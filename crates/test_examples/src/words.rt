//! Rows of words.
use ro_settings::{Mode, Settings};
use ro_words::{
    AuditCommand, BenchCommand, Command, InjectCommand, Kept, PlanCommand, RunCommand, Said,
    WordsError, parse_audit, parse_words,
};

// What the row's words spell.
struct Row {
    words: &'static [&'static str],
    run: RunCommand<'static>,
}

const USUAL: RunCommand<'static> = RunCommand {
    executable: "p0",
    input: None,
    faults: None,
    settings: Settings::DEFAULT,
    kept: Kept::Nothing,
};

const SETTINGS: Settings = Settings::DEFAULT;

const COOPERATIVE: Settings = Settings {
    mode: Mode::Cooperative,
    ..SETTINGS
};

const COMMANDS: &[Row] = &[
    Row {
        words: &["romain", "run", "p0"],
        run: USUAL,
    },
    Row {
        words: &["", "run", "p0"],
        run: USUAL,
    },
    Row {
        words: &["romain", "run", "run"],
        run: RunCommand {
            executable: "run",
            ..USUAL
        },
    },
    Row {
        words: &["romain", "run", "--input", "f", "p0"],
        run: RunCommand {
            input: Some("f"),
            ..USUAL
        },
    },
    Row {
        words: &["romain", "run", "p0", "--input=f"],
        run: RunCommand {
            input: Some("f"),
            ..USUAL
        },
    },
    Row {
        words: &["romain", "run", "p0", "--input=a=b"],
        run: RunCommand {
            input: Some("a=b"),
            ..USUAL
        },
    },
    Row {
        words: &["romain", "run", "p0", "--faults", "g"],
        run: RunCommand {
            faults: Some("g"),
            ..USUAL
        },
    },
    Row {
        words: &["romain", "run", "--record", "p0"],
        run: RunCommand {
            kept: Kept::Record,
            ..USUAL
        },
    },
    Row {
        words: &["romain", "run", "--journal", "p0"],
        run: RunCommand {
            kept: Kept::Journal,
            ..USUAL
        },
    },
    Row {
        words: &[
            "romain",
            "run",
            "--faults=g",
            "--journal",
            "p0",
            "--input",
            "f",
        ],
        run: RunCommand {
            input: Some("f"),
            faults: Some("g"),
            kept: Kept::Journal,
            ..USUAL
        },
    },
    Row {
        words: &["romain", "run", "p0", "--replicas", "2"],
        run: RunCommand {
            settings: Settings {
                replicas: 2,
                ..SETTINGS
            },
            ..USUAL
        },
    },
    Row {
        words: &["romain", "run", "p0", "--drivers=8"],
        run: RunCommand {
            settings: Settings {
                drivers: 8,
                ..SETTINGS
            },
            ..USUAL
        },
    },
    Row {
        words: &["romain", "run", "p0", "--watchdog", "100"],
        run: RunCommand {
            settings: Settings {
                watchdog: 100,
                ..SETTINGS
            },
            ..USUAL
        },
    },
    Row {
        words: &["romain", "run", "p0", "--watchdog", "1000000"],
        run: RunCommand {
            settings: Settings {
                watchdog: 1_000_000,
                ..SETTINGS
            },
            ..USUAL
        },
    },
    Row {
        words: &["romain", "run", "p0", "--quantum", "65536"],
        run: RunCommand {
            settings: Settings {
                quantum: 65_536,
                ..SETTINGS
            },
            ..USUAL
        },
    },
    Row {
        words: &["romain", "run", "p0", "--quantum", "+5"],
        run: RunCommand {
            settings: Settings {
                quantum: 5,
                ..SETTINGS
            },
            ..USUAL
        },
    },
    Row {
        words: &["romain", "run", "p0", "--quantum", "05"],
        run: RunCommand {
            settings: Settings {
                quantum: 5,
                ..SETTINGS
            },
            ..USUAL
        },
    },
    Row {
        words: &["romain", "run", "p0", "--limit", "1000000000000"],
        run: RunCommand {
            settings: Settings {
                limit: 1_000_000_000_000,
                ..SETTINGS
            },
            ..USUAL
        },
    },
    Row {
        words: &["romain", "run", "p0", "--scrub", "0"],
        run: USUAL,
    },
    Row {
        words: &["romain", "run", "--scrub=1000000000000", "p0"],
        run: RunCommand {
            settings: Settings {
                scrub: 1_000_000_000_000,
                ..SETTINGS
            },
            ..USUAL
        },
    },
    Row {
        words: &["romain", "run", "p0", "--mode", "vote"],
        run: USUAL,
    },
    Row {
        words: &["romain", "run", "p0", "--mode", "coop"],
        run: RunCommand {
            settings: COOPERATIVE,
            ..USUAL
        },
    },
    Row {
        words: &[
            "romain",
            "run",
            "--mode=coop",
            "p0",
            "--scrub=0",
            "--journal",
        ],
        run: RunCommand {
            settings: COOPERATIVE,
            kept: Kept::Journal,
            ..USUAL
        },
    },
    Row {
        words: &[
            "romain",
            "run",
            "p0",
            "--faults",
            "g",
            "--mode=vote",
            "--scrub",
            "1",
        ],
        run: RunCommand {
            faults: Some("g"),
            settings: Settings {
                scrub: 1,
                ..SETTINGS
            },
            ..USUAL
        },
    },
];

#[test]
fn spells(rt: HostRuntime) {
    for row in COMMANDS {
        let words = row.words;
        assert_eq!(rt;
            parse_words(rt.alloc(), words),
            Ok(Command::Run(row.run)),
            "of {words:?}"
        );
    }
}

// The other commands.
const OTHERS: &[(&[&str], Command<'static>)] = &[
    (
        &["romain", "plain", "p0", "--plan", "j"],
        Command::Plain(PlanCommand {
            executable: "p0",
            plan: "j",
            input: None,
        }),
    ),
    (
        &["romain", "plain", "--input", "f", "--plan=j", "p0"],
        Command::Plain(PlanCommand {
            executable: "p0",
            plan: "j",
            input: Some("f"),
        }),
    ),
    (
        &["romain", "races", "p0", "--plan", "j"],
        Command::Races(PlanCommand {
            executable: "p0",
            plan: "j",
            input: None,
        }),
    ),
    (
        &["romain", "races", "--input", "f", "--plan=j", "p0"],
        Command::Races(PlanCommand {
            executable: "p0",
            plan: "j",
            input: Some("f"),
        }),
    ),
    (
        &["romain", "inject", "42", "1", "p0"],
        Command::Inject(InjectCommand {
            seed: 42,
            count: 1,
            executable: "p0",
            replica: None,
        }),
    ),
    (
        &[
            "romain",
            "inject",
            "18446744073709551615",
            "--replica=2",
            "256",
            "p0",
        ],
        Command::Inject(InjectCommand {
            seed: u64::MAX,
            count: 256,
            executable: "p0",
            replica: Some(2),
        }),
    ),
    (
        &["romain", "bench", "+0", "2000"],
        Command::Bench(BenchCommand {
            seed: 0,
            size: 2_000,
        }),
    ),
];

#[test]
fn spells_others(rt: HostRuntime) {
    for (words, command) in OTHERS {
        assert_eq!(rt;
            parse_words(rt.alloc(), words),
            Ok(*command),
            "of {words:?}"
        );
    }
}

const NOT_COMMANDS: &[&[&str]] = &[
    &[],
    &["romain"],
    &["romain", "help"],
    &["romain", "--help"],
    &["romain", "-h"],
    &["romain", "--version"],
    &["romain", "run"],
    &["romain", "run", "--help"],
    &["romain", "run", "p0", "--help"],
    &["romain", "run", "p0", "-h"],
    &["romain", "run", ""],
    &["romain", "run", "-p0"],
    &["romain", "run", "p0", "q0"],
    &["romain", "run", "p0", "--"],
    &["romain", "run", "--", "p0"],
    &["romain", "run", "p0", "-"],
    &["romain", "run", "p0", "--unknown"],
    &["romain", "run", "p0", "--exe=q0"],
    &["romain", "--input", "f", "run", "p0"],
    &["romain", "walk", "p0"],
    &["romain", "run", "p0", "--input"],
    &["romain", "run", "p0", "--input="],
    &["romain", "run", "p0", "--input", ""],
    &["romain", "run", "p0", "--input", "-x"],
    &["romain", "run", "p0", "--input=-x"],
    &["romain", "run", "p0", "--input", "--faults", "f"],
    &["romain", "run", "p0", "--input", "f", "--input", "g"],
    &["romain", "run", "p0", "--input", "f", "--input=f"],
    &["romain", "run", "p0", "--journal", "--journal"],
    &["romain", "run", "p0", "--journal", "--record"],
    &["romain", "run", "--record", "p0", "--journal"],
    &["romain", "run", "p0", "--record", "--record"],
    &["romain", "run", "p0", "--record=x"],
    &["romain", "plain", "p0", "--plan", "j", "--record"],
    &["romain", "run", "p0", "--journal=x"],
    &["romain", "run", "p0", "--journal", "x"],
    &["romain", "run", "p0", "--replicas", "1"],
    &["romain", "run", "p0", "--replicas", "4"],
    &["romain", "run", "p0", "--drivers", "0"],
    &["romain", "run", "p0", "--drivers", "9"],
    &["romain", "run", "p0", "--watchdog", "99"],
    &["romain", "run", "p0", "--watchdog", "1000001"],
    &["romain", "run", "p0", "--quantum", "0"],
    &["romain", "run", "p0", "--quantum", "65537"],
    &["romain", "run", "p0", "--limit", "0"],
    &["romain", "run", "p0", "--limit", "1000000000001"],
    &[
        "romain",
        "run",
        "p0",
        "--limit",
        "1234567890123456789012345678901234567890",
    ],
    &["romain", "run", "p0", "--scrub", "1000000000001"],
    &["romain", "run", "p0", "--scrub", "-1"],
    &["romain", "run", "p0", "--scrub"],
    &["romain", "run", "p0", "--scrub", "1", "--scrub", "1"],
    &["romain", "run", "p0", "--mode"],
    &["romain", "run", "p0", "--mode", "x"],
    &["romain", "run", "p0", "--mode", "Coop"],
    &["romain", "run", "p0", "--mode", "cooperative"],
    &["romain", "run", "p0", "--mode="],
    &["romain", "run", "p0", "--mode", "vote", "--mode", "vote"],
    &["romain", "run", "p0", "--mode", "coop", "--faults", "g"],
    &["romain", "run", "p0", "--mode=coop", "--scrub", "1"],
    &["romain", "run", "p0", "--plan", "j"],
    &["romain", "run", "p0", "--json"],
    &["romain", "audit", "p0", "--journal", "j"],
    &["romain", "plain", "p0"],
    &["romain", "plain", "--plan", "j"],
    &["romain", "plain", "p0", "--plan", "j", "--plan", "j"],
    &["romain", "plain", "p0", "--plan", "j", "--journal"],
    &["romain", "plain", "p0", "--plan", "j", "q0"],
    &["romain", "plain", "p0", "--plan", "j", "--faults", "f"],
    &["romain", "plain", "p0", "--plan", "j", "--scrub", "1"],
    &["romain", "plain", "p0", "--plan", "j", "--mode", "vote"],
    &["romain", "races", "p0"],
    &["romain", "races", "--plan", "j"],
    &["romain", "races", "p0", "--plan", "j", "--journal"],
    &["romain", "races", "p0", "--plan", "j", "q0"],
    &["romain", "inject", "42", "0", "p0"],
    &["romain", "inject", "42", "257", "p0"],
    &["romain", "inject", "42", "1"],
    &["romain", "inject", "18446744073709551616", "1", "p0"],
    &["romain", "inject", "p0", "42", "1"],
    &["romain", "inject", "42", "1", "p0", "--replica", "5"],
    &["romain", "bench", "1", "0"],
    &["romain", "bench", "1", "2001"],
    &["romain", "bench", "1"],
    &["romain", "bench", "1", "1", "1"],
    &["romain", "bench", "1", "1", "--scrub", "1"],
    &["romain", "run", "p0", "--limit", "many"],
    &["romain", "run", "p0", "--limit", "0x10"],
    &["romain", "run", "p0", "--limit", "1 "],
];

#[test]
fn refuses(rt: HostRuntime) {
    for words in NOT_COMMANDS {
        assert_eq!(rt;
            parse_words(rt.alloc(), words),
            Err(WordsError::Bad),
            "of {words:?}"
        );
    }
}

// An audit that words spell.
struct AuditRow {
    words: &'static [&'static str],
    audit: AuditCommand<'static>,
}

const NOTHING_SAID: Said = Said {
    replicas: None,
    drivers: None,
    watchdog: None,
    quantum: None,
    limit: None,
    scrub: None,
};

const USUAL_AUDIT: AuditCommand<'static> = AuditCommand {
    executable: "p0",
    input: None,
    faults: None,
    said: NOTHING_SAID,
    journal: "j",
    json: false,
};

const AUDITS: &[AuditRow] = &[
    AuditRow {
        words: &["romain", "audit", "p0", "--journal", "j"],
        audit: USUAL_AUDIT,
    },
    AuditRow {
        words: &["", "audit", "--journal=j", "p0"],
        audit: USUAL_AUDIT,
    },
    AuditRow {
        words: &["romain", "audit", "--journal", "run", "audit"],
        audit: AuditCommand {
            executable: "audit",
            journal: "run",
            ..USUAL_AUDIT
        },
    },
    AuditRow {
        words: &["romain", "audit", "--json", "p0", "--journal", "j"],
        audit: AuditCommand {
            json: true,
            ..USUAL_AUDIT
        },
    },
    AuditRow {
        words: &["romain", "audit", "--journal=a=b", "p0", "--json"],
        audit: AuditCommand {
            journal: "a=b",
            json: true,
            ..USUAL_AUDIT
        },
    },
    AuditRow {
        words: &[
            "romain",
            "audit",
            "--limit=500",
            "--scrub",
            "1",
            "--journal",
            "j",
            "--faults",
            "g",
            "p0",
            "--watchdog=200",
            "--input",
            "f",
            "--replicas",
            "5",
            "--json",
            "--quantum=7",
            "--drivers",
            "1",
        ],
        audit: AuditCommand {
            input: Some("f"),
            faults: Some("g"),
            said: Said {
                replicas: Some(5),
                drivers: Some(1),
                watchdog: Some(200),
                quantum: Some(7),
                limit: Some(500),
                scrub: Some(1),
            },
            json: true,
            ..USUAL_AUDIT
        },
    },
];

#[test]
fn spells_audits(rt: HostRuntime) {
    for row in AUDITS {
        let words = row.words;
        assert_eq!(rt;
            parse_audit(rt.alloc(), words),
            Ok(row.audit),
            "of {words:?}"
        );
    }
}

const NOT_AUDITS: &[&[&str]] = &[
    &[],
    &["romain"],
    &["romain", "audit"],
    &["romain", "--help"],
    &["romain", "help"],
    &["romain", "run", "p0", "--journal"],
    &["romain", "run", "p0", "--journal", "j"],
    &["romain", "plain", "p0", "--plan", "j"],
    &["romain", "p0", "audit", "--journal", "j"],
    &["romain", "audit", "p0"],
    &["romain", "audit", "p0", "--json"],
    &["romain", "audit", "--journal", "j"],
    &["romain", "audit", "p0", "--journal"],
    &["romain", "audit", "p0", "--journal="],
    &["romain", "audit", "p0", "--journal", ""],
    &["romain", "audit", "p0", "--journal", "-j"],
    &["romain", "audit", "p0", "--journal=-j"],
    &["romain", "audit", "p0", "--journal", "--json"],
    &["romain", "audit", "p0", "--journal", "--json", "j"],
    &["romain", "audit", "p0", "--journal", "j", "--journal", "j"],
    &["romain", "audit", "p0", "--journal", "j", "--journal=j"],
    &[
        "romain",
        "audit",
        "p0",
        "--journal",
        "j",
        "--json",
        "--json",
    ],
    &["romain", "audit", "p0", "--journal", "j", "--json=true"],
    &["romain", "audit", "p0", "--journal", "j", "--json", "x"],
    &["romain", "audit", "p0", "--journal", "j", "q0"],
    &["romain", "audit", "p0", "--journal", "j", "--record"],
    &["romain", "audit", "p0", "--journal", "j", "--plan", "k"],
    &["romain", "audit", "p0", "--journal", "j", "--mode", "vote"],
    &["romain", "audit", "p0", "--journal", "j", "--mode=coop"],
    &["romain", "audit", "", "--journal", "j"],
    &["romain", "audit", "p0", "--journal", "j", "--replicas", "4"],
    &["romain", "audit", "p0", "--journal", "j", "--drivers=9"],
    &["romain", "audit", "p0", "--journal", "j", "--watchdog=99"],
    &["romain", "audit", "p0", "--journal", "j", "--quantum", "0"],
    &["romain", "audit", "p0", "--journal", "j", "--limit", "many"],
    &[
        "romain",
        "audit",
        "p0",
        "--journal",
        "j",
        "--scrub",
        "1000000000001",
    ],
];

#[test]
fn refuses_audits(rt: HostRuntime) {
    for words in NOT_AUDITS {
        assert_eq!(rt;
            parse_audit(rt.alloc(), words),
            Err(WordsError::Bad),
            "of {words:?}"
        );
    }
}
