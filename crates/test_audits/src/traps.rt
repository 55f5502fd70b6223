//! What is told of each trap.
use ro_event::TrapCause;
use ro_findings::{Ended, Findings, Verdict};
use std::test::Fail;

/// The causes of traps, and how an audit tells them.
const TRAPS: &[(TrapCause, &str)] = &[
    (
        TrapCause::MisalignedPc,
        "The program trapped by cause 1: the pc is no multiple of 4.",
    ),
    (
        TrapCause::ForbiddenFetch,
        "The program trapped by cause 2: an instruction is fetched where nothing may be executed.",
    ),
    (
        TrapCause::NoInstruction,
        "The program trapped by cause 3: the word is no instruction.",
    ),
    (
        TrapCause::MisalignedTarget,
        "The program trapped by cause 4: a jump to no multiple of 4.",
    ),
    (
        TrapCause::MisalignedLoad,
        "The program trapped by cause 5: a load at an address that is no multiple of its size.",
    ),
    (
        TrapCause::ForbiddenLoad,
        "The program trapped by cause 6: a load where it is not permitted.",
    ),
    (
        TrapCause::MisalignedStore,
        "The program trapped by cause 7: a store at an address that is no multiple of its size.",
    ),
    (
        TrapCause::ForbiddenStore,
        "The program trapped by cause 8: a store where it is not permitted.",
    ),
    (
        TrapCause::Breakpoint,
        "The program trapped by cause 9: EBREAK.",
    ),
];

#[test]
fn each_trap_is_told(rt: HostRuntime) -> Result<(), Fail> {
    for (cause, sentence) in TRAPS {
        let end = Ended::Trap {
            cause: *cause,
            at: None,
        };
        let findings = Findings {
            entries: 8,
            verdict: Verdict::Legal {
                steps: 1,
                end: Some(end),
                odd: None,
            },
            copies: Vec::new(rt.alloc()),
        };
        let told = findings.sentences(rt.alloc())?;
        assert_eq!(rt; told.lines().count(), 4);
        for (line, want) in told.lines().zip([
            "legal",
            "The journal has 8 entries, and its plan 1 steps.",
            "Each entry is what the run does next.",
            *sentence,
        ]) {
            assert_eq!(rt; line, want);
        }
    }
    Ok(())
}
