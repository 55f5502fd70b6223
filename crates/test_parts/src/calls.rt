//! The table of call addresses: the call that an address names, and the stretch round a place that names none.
use ro_event::{CallTable, FUNCTIONS, Function, Which};

const FOUND: &[(u32, Option<Which>)] = &[
    (0x1_0000, Some(Which::Function(Function::Create))),
    (0x1_0100, Some(Which::Function(Function::Join))),
    (0x1_0204, Some(Which::Function(Function::MutexInit))),
    (0x1_0208, Some(Which::Function(Function::Lock))),
    (0x1_020C, Some(Which::Function(Function::TryLock))),
    (0x1_0001, Some(Which::Function(Function::Unlock))),
    (0x1_0004, None),
    (0x0, None),
    (0xFFFF_FFFC, None),
];

#[test]
fn finds_the_first(rt: HostRuntime) {
    let mut addresses = [None; FUNCTIONS];
    addresses[0] = Some(0x1_0000);
    addresses[1] = Some(0x1_0100);
    addresses[3] = Some(0x1_0100);
    addresses[4] = Some(0x1_0204);
    addresses[6] = Some(0x1_0208);
    addresses[7] = Some(0x1_020C);
    addresses[8] = Some(0x1_0001);
    let table = CallTable::new(addresses);
    for row in FOUND {
        let (pc, want) = *row;
        assert_eq!(rt; table.find(pc), want, "at {pc:x}");
    }
}

const CLEAR: &[(u32, (u32, u32))] = &[
    (0x1_0000, (0x1_0000, 0x1_0100)),
    (0x1_0100, (0x1_0000, 0x1_0100)),
    (0x1_0104, (0x1_0104, 0x1_0206)),
    (0x1_0208, (0x1_0208, 0x1_1000)),
    (0x1_0FFC, (0x1_0208, 0x1_1000)),
];

#[test]
fn clears_round_a_place(rt: HostRuntime) {
    let mut addresses = [None; FUNCTIONS];
    addresses[1] = Some(0x1_0100);
    addresses[4] = Some(0x1_0206);
    addresses[8] = Some(0x2_0000);
    let table = CallTable::new(addresses);
    for row in CLEAR {
        let (pc, want) = *row;
        assert_eq!(rt;
            table.clear_around(pc, 0x1_0000, 0x1_1000),
            want,
            "at {pc:x}"
        );
    }
}
