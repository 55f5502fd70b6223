//! The line of a fault.
ghost use Rattle.std.specs.Prelude.{◌≡◌, ◌+◌, ◌<◌, ◌≤◌, ◌++◌, [], ◌∷◌, Some, true, length, map, decimal, IfOk};
ghost use Rattle.ro_text.specs.Numbers.{is_number, value_of};
ghost use Rattle.ro_faults.specs.Texts.{target_of, fault_of, is_target, is_fault, ranged, line_fault, fault_text, target_words};
ghost use Rattle.ro_text.specs.Lines.{spaced};

use crate::errors::FaultsCode;
use crate::{Fault, Target};
use ro_limits::MOST_STEPS;
use ro_text::{Line, Text, is_number, split_words, value_within};

/// The line of a fault.
pub fn fault_text(fault: &Fault) -> Line
    ensures { result ≡ fault_text fault.now }
{
    let mut text = Text::new();
    text.push_number(u64::from(fault.replica));
    text.add_number(u64::from(fault.thread));
    text.add_number(fault.at);
    push_target(&mut text, fault.target);
    text.end()
}

// Appends the words of the target, each behind a space.
fn push_target(text: &mut Text, target: Target)
    requires { length text.old ≤ 62 }
    ensures bytes { text.new ≡ text.old ++ 32 ∷ spaced (target_words target) }
    ensures len { length text.new ≤ length text.old + 46 }
{
    match target {
        Target::Register { number, bit } => {
            push_place(text, "reg", u64::from(number), u64::from(bit))
        }
        Target::Pc { bit } => {
            text.add_word("pc");
            text.add_number(u64::from(bit));
        }
        Target::Byte { address, bit } => {
            push_place(text, "mem", u64::from(address), u64::from(bit))
        }
    }
}

fn push_place(text: &mut Text, kind: &str, number: u64, bit: u64)
    requires room { length text.old ≤ 62 }
    requires short { length kind.now ≤ 3 }
    ensures bytes { text.new ≡ text.old ++ 32 ∷ spaced (kind.now ∷ decimal number ∷ decimal bit ∷ []) }
    ensures len { length text.new ≤ length text.old + 46 }
{
    text.add_word(kind);
    text.add_number(number);
    text.add_number(bit);
}

// The fault of a line without its line feed.
#[tactic(auto, using(crate::proofs::Reading::many_words))]
pub(crate) fn read_fault(line: &[u8], replicas: u32) -> Result<Fault, FaultsCode>
    requires { 0 < replicas }
    ensures { result ≡ line_fault replicas line.now }
{
    match split_words(line) {
        Some(words) => read_words(words.as_slice(), replicas),
        None => Err(FaultsCode::Form),
    }
}

#[tactic(auto, using(crate::proofs::Reading::few_words))]
fn read_words(words: &[&[u8]], replicas: u32) -> Result<Fault, FaultsCode>
    requires { 0 < replicas }
    ensures { result ≡ ranged (is_fault replicas) (fault_of (map (λ word. word.now) words.now)) }
{
    match words {
        [replica, thread, at, target @ ..] => read_fields(replica, thread, at, target, replicas),
        _ => Err(FaultsCode::Form),
    }
}

// The fault of the words of three numbers and of a target.
fn read_fields(
    replica: &[u8],
    thread: &[u8],
    at: &[u8],
    target: &[&[u8]],
    replicas: u32,
) -> Result<Fault, FaultsCode>
    requires { 0 < replicas }
    ensures { result ≡ ranged (is_fault replicas) (fault_of (replica.now ∷ thread.now ∷ at.now ∷ map (λ word. word.now) target.now)) }
{
    if !is_number(replica) || !is_number(thread) || !is_number(at) {
        return Err(FaultsCode::Form);
    }
    with_target(replica, thread, at, read_target(target)?, replicas)
}

// The fault of these numbers and of a target in its ranges.
fn with_target(
    replica: &[u8],
    thread: &[u8],
    at: &[u8],
    target: Target,
    replicas: u32,
) -> Result<Fault, FaultsCode>
    requires some { 0 < replicas }
    requires replica { is_number replica.now ≡ true }
    requires thread { is_number thread.now ≡ true }
    requires at { is_number at.now ≡ true }
    requires target { is_target target ≡ true }
    ensures { result ≡ ranged (is_fault replicas) (Some (record { replica = value_of replica.now; thread = value_of thread.now; at = value_of at.now; target = target })) }
{
    match (
        value_within(replica, 0, u64::from(replicas) - 1),
        value_within(thread, 0, 15),
        value_within(at, 0, MOST_STEPS),
    ) {
        (Some(replica), Some(thread), Some(at)) => Ok(Fault {
            replica: replica as u32,
            thread: thread as u32,
            at,
            target,
        }),
        _ => Err(FaultsCode::Range),
    }
}

fn read_target(words: &[&[u8]]) -> Result<Target, FaultsCode>
    ensures read { result ≡ ranged is_target (target_of (map (λ word. word.now) words.now)) }
    ensures given { IfOk result (λ target. target_of (map (λ word. word.now) words.now) ≡ Some target) }
    ensures within { IfOk result (λ target. is_target target ≡ true) }
{
    match words {
        [kind, bit] => read_pc(kind, bit),
        [kind, number, bit] => read_place(kind, number, bit),
        _ => Err(FaultsCode::Form),
    }
}

fn read_pc(kind: &[u8], bit: &[u8]) -> Result<Target, FaultsCode>
    ensures read { result ≡ ranged is_target (target_of (kind.now ∷ bit.now ∷ [])) }
    ensures given { IfOk result (λ target. target_of (kind.now ∷ bit.now ∷ []) ≡ Some target) }
    ensures within { IfOk result (λ target. is_target target ≡ true) }
{
    if kind != b"pc".as_slice() || !is_number(bit) {
        return Err(FaultsCode::Form);
    }
    match value_within(bit, 0, 31) {
        Some(bit) => Ok(Target::Pc { bit: bit as u8 }),
        None => Err(FaultsCode::Range),
    }
}

fn read_place(kind: &[u8], number: &[u8], bit: &[u8]) -> Result<Target, FaultsCode>
    ensures read { result ≡ ranged is_target (target_of (kind.now ∷ number.now ∷ bit.now ∷ [])) }
    ensures given { IfOk result (λ target. target_of (kind.now ∷ number.now ∷ bit.now ∷ []) ≡ Some target) }
    ensures within { IfOk result (λ target. is_target target ≡ true) }
{
    if !is_number(number) || !is_number(bit) {
        return Err(FaultsCode::Form);
    }
    if kind == b"reg".as_slice() {
        match (value_within(number, 1, 31), value_within(bit, 0, 31)) {
            (Some(number), Some(bit)) => Ok(Target::Register {
                number: number as u8,
                bit: bit as u8,
            }),
            _ => Err(FaultsCode::Range),
        }
    } else if kind == b"mem".as_slice() {
        match (
            value_within(number, 0, u64::from(u32::MAX)),
            value_within(bit, 0, 7),
        ) {
            (Some(address), Some(bit)) => Ok(Target::Byte {
                address: address as u32,
                bit: bit as u8,
            }),
            _ => Err(FaultsCode::Range),
        }
    } else {
        Err(FaultsCode::Form)
    }
}
