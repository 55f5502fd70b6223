//! The summary of a run's journal.
ghost use Rattle.std.specs.Prelude.{◌≡◌, ◌+◌, ◌*◌, ◌%◌, ◌^◌, ◌<◌, ◌≤◌, ◌++◌, length, decimal};
ghost use Rattle.ro_journal.specs.Counts.{struck_in};
ghost use Rattle.ro_plans.specs.Plans.{plan_in};
ghost use Rattle.ro_report.specs.Report.{summary_text, plain_text, bench_text, weighed};

use ro_journal::{Entry, Totals};
use ro_plans::plan_length;
use ro_settings::Mode;
use ro_text::{Line, ROOM, Text};

/// Sums of bytes are numbers below this one.
const MODULUS: u64 = 4_294_967_296;

/// The line that sums the journal of a run in the mode up: its votes, the copies that followed them, the faults that were
/// struck, the steps of its plan, and the bytes that the run wrote.
pub fn summary(mode: Mode, journal: &[Entry], bytes: u64) -> Line
    requires struck { struck_in journal.now < 2 ^ 64 }
    requires steps { length (plan_in mode journal.now) < 2 ^ 64 }
    ensures { result ≡ summary_text mode journal.now bytes }
{
    let totals = Totals::of(journal);
    let steps = match mode {
        Mode::Voted => totals.steps,
        Mode::Cooperative => plan_length(mode, journal),
    };
    let mut text = Text::new();
    push_field(&mut text, "votes ", totals.votes);
    push_field(&mut text, " copies ", totals.copies);
    push_field(&mut text, " struck ", totals.struck);
    push_field(&mut text, " steps ", steps);
    push_field(&mut text, " bytes ", bytes);
    text.end()
}

/// The line of a plan that was run to its end: its steps, and the bytes that they wrote.
pub fn plain_line(steps: u64, bytes: u64) -> Line
    ensures { result ≡ plain_text steps bytes }
{
    let mut text = Text::new();
    push_field(&mut text, "steps ", steps);
    push_field(&mut text, " bytes ", bytes);
    text.end()
}

/// The line of a made executable, of a seed and a size, that exited with this status and wrote these bytes: how many, and
/// the sum of each byte times its place from 1 on.
pub fn bench_line(seed: u64, size: u32, status: u8, output: &[u8]) -> Line
    ensures { result ≡ bench_text seed size status output.now }
{
    let mut text = Text::new();
    push_field(&mut text, "bench ", seed);
    push_field(&mut text, " ", u64::from(size));
    push_field(&mut text, " status ", u64::from(status));
    push_field(&mut text, " bytes ", output.len() as u64);
    push_field(&mut text, " sum ", weight(output));
    text.end()
}

// The sum of each byte times its place, from 1 on, as a number of 32 bits.
fn weight(output: &[u8]) -> u64
    ensures { result ≡ weighed 1 output.now % 2 ^ 32 }
{
    let mut sum = 0;
    let mut place = 1;
    let mut rest = output;
    while let Some((byte, behind)) = rest.split_first() {
        sum = add_weight(sum, place, *byte);
        place += 1;
        rest = behind;
    }
    sum
}

// The sum with a byte at its place.
fn add_weight(sum: u64, place: u64, byte: u8) -> u64
    requires { sum < 2 ^ 32 }
    ensures sum { result ≡ (sum + place * byte) % 2 ^ 32 }
    ensures small { result < 2 ^ 32 }
{
    (sum + place % MODULUS * u64::from(byte)) % MODULUS
}

fn push_field(text: &mut Text, name: &str, number: u64)
    requires { length text.old + length name.now + 20 ≤ ROOM }
    ensures bytes { text.new ≡ text.old ++ name.now ++ decimal number }
    ensures len { length text.new ≤ length text.old + length name.now + 20 }
{
    text.push(name);
    text.push_number(number);
}
