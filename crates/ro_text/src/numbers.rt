//! Numbers in decimal.
ghost use Rattle.std.specs.Prelude.{◌≡◌, ◌≤◌, ◌<◌, ◌^◌, IfSome, IfNone, true, false};
ghost use Rattle.ro_text.specs.Numbers.{are_digits, is_number, value_from, value_of, within};

/// Whether the word spells a number, which it can in one way.
pub fn is_number(word: &[u8]) -> bool
    ensures { result ≡ is_number word.now }
{
    match word {
        [] => false,
        [digit, digits @ ..] => are_digits(word) && (*digit != b'0' || digits.is_empty()),
    }
}

fn are_digits(word: &[u8]) -> bool
    ensures { result ≡ are_digits word.now }
{
    word.iter().all(|digit| digit.is_ascii_digit())
}

// The number that digits give behind those of another, where 64 bits hold it.
#[tactic(auto, using(crate::proofs::Values::value_more))]
fn value_from(number: u64, word: &[u8]) -> Option<u64>
    requires { are_digits word.now ≡ true }
    ensures some { IfSome result (λ value. value ≡ value_from number word.now) }
    ensures none { IfNone result (2 ^ 64 ≤ value_from number word.now) }
{
    match word {
        [] => Some(number),
        [digit, digits @ ..] => {
            let next = number
                .checked_mul(10)?
                .checked_add(u64::from(*digit - b'0'))?;
            value_from(next, digits)
        }
    }
}

/// The number that the word spells, where it is in the range.
pub fn value_within(word: &[u8], least: u64, most: u64) -> Option<u64>
    requires { is_number word.now ≡ true }
    ensures some { IfSome result (λ value. value ≡ value_of word.now) }
    ensures inside { IfSome result (λ value. (least ≤ value) × (value ≤ most)) }
    ensures none { IfNone result (within least most (value_of word.now) ≡ false) }
{
    match value_from(0, word) {
        Some(value) if least <= value && value <= most => Some(value),
        _ => None,
    }
}
