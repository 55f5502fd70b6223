//! The lines of a text, and the words of a line.
ghost use Rattle.std.specs.Prelude.{◌≡◌, ◌==◌, ◌<◌, [], ◌∷◌, map, length, position, IfSome, IfNone};
ghost use Rattle.std.specs.List.{slice_split};
ghost use Rattle.ro_text.specs.Lines.{words_of, parts_of};

use arrayvec::ArrayVec;

/// How many words a line is split into.
pub const MOST_WORDS: usize = 6;

/// The first line of the text without its line feed, and what stands behind it, where there is a line feed.
pub fn first_line(text: &[u8]) -> Option<(&[u8], &[u8])>
    ensures some { IfSome result (λ found. parts_of text.now ≡ found.0.now ∷ parts_of found.1.now) }
    ensures less { IfSome result (λ found. length found.1.now < length text.now) }
    ensures none { IfNone result (parts_of text.now ≡ text.now ∷ []) }
{
    cut_at(text, b'\n')
}

/// What stands before the first byte of this value and what stands behind it, where there is one.
pub fn cut_at(bytes: &[u8], separator: u8) -> Option<(&[u8], &[u8])>
    ensures some { IfSome result (λ found. slice_split (λ b. b == separator) bytes.now ≡ found.0.now ∷ slice_split (λ b. b == separator) found.1.now) }
    ensures less { IfSome result (λ found. length found.1.now < length bytes.now) }
    ensures none { IfNone result (slice_split (λ b. b == separator) bytes.now ≡ bytes.now ∷ []) }
{
    let place = place_of(bytes, separator)?;
    Some((&bytes[..place], &bytes[place + 1..]))
}

fn place_of(bytes: &[u8], value: u8) -> Option<usize>
    ensures place { result ≡ position (λ b. b == value) bytes.now }
    ensures inside { IfSome result (λ place. place < length bytes.now) }
{
    bytes.iter().position(|byte| *byte == value)
}

/// The words of a line, where they are not more than `MOST_WORDS`.
pub fn split_words(line: &[u8]) -> Option<ArrayVec<&[u8], MOST_WORDS>>
    ensures some { IfSome result (λ words. map (λ word. word.now) words.items ≡ words_of line.now) }
    ensures none { IfNone result (MOST_WORDS < length (words_of line.now)) }
{
    let mut words = ArrayVec::new();
    let mut rest = line;
    while let Some((word, behind)) = cut_at(rest, b' ') {
        words.try_push(word).ok()?;
        rest = behind;
    }
    words.try_push(rest).ok()?;
    Some(words)
}
