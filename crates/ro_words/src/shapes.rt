//! What a word may look like.
ghost use Rattle.ro_words.specs.Uses.{after_dashes, is_argument as is_argument_of, is_word as is_word_of, texts_of};
ghost use Rattle.std.specs.Prelude.{◌≡◌, drop, option_map};
ghost use Rattle.clap.specs.Lexer.{strip_byte};
ghost use Rattle.std.specs.List.{list_all};

// Whether each word behind the program's name may stand in a command.
pub(crate) fn are_words(words: &[&str]) -> bool
    ensures { result ≡ list_all is_word_of (drop 1 (texts_of words.now)) }
{
    match words.split_first() {
        Some((_, rest)) => all_are_words(rest),
        None => true,
    }
}

// The same of all words.
fn all_are_words(words: &[&str]) -> bool
    ensures { result ≡ list_all (λ word. is_word_of word.now) words.now }
{
    words.iter().all(|word| is_word(word))
}

// An argument, `--name` or `--name=V`.
fn is_word(word: &str) -> bool
    ensures { result ≡ is_word_of word.now }
{
    let Some(option) = option_in(word) else {
        return is_argument(word);
    };
    match option.split_once('=') {
        Some((_, value)) => is_argument(value),
        None => !option.is_empty(),
    }
}

// What follows `--`.
fn option_in(word: &str) -> Option<&str>
    ensures { option_map (λ t. t.now) result ≡ after_dashes word.now }
{
    without_dash(without_dash(word)?)
}

// What follows a first `-`.
fn without_dash(word: &str) -> Option<&str>
    ensures { option_map (λ t. t.now) result ≡ strip_byte 45 word.now }
{
    word.strip_prefix('-')
}

// Neither empty nor beginning with `-`.
fn is_argument(text: &str) -> bool
    ensures { result ≡ is_argument_of text.now }
{
    !text.is_empty() && !text.starts_with('-')
}
