//! What is written is read back.
ghost use Rattle.std.specs.Prelude.{ℕ, List, ◌∷◌, ◌++◌, ◌≡◌, ◌^◌, ◌<◌, ◌≤◌, decimal, length, true};
ghost use Rattle.std.specs.List.{list_all};
ghost use Rattle.ro_text.specs.Numbers.{is_number, value_of};
ghost use Rattle.ro_text.specs.Lines.{spaced, line_text, is_plain, words_of, parts_of};

/// The spelling of a number is read as that number.
pub fn numbers_read_back()
    ensures spelled { (number : ℕ) → number < 2 ^ 64 → is_number (decimal number) ≡ true }
    ensures value { (number : ℕ) → number < 2 ^ 64 → value_of (decimal number) ≡ number }
{}

/// A word that is read as a number is its spelling.
pub fn numbers_spelled_once()
    ensures { (word : List ℕ) → is_number word ≡ true → value_of word < 2 ^ 64 → decimal (value_of word) ≡ word }
{}

/// A line of words is split into these words.
pub fn words_read_back()
    ensures { (words : List (List ℕ)) → 0 < length words → list_all is_plain words ≡ true → words_of (spaced words) ≡ words }
{}

/// A line of words is the first line of the text that it begins.
pub fn lines_read_back()
    ensures { (words : List (List ℕ)) (text : List ℕ) → list_all is_plain words ≡ true → parts_of (line_text words ++ text) ≡ spaced words ∷ parts_of text }
{}
