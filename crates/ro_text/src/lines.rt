//! Lines of a fixed size.
ghost use Rattle.std.specs.Prelude.{◌≡◌, ◌+◌, ◌<◌, ◌≤◌, [], ◌++◌, ◌∷◌, length, codes, decimal};

use arrayvec::ArrayString;
use itoa::Buffer;
use std::marker::Model;

/// The bytes that a text has room for.
pub const ROOM: usize = 160;

/// The text of a line while it is put together.
#[derive(Drop)]
pub struct Text {
    bytes: ArrayString<ROOM>,
}

impl Model for Text {
    ghost use Rattle.std.specs.Prelude.{ℕ, List};

    ghost Value = { List ℕ };

    ghost view = { λ t. t.bytes.bytes };
}

impl Text {
    /// An empty text.
    pub fn new() -> Text
        ensures { result ≡ [] }
    {
        Text {
            bytes: ArrayString::new(),
        }
    }

    /// Appends the word.
    pub fn push(&mut self, word: &str)
        requires { length self.old + length word.now ≤ ROOM }
        ensures bytes { self.new ≡ self.old ++ word.now }
        ensures len { length self.new ≡ length self.old + length word.now }
    {
        self.bytes.push_str(word);
    }

    /// Appends the number in decimal.
    pub fn push_number(&mut self, number: u64)
        requires { length self.old + 20 ≤ ROOM }
        ensures bytes { self.new ≡ self.old ++ decimal number }
        ensures len { length self.new ≤ length self.old + 20 }
    {
        let mut digits = Buffer::new();
        self.bytes.push_str(digits.format(number));
    }

    /// Appends a space and the word.
    pub fn add_word(&mut self, word: &str)
        requires { length self.old + length word.now + 1 ≤ ROOM }
        ensures bytes { self.new ≡ self.old ++ 32 ∷ word.now }
        ensures len { length self.new ≡ length self.old + length word.now + 1 }
    {
        self.bytes.push_str(" ");
        self.bytes.push_str(word);
    }

    /// Appends a space and the number in decimal.
    pub fn add_number(&mut self, number: u64)
        requires { length self.old + 21 ≤ ROOM }
        ensures bytes { self.new ≡ self.old ++ 32 ∷ decimal number }
        ensures len { length self.new ≤ length self.old + 21 }
    {
        self.bytes.push_str(" ");
        self.push_number(number);
    }

    /// The line of the text.
    pub fn end(self) -> Line
        requires { length self < ROOM }
        ensures { result ≡ self ++ codes "\n" }
    {
        let mut text = self;
        text.push("\n");
        Line { text }
    }
}

/// A line. It is not empty.
#[derive(Drop)]
pub struct Line {
    text: Text,
}

impl Model for Line {
    ghost use Rattle.std.specs.Prelude.{ℕ, List, ◌<◌, length};

    ghost Value = { List ℕ };

    ghost view = { λ l. l.text };

    ghost invariant = { λ l. 0 < length l.text };
}

impl Line {
    /// The bytes of the line, with the line feed at its end.
    pub fn as_bytes(&self) -> &[u8]
        ensures bytes { result.now ≡ self.now }
        ensures filled { 0 < length result.now }
    {
        self.text.bytes.as_str().as_bytes()
    }
}
