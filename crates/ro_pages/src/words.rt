//! A page kept as 1,024 words, of which bytes and half-words are parts.
ghost use Rattle.std.specs.Prelude.{ℕ, ◌≡◌, ◌+◌, ◌-◌, ◌*◌, ◌/◌, ◌%◌, ◌^◌, ◌<◌, ◌≤◌, ◌==◌, ◌&&◌, nat_le, nat_lt, if◌then◌else◌, length, take, drop, slice_index};
ghost use Rattle.ro_pages.specs.Bytes.{IsSize, number_at, bytes_of, stored};
ghost use Rattle.ro_pages.specs.Words.{byte_of_word, byte_in_words, after_store};

use ro_limits::PAGE_WORDS;

/// The number of so many bytes at an offset.
#[inline(always)]
pub fn load_from(words: &[u32; PAGE_WORDS], offset: u32, size: u32) -> u32
    requires size { IsSize size }
    requires within { offset < 4096 }
    requires aligned { offset % size ≡ 0 }
    ensures value { result ≡ number_at (byte_in_words words.now) offset size }
    ensures below { result < 2 ^ (8 * size) }
{
    let word = words[(offset / 4) as usize];
    match size {
        1 => (word >> (8 * (offset % 4))) % 0x100,
        2 => (word >> (8 * (offset % 4))) % 0x1_0000,
        _ => word,
    }
}

/// Stores so many bytes of a number at an offset.
#[inline(always)]
pub fn store_in(words: &mut [u32; PAGE_WORDS], offset: u32, size: u32, value: u32)
    requires size { IsSize size }
    requires within { offset < 4096 }
    requires aligned { offset % size ≡ 0 }
    ensures { (i : ℕ) → byte_in_words words.new i ≡ after_store (byte_in_words words.old) offset size value i }
{
    let index = (offset / 4) as usize;
    let word = words[index];
    match size {
        1 => words[index] = with_byte(word, offset % 4, value % 0x100),
        2 => words[index] = with_half(word, offset % 4, value % 0x1_0000),
        _ => words[index] = value,
    }
}

/// The word with another byte at a place, the lowest at 0.
#[inline(always)]
fn with_byte(word: u32, place: u32, byte: u32) -> u32
    requires place { place < 4 }
    requires byte { byte < 2 ^ 8 }
    ensures { (i : ℕ) → byte_of_word result i ≡ (if i % 4 == place then byte else byte_of_word word i) }
{
    let shift = 8 * place;
    let before = (word >> shift) % 0x100;
    word.wrapping_sub(before << shift)
        .wrapping_add(byte << shift)
}

/// The word with another half, the lower one at 0 and the upper one at 2.
#[inline(always)]
fn with_half(word: u32, place: u32, half: u32) -> u32
    requires place { place < 4 }
    requires even { place % 2 ≡ 0 }
    requires half { half < 2 ^ 16 }
    ensures { (i : ℕ) → byte_of_word result i ≡ (if i % 4 == place then half % 2 ^ 8 else (if i % 4 == place + 1 then half / 2 ^ 8 else byte_of_word word i)) }
{
    let shift = 8 * place;
    let before = (word >> shift) % 0x1_0000;
    word.wrapping_sub(before << shift)
        .wrapping_add(half << shift)
}

/// Reads the bytes from an offset on.
pub fn read_from(words: &[u32; PAGE_WORDS], offset: usize, bytes: &mut [u8])
    requires { offset + length bytes.old ≤ 4096 }
    ensures { (i : ℕ) → i < length bytes.old → slice_index bytes.new i ≡ byte_in_words words.now (offset + i) }
{
    let mut done = 0;
    while done < bytes.len() {
        done = read_more(words, offset, bytes, done);
    }
}

/// Reads all the whole words that are left where one begins, and else a byte.
#[inline(always)]
fn read_more(words: &[u32; PAGE_WORDS], offset: usize, bytes: &mut [u8], done: usize) -> usize
    requires within { offset + length bytes.old ≤ 4096 }
    requires more { done < length bytes.old }
    requires read { (i : ℕ) → i < done → slice_index bytes.old i ≡ byte_in_words words.now (offset + i) }
    ensures more { done < result }
    ensures within { result ≤ length bytes.old }
    ensures read { (i : ℕ) → i < result → slice_index bytes.new i ≡ byte_in_words words.now (offset + i) }
{
    let place = offset + done;
    let count = (bytes.len() - done) / 4;
    if place % 4 == 0 && count > 0 {
        read_words(words, offset, bytes, done, count);
        done + 4 * count
    } else {
        bytes[done] = byte_of(words[place / 4], place);
        done + 1
    }
}

/// Reads so many words more, of which the first begins here.
#[inline(always)]
fn read_words(words: &[u32; PAGE_WORDS], offset: usize, bytes: &mut [u8], done: usize, count: usize)
    requires within { offset + length bytes.old ≤ 4096 }
    requires begins { (offset + done) % 4 ≡ 0 }
    requires room { done + 4 * count ≤ length bytes.old }
    requires read { (i : ℕ) → i < done → slice_index bytes.old i ≡ byte_in_words words.now (offset + i) }
    ensures { (i : ℕ) → i < done + 4 * count → slice_index bytes.new i ≡ byte_in_words words.now (offset + i) }
{
    let first = (offset + done) / 4;
    for k in 0..count {
        put_word(bytes, done + 4 * k, words[first + k]);
    }
}

/// The byte of a word at a place, whose lowest two bits say which.
#[inline(always)]
fn byte_of(word: u32, place: usize) -> u8
    ensures { result ≡ byte_of_word word place }
{
    ((word >> (8 * (place % 4))) % 0x100) as u8
}

/// Writes the bytes of a word from a place on.
#[inline(always)]
fn put_word(bytes: &mut [u8], place: usize, word: u32)
    requires { place + 4 ≤ length bytes.old }
    ensures { (i : ℕ) → slice_index bytes.new i ≡ (if nat_le place i && nat_lt i (place + 4) then byte_of_word word (i - place) else slice_index bytes.old i) }
{
    bytes[place..place + 4].copy_from_slice(&word.to_le_bytes());
}

/// Writes bytes from an offset on.
pub fn write_to(words: &mut [u32; PAGE_WORDS], offset: usize, bytes: &[u8])
    requires { offset + length bytes.now ≤ 4096 }
    ensures { byte_in_words words.new ≡ stored (byte_in_words words.old) offset bytes.now }
{
    let mut done = 0;
    while done < bytes.len() {
        done = write_more(words, offset, bytes, done);
    }
}

/// Writes all the whole words that are left where one begins, and else a byte.
#[inline(always)]
fn write_more(words: &mut [u32; PAGE_WORDS], offset: usize, bytes: &[u8], done: usize) -> usize
    requires within { offset + length bytes.now ≤ 4096 }
    requires more { done < length bytes.now }
    ensures more { done < result }
    ensures within { result ≤ length bytes.now }
    ensures written { byte_in_words words.new ≡ stored (byte_in_words words.old) (offset + done) (take (result - done) (drop done bytes.now)) }
{
    let place = offset + done;
    let count = (bytes.len() - done) / 4;
    if place % 4 == 0 && count > 0 {
        write_words(words, place / 4, &bytes[done..], count);
        done + 4 * count
    } else {
        store_in(words, place as u32, 1, u32::from(bytes[done]));
        done + 1
    }
}

/// Writes so many words from one of the page on.
#[inline(always)]
fn write_words(words: &mut [u32; PAGE_WORDS], first: usize, bytes: &[u8], count: usize)
    requires within { first + count ≤ 1024 }
    requires room { 4 * count ≤ length bytes.now }
    ensures { byte_in_words words.new ≡ stored (byte_in_words words.old) (4 * first) (take (4 * count) bytes.now) }
{
    for k in 0..count {
        set_word(words, first + k, word_at(bytes, 4 * k));
    }
}

/// Writes a word of the page.
#[inline(always)]
fn set_word(words: &mut [u32; PAGE_WORDS], index: usize, word: u32)
    requires { index < 1024 }
    ensures { (i : ℕ) → byte_in_words words.new i ≡ after_store (byte_in_words words.old) (4 * index) 4 word i }
{
    words[index] = word;
}

/// The word of the four bytes from a place on.
#[inline(always)]
fn word_at(bytes: &[u8], place: usize) -> u32
    requires { place + 4 ≤ length bytes.now }
    ensures { bytes_of 4 result ≡ take 4 (drop place bytes.now) }
{
    u32::from_le_bytes([
        bytes[place],
        bytes[place + 1],
        bytes[place + 2],
        bytes[place + 3],
    ])
}
