//! Words, numbers and lines.
use ro_text::{Text, first_line, is_number, split_words, value_within};

// A word, and what it spells from 1 to 2^64 - 1: nothing where it spells no number.
struct Word {
    text: &'static str,
    number: bool,
    value: Option<u64>,
}

const WORDS: &[Word] = &[
    Word {
        text: "",
        number: false,
        value: None,
    },
    Word {
        text: "0",
        number: true,
        value: None,
    },
    Word {
        text: "00",
        number: false,
        value: None,
    },
    Word {
        text: "01",
        number: false,
        value: None,
    },
    Word {
        text: "+1",
        number: false,
        value: None,
    },
    Word {
        text: "10",
        number: true,
        value: Some(10),
    },
    Word {
        text: "1a",
        number: false,
        value: None,
    },
    Word {
        text: "18446744073709551615",
        number: true,
        value: Some(u64::MAX),
    },
    Word {
        text: "18446744073709551616",
        number: true,
        value: None,
    },
];

#[test]
fn words(rt: HostRuntime) {
    for word in WORDS {
        let bytes = word.text.as_bytes();
        let number = is_number(bytes);
        assert_eq!(rt; number, word.number, "of {:?}", word.text);
        if number {
            assert_eq!(rt;
                value_within(bytes, 1, u64::MAX),
                word.value,
                "of {:?}",
                word.text
            );
        }
    }
}

#[test]
fn lines(rt: HostRuntime) {
    let mut text = Text::new();
    text.push("limit");
    text.add_number(20_000);
    text.add_word("-");
    let line = text.end();
    assert_eq!(rt; line.as_bytes(), "limit 20000 -\n".as_bytes());
    match first_line(line.as_bytes()) {
        Some((words, rest)) => {
            assert!(rt; rest.is_empty());
            assert_eq!(rt; split_words(words).map(|words| words.len()), Some(3));
        }
        None => assert!(rt; false, "a line feed is found"),
    }
    assert!(rt; first_line("end".as_bytes()).is_none());
    assert!(rt; split_words("1 2 3 4 5 6 7".as_bytes()).is_none());
}
