use super::{number, word_number};

#[test]
fn tells_numbers_from_other_texts(rt: HostRuntime) {
    let in_rows = [
        ("", None),
        ("-", None),
        ("+1", None),
        ("1_0", None),
        (" 1", None),
        ("1 ", None),
        ("1000000000000000000", None),
        ("0000000000000000001", None),
        ("-0000000000000000001", None),
        ("0", Some(0)),
        ("-0", Some(0)),
        ("007", Some(7)),
        ("-12", Some(-12)),
        ("999999999999999999", Some(999_999_999_999_999_999)),
        ("-999999999999999999", Some(-999_999_999_999_999_999)),
    ];
    for (text, want) in in_rows {
        assert_eq!(rt; number(text.as_bytes()), want, "at {text}");
    }
    let in_words = [
        ("", None),
        ("04", None),
        ("+4", None),
        ("0", Some(0)),
        ("32", Some(32)),
    ];
    for (word, want) in in_words {
        assert_eq!(rt; word_number(word.as_bytes()), want, "at {word}");
    }
}
