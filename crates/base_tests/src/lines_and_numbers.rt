//! Lines, words, names and numbers, and texts that are none.

ghost use Rattle.std.specs.Prelude.{◌≡◌, IfOk, string_bytes};
ghost use Rattle.std.specs.Fmt.{signed_decimal};

use std::alloc::{AllocError, Global};
use std::test::Fail;
use texts::{is_name, natural, price, take_line, take_word, whole};

/// Texts, the most digits, and the number that they spell.
const NUMBERS: &[(&str, usize, Option<u64>)] = &[
    ("0", 1, Some(0)),
    ("7", 4, Some(7)),
    ("240", 4, Some(240)),
    ("9999", 4, Some(9999)),
    ("10000", 4, None),
    ("999999999", 9, Some(999_999_999)),
    ("999999999999999999", 18, Some(999_999_999_999_999_999)),
    ("", 4, None),
    ("01", 4, None),
    ("00", 4, None),
    ("+1", 4, None),
    ("-1", 4, None),
    ("1 ", 4, None),
    ("1a", 4, None),
    ("0", 0, None),
];

/// Texts, and the whole number that they spell.
const WHOLES: &[(&str, Option<i64>)] = &[
    ("0", Some(0)),
    ("7", Some(7)),
    ("-7", Some(-7)),
    ("-10", Some(-10)),
    ("999999999999999", Some(999_999_999_999_999)),
    ("-999999999999999", Some(-999_999_999_999_999)),
    ("1000000000000000", None),
    ("-1000000000000000", None),
    ("", None),
    ("-", None),
    ("-0", None),
    ("--1", None),
    ("+1", None),
    ("-01", None),
    (" 1", None),
    ("1-", None),
];

/// Texts, and whether they are names.
const NAMES: &[(&str, bool)] = &[
    ("a", true),
    ("north_2", true),
    ("abcdefghijklmnopqrstuvwx", true),
    ("abcdefghijklmnopqrstuvwxy", false),
    ("", false),
    ("2nd", false),
    ("_a", false),
    ("A", false),
    ("a b", false),
    ("ctm-plan", false),
];

/// Texts, their first line and what stands behind it.
const LINES: &[(&str, Option<(&str, &str)>)] = &[
    ("a 1\nend\n", Some(("a 1", "end\n"))),
    ("end\n", Some(("end", ""))),
    ("\n\n", Some(("", "\n"))),
    ("end", None),
    ("", None),
];

/// Lines, their first word and what stands behind it.
const WORDS: &[(&str, Option<(&str, &str)>)] = &[
    ("priced 3 -1", Some(("priced", "3 -1"))),
    ("a  1", Some(("a", " 1"))),
    (" a", Some(("", "a"))),
    ("a ", Some(("a", ""))),
    ("end", None),
    ("", None),
];

/// The text of a number.
fn written(alloc: Global, number: i64) -> Result<String, AllocError>
    ensures { IfOk result (λ text. string_bytes text ≡ signed_decimal number) }
{
    format!(in alloc; "{number}")
}

#[test]
fn texts_spell_names_and_numbers(rt: HostRuntime) -> Result<(), Fail> {
    for (text, digits, number) in NUMBERS {
        assert!(rt; *digits <= 18, "{text}");
        assert_eq!(rt; natural(text.as_bytes(), *digits), *number, "{text}");
    }
    for (text, is) in NAMES {
        assert_eq!(rt; is_name(text.as_bytes()), *is, "{text}");
    }
    Ok(())
}

#[test]
fn texts_spell_whole_numbers_and_prices(rt: HostRuntime) -> Result<(), Fail> {
    for (text, number) in WHOLES {
        assert_eq!(rt; whole(text.as_bytes()), *number, "{text}");
        assert_eq!(rt;
            price(text.as_bytes()),
            number.filter(|n| *n != 0),
            "{text}"
        );
    }
    Ok(())
}

#[test]
fn a_written_number_is_read(rt: HostRuntime) -> Result<(), Fail> {
    for number in [0i64, 5, -5, 1024, -999_999_999_999_999] {
        let text = written(rt.alloc(), number)?;
        assert_eq!(rt; whole(text.as_bytes()), Some(number), "{number}");
    }
    Ok(())
}

#[test]
fn lines_and_words_come_off_the_front(rt: HostRuntime) -> Result<(), Fail> {
    for (text, parts) in LINES {
        let wanted = parts.map(|(line, behind)| (line.as_bytes(), behind.as_bytes()));
        assert_eq!(rt; take_line(text.as_bytes()), wanted, "{text}");
    }
    for (line, parts) in WORDS {
        let wanted = parts.map(|(word, behind)| (word.as_bytes(), behind.as_bytes()));
        assert_eq!(rt; take_word(line.as_bytes()), wanted, "{line}");
    }
    Ok(())
}
