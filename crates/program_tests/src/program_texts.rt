//! The text of a program that was worked by hand, texts of points, and texts that are refused.

use crate::one_link;
use program_text::{PointFault, read_point, write_point, write_program};
use std::test::Fail;

/// The text of the program of one link.
const ONE_LINK: &str = "ctm-program 1\n\
    columns 4 0\n\
    3 3 1\n\
    0 2 -1\n\
    0 1 0\n\
    0 1 0\n\
    rows 5\n\
    eq 1 2:1 3:1\n\
    ge -2 1:-1 3:-1\n\
    ge 0 0:1 1:-1\n\
    ge 0 1:1 2:-2\n\
    ge -3 0:-1 1:1 3:-3\n\
    end\n";

/// Values and their text. The first are the one point of the program of one link.
const POINTS: &[(&[i64], &str)] = &[
    (&[3, 2, 1, 0], "ctm-point 1\n3\n2\n1\n0\nend\n"),
    (&[], "ctm-point 1\nend\n"),
    (
        &[-7, 0, 999_999_999_999_999, -999_999_999_999_999],
        "ctm-point 1\n-7\n0\n999999999999999\n-999999999999999\nend\n",
    ),
];

/// Texts, and the line at which each is refused.
const REFUSED: &[(&str, u64)] = &[
    ("", 1),
    ("\n", 1),
    ("ctm-point 2\nend\n", 1),
    ("3\nend\n", 1),
    ("ctm-point 1", 1),
    ("ctm-point 1\n", 2),
    ("ctm-point 1\n\nend\n", 2),
    ("ctm-point 1\n03\nend\n", 2),
    ("ctm-point 1\n3\n-0\nend\n", 3),
    ("ctm-point 1\n3\n+2\nend\n", 3),
    ("ctm-point 1\n3 \nend\n", 2),
    ("ctm-point 1\n1000000000000000\nend\n", 2),
    ("ctm-point 1\n3\nctm-point 1\nend\n", 3),
    ("ctm-point 1\n3\nend", 3),
    ("ctm-point 1\n3\n", 3),
    ("ctm-point 1\n3\nend\n\n", 4),
    ("ctm-point 1\n3\nend\nend\n", 4),
    ("ctm-point 1\n3\nend\n2\nx\nend\n", 4),
];

#[test]
fn a_program_has_its_text(rt: HostRuntime) -> Result<(), Fail> {
    let program = one_link::built(&rt, rt.alloc())?;
    let text = write_program(rt.alloc(), &program)?;
    assert_eq!(rt; text.as_slice(), ONE_LINK.as_bytes());
    Ok(())
}

#[test]
fn points_are_written_and_read(rt: HostRuntime) -> Result<(), Fail> {
    for (values, text) in POINTS {
        let written = write_point(rt.alloc(), values)?;
        assert_eq!(rt; written.as_slice(), text.as_bytes(), "{text}");
        let point = read_point(rt.alloc(), text.as_bytes())?;
        assert_eq!(rt; point.as_slice(), *values, "{text}");
    }
    Ok(())
}

#[test]
fn other_texts_are_refused_at_their_line(rt: HostRuntime) -> Result<(), Fail> {
    for (text, line) in REFUSED {
        match read_point(rt.alloc(), text.as_bytes()) {
            Ok(_) => assert!(rt; false, "{text}"),
            Err(fault) => assert_eq!(rt; fault, PointFault::Form(*line), "{text}"),
        }
    }
    let sentence = format!(in rt.alloc(); "{}", PointFault::Form(3))?;
    assert_eq!(rt;
        sentence.as_str(),
        "line 3 is of no form, lacks its line feed, is missing or stands behind the end"
    );
    Ok(())
}
