//! Demonstrations: the number as a word, what is put, and a put that fails. None makes a call on the shelf.

use crate::tests::world::{ALL_CALLS, Calls, run_over, try_run};
use std::test::Fail;

/// Words that name no generated network.
const NO_NUMBERS: &[&[&str]] = &[
    &["demo"],
    &["demo", ""],
    &["demo", "07"],
    &["demo", "10000"],
    &["demo", "-1"],
    &["demo", "65543"],
    &["demo", "1", "2"],
];

/// What is put of one of them before the delay.
const HEAD: &str = "demo 7\nrows 9627\ncolumns 6771\ndelay ";

#[test]
fn words_that_name_no_generated_network(rt: HostRuntime) -> Result<(), Fail> {
    for words in NO_NUMBERS {
        try_run(&rt, words, &[], &ALL_CALLS, 2, "words\n")?;
    }
    Ok(())
}

#[test]
fn a_demonstration_puts_the_same_twice_and_makes_no_call(rt: HostRuntime) -> Result<(), Fail> {
    let words = ["demo", "7"];
    let failing = Calls {
        failing: &[1, 2],
        ..ALL_CALLS
    };
    let first = run_over(&rt, &words, &[], &ALL_CALLS)?;
    let second = run_over(&rt, &words, &[], &failing)?;
    assert_eq!(rt; first.status, 0);
    let out = first.out.bytes();
    assert!(rt; out.starts_with(HEAD.as_bytes()));
    assert!(rt; out.ends_with(b"\nend\n"));
    assert_eq!(rt; out, second.out.bytes());
    assert!(rt; first.shelf.calls().is_empty());
    assert!(rt; second.shelf.calls().is_empty());
    Ok(())
}

#[test]
fn a_put_of_a_demonstration_that_fails(rt: HostRuntime) -> Result<(), Fail> {
    let calls = Calls {
        failing_puts: &[3],
        most_put: 4,
        ..ALL_CALLS
    };
    try_run(&rt, &["demo", "0"], &[], &calls, 7, "demo 0\nr")?;
    Ok(())
}
