//! What a fault says of itself.

use network_file::{At, NetFault};
use std::test::Fail;

/// Faults with the sentences that they are shown by.
const SENTENCES: [(NetFault, &str); 6] = [
    (NetFault::Toml, "the file is no TOML document"),
    (
        NetFault::Key {
            table: At::Top,
            key: 2,
        },
        "in the top table, key 2 is missing or of another type; 0 stands for an unknown key",
    ),
    (
        NetFault::Range {
            table: At::Turn(3, 1),
            key: 2,
        },
        "in branch 1 of link 3, the value of key 2 is out of its range",
    ),
    (
        NetFault::Range {
            table: At::Piece(3, 0),
            key: 1,
        },
        "in piece 0 of link 3, the value of key 1 is out of its range",
    ),
    (
        NetFault::Name {
            table: At::Signal(1),
        },
        "the name of signal 1 is taken already",
    ),
    (
        NetFault::Name {
            table: At::Phase(0, 7),
        },
        "the name of phase 7 of signal 0 is taken already",
    ),
];

#[test]
fn a_fault_is_shown_by_a_sentence(rt: HostRuntime) -> Result<(), Fail> {
    for (fault, sentence) in &SENTENCES {
        let shown = format!(in rt.alloc(); "{fault}")?;
        assert_eq!(rt; shown.as_str(), *sentence);
    }
    Ok(())
}
