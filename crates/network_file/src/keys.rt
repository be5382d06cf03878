//! The keys of each table of a network file: which must stand, of which type, within which range. A key's number is its
//! place in the list of its table, counted from 1. To add a key, add a line here and one in `specs/Keys.antt`: the proof
//! holds the two together.

/// A key that a table may have.
#[derive(Clone, Copy, Debug)]
pub struct Key {
    pub name: &'static str,
    pub need: Need,
    pub kind: Kind,
}

/// Whether a key must stand.
#[derive(Clone, Copy, Debug)]
pub enum Need {
    /// It must stand.
    Needed,
    /// It may be left out.
    Optional,
    /// It must stand where another key of the table does.
    NeededWith(&'static str),
}

/// What stands at a key: its type, and the range that it must lie in. Both ends belong to a range.
#[derive(Clone, Copy, Debug)]
pub enum Kind {
    /// A whole number whose value another rule judges.
    AnyWhole,
    /// A whole number.
    Whole { low: u32, high: u32 },
    /// A text.
    AnyText,
    /// A text of the shape of a name.
    Name,
    /// An array of two whole numbers p and q with 1 <= p <= q <= 100.
    Wave,
    /// An array of at most so many whole numbers.
    Wholes { most: usize, low: u32, high: u32 },
    /// An array of so many texts.
    Texts { low: usize, high: usize },
    /// An array of so many tables.
    Tables { low: usize, high: usize },
}

/// The keys of the top table.
pub const TOP_KEYS: [Key; 4] = [
    Key {
        name: "format",
        need: Need::Needed,
        kind: Kind::AnyWhole,
    },
    Key {
        name: "steps",
        need: Need::Needed,
        kind: Kind::Whole { low: 1, high: 240 },
    },
    Key {
        name: "link",
        need: Need::Needed,
        kind: Kind::Tables { low: 1, high: 64 },
    },
    Key {
        name: "signal",
        need: Need::Optional,
        kind: Kind::Tables { low: 0, high: 16 },
    },
];

/// The keys of a link.
pub const LINK_KEYS: [Key; 12] = [
    Key {
        name: "name",
        need: Need::Needed,
        kind: Kind::Name,
    },
    Key {
        name: "cells",
        need: Need::Optional,
        kind: Kind::Whole { low: 1, high: 256 },
    },
    Key {
        name: "cap",
        need: Need::Needed,
        kind: Kind::Whole { low: 1, high: 1000 },
    },
    Key {
        name: "store",
        need: Need::Needed,
        kind: Kind::Whole {
            low: 1,
            high: 10_000,
        },
    },
    Key {
        name: "wave",
        need: Need::Optional,
        kind: Kind::Wave,
    },
    Key {
        name: "to",
        need: Need::Optional,
        kind: Kind::AnyText,
    },
    Key {
        name: "turns",
        need: Need::Optional,
        kind: Kind::Tables { low: 2, high: 4 },
    },
    Key {
        name: "signal",
        need: Need::NeededWith("greens"),
        kind: Kind::AnyText,
    },
    Key {
        name: "greens",
        need: Need::NeededWith("signal"),
        kind: Kind::Texts { low: 1, high: 16 },
    },
    Key {
        name: "initial",
        need: Need::Optional,
        kind: Kind::Wholes {
            most: 256,
            low: 0,
            high: 10_000,
        },
    },
    Key {
        name: "demand",
        need: Need::Optional,
        kind: Kind::Tables { low: 0, high: 240 },
    },
    Key {
        name: "rates",
        need: Need::Optional,
        kind: Kind::Wholes {
            most: 240,
            low: 0,
            high: 1000,
        },
    },
];

/// The keys of a branch of a link.
pub const TURN_KEYS: [Key; 2] = [
    Key {
        name: "link",
        need: Need::Needed,
        kind: Kind::AnyText,
    },
    Key {
        name: "parcel",
        need: Need::Needed,
        kind: Kind::Whole { low: 1, high: 100 },
    },
];

/// The keys of a piece of a link's demand.
pub const PIECE_KEYS: [Key; 3] = [
    Key {
        name: "from",
        need: Need::Needed,
        kind: Kind::Whole { low: 0, high: 240 },
    },
    Key {
        name: "until",
        need: Need::Needed,
        kind: Kind::Whole { low: 0, high: 240 },
    },
    Key {
        name: "rate",
        need: Need::Needed,
        kind: Kind::Whole { low: 0, high: 1000 },
    },
];

/// The keys of a signal.
pub const SIGNAL_KEYS: [Key; 3] = [
    Key {
        name: "name",
        need: Need::Needed,
        kind: Kind::Name,
    },
    Key {
        name: "start",
        need: Need::Optional,
        kind: Kind::AnyText,
    },
    Key {
        name: "phase",
        need: Need::Needed,
        kind: Kind::Tables { low: 2, high: 8 },
    },
];

/// The keys of a phase of a signal.
pub const PHASE_KEYS: [Key; 5] = [
    Key {
        name: "name",
        need: Need::Needed,
        kind: Kind::Name,
    },
    Key {
        name: "min",
        need: Need::Needed,
        kind: Kind::Whole { low: 1, high: 60 },
    },
    Key {
        name: "max",
        need: Need::Needed,
        kind: Kind::Whole { low: 1, high: 60 },
    },
    Key {
        name: "clear",
        need: Need::Optional,
        kind: Kind::Whole { low: 0, high: 20 },
    },
    Key {
        name: "next",
        need: Need::Needed,
        kind: Kind::Texts { low: 0, high: 16 },
    },
];
