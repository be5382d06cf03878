//! What becomes of a certificate: its bound is accepted, or its first line that breaks is named.

/// Why a line breaks a certificate.
#[derive(Clone, Copy, Debug, PartialEq, Eq)]
pub enum Why {
    /// The line is of no form, lacks its line feed, is missing, or comes where another has to be.
    Form,
    /// Bytes stand behind the line `end`.
    Tail,
    /// The column of a split does not exist.
    Column,
    /// The bounds of a split's column do not leave both sides something.
    Range,
    /// The row of a pair does not exist.
    Row,
    /// The row of a pair is not above that of the pair before.
    Order,
    /// A price is too great.
    Price,
    /// A price is below 0 on a row that need not be equal.
    Sign,
    /// A leaf gives this number, which is below the bound.
    Weak(i128),
    /// The pairs of an empty leaf have this value without costs, in 1024ths, which is below 1.
    NotEmpty(i128),
    /// The box of a fixed leaf leaves a plan column more than one number.
    NotFixed,
    /// The box of a fixed leaf leaves bits that are no admissible plan's.
    NotPlan,
}

/// What becomes of a certificate.
#[derive(Clone, Copy, Debug, PartialEq, Eq)]
pub enum Verdict {
    /// It shows this bound.
    Accepted(i64),
    /// It breaks at a line, counted from 1.
    Rejected {
        /// The first line that breaks.
        line: u64,
        /// The first reason why.
        why: Why,
    },
}
