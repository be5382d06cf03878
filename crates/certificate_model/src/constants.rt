//! The limits of certificates (docs/LIMITS.md). Code and definitions name them from here.

/// The most bytes of the text of a certificate: one of a search of many million numbers has room.
pub const MAX_CERTIFICATE_BYTES: u64 = 134_217_728;

/// The greatest absolute value of a price, 2^40: sums of prices times the numbers of a program stay far below 128 bits.
pub const MAX_PRICE: u64 = 1_099_511_627_776;

/// How many parts of prices and values are one unit of delay.
pub const SCALE: u32 = 1024;
