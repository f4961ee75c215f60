//! How far revisions go.

/// The greatest revision: the greatest whole number that every JSON reader represents exactly (RFC 8259, Numbers).
pub const GREATEST_REVISION: u64 = 9007199254740991;
