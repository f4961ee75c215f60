//! Which keys can be told.
ghost use Rattle.request_encoding.specs.Laws.{StoredKeysAreAddresses};

/// A path can name each object whose namespace is a DNS label of at most 63 bytes, and whose name is a DNS subdomain, as those of stored
/// objects are.
pub fn stored_keys_are_addresses()
    ensures { StoredKeysAreAddresses }
{}
