//! Uids that this server prints.
ghost use Rattle.std.specs.Prelude.{◌≡◌, ◌<◌, ◌^◌, ◌&&◌, nat_lt, if◌then◌else◌, Some, None};
ghost use Rattle.std.specs.Str.{bytes_eq};
ghost use Rattle.spec_api.specs.Checks.{is_of_the_future};
ghost use Rattle.spec_api.specs.Uids.{uid_text, uid_revision, cluster_word};

use uuid::Uuid;

/// The cluster's word 0, the version 8 and twelve bits 0.
const VERSION: u64 = 0x8000;

/// The variant 10, above the 62 bits of the revision.
const VARIANT: u64 = 0x8000_0000_0000_0000;

/// One more than the greatest number of 62 bits.
const LIMIT: u64 = 0x4000_0000_0000_0000;

/// Returns whether a text is the uid that this server prints at a revision.
fn is_uid_at(text: &str, revision: u64) -> bool
    requires { revision < 2 ^ 62 }
    ensures { result ≡ bytes_eq text.now (uid_text cluster_word revision) }
{
    let uid = Uuid::from_u64_pair(VERSION, VARIANT + revision);
    let mut buffer = Uuid::encode_buffer();
    let printed = uid.hyphenated().encode_lower(&mut buffer);
    text == printed
}

/// Returns the revision at which this server prints this uid, if it does.
fn revision_of(text: &str) -> Option<u64>
    ensures { result ≡ (if bytes_eq text.now (uid_text cluster_word (uid_revision text.now)) && nat_lt (uid_revision text.now) (2 ^ 62)
        then Some (uid_revision text.now) else None) }
{
    match Uuid::parse_str(text) {
        Ok(uid) => {
            let revision = uid.as_u64_pair().1 % LIMIT;
            if is_uid_at(text, revision) {
                Some(revision)
            } else {
                None
            }
        }
        Err(_) => None,
    }
}

/// Returns whether a text is the uid of an object that this server creates after the present revision. No memory is taken.
pub(crate) fn is_of_the_future(text: &str, present: u64) -> bool
    ensures { result ≡ is_of_the_future present text.now }
{
    match revision_of(text) {
        Some(revision) => present < revision,
        None => false,
    }
}
