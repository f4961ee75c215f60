//! Which revision a text names.
ghost use Rattle.std.specs.Prelude.{◌≡◌};
ghost use Rattle.std.specs.List.{list_all};
ghost use Rattle.spec_api.specs.Moments.{is_digit};
ghost use Rattle.spec_api.specs.Revisions.{revision_of};

/// Revisions are below this, so that a float of 64 bits represents each of them exactly.
const LIMIT: u64 = 1 << 53;

/// Returns whether each byte of the text is a decimal digit.
fn has_digits(text: &str) -> bool
    ensures { result ≡ list_all is_digit text.now }
{
    text.bytes().all(|byte| b'0' <= byte && byte <= b'9')
}

/// Returns the revision that a text names: `0`, or digits without a leading zero, below 2^53.
pub fn read_revision(text: &str) -> Option<u64>
    ensures { result ≡ revision_of text.now }
{
    let bytes = text.as_bytes();
    if bytes.is_empty() || !has_digits(text) {
        return None;
    }
    if bytes.len() != 1 && bytes[0] == b'0' {
        return None;
    }
    match text.parse::<u64>() {
        Ok(revision) => {
            if revision < LIMIT {
                Some(revision)
            } else {
                None
            }
        }
        Err(_) => None,
    }
}
