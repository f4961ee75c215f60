//! How many lines of a head there are.
ghost use Rattle.std.specs.Prelude.{◌≡◌, false};
ghost use Rattle.http_request_head.specs.FieldLines.{line_ends};

/// Returns how many lines end in these bytes; the empty lines before a request line do not count (RFC 9112, Message Parsing).
pub(crate) fn line_ends(bytes: &[u8]) -> usize
    ensures { result ≡ line_ends false bytes.now }
{
    let mut ends = 0;
    let mut begun = false;
    for byte in bytes {
        if *byte == b'\n' {
            if begun {
                ends += 1;
            }
        } else if *byte != b'\r' {
            begun = true;
        }
    }
    ends
}
