//! The fields of a head.
ghost use Rattle.std.specs.Prelude.{◌≡◌, ◌∷◌, [], ℕ, List, MatchOption, map, length, nat_lt, codes};
ghost use Rattle.std.specs.Str.{str_eq_ignore_ascii_case};
ghost use Rattle.spec_http.specs.Heads.{values_of};
ghost use Rattle.http_request_head.specs.Fields.{field_seen};

/// A field: a name, and a value without the white space around it (RFC 9112, Field Syntax).
#[derive(Clone, Copy)]
pub struct HeaderField<'a> {
    pub name: &'a [u8],
    pub value: &'a [u8],
}

/// Returns whether a field has a name; case does not count (RFC 9110, Field Names).
fn has_name(field: HeaderField<'_>, name: &[u8]) -> bool
    ensures { result ≡ str_eq_ignore_ascii_case field.entry.name.now name.now }
{
    field.name.eq_ignore_ascii_case(name)
}

/// Returns the value of the first field of a name.
pub fn first_value<'a>(fields: &[HeaderField<'a>], name: &[u8]) -> Option<&'a [u8]>
    ensures { MatchOption result (values_of name.now (map field_seen fields.now) ≡ [])
        (λ v. (rest : List (List ℕ)) × (values_of name.now (map field_seen fields.now) ≡ v.now ∷ rest)) }
{
    for field in fields {
        if has_name(*field, name) {
            return Some(field.value);
        }
    }
    None
}

/// Returns how many fields have a name.
pub fn count(fields: &[HeaderField<'_>], name: &[u8]) -> usize
    ensures { result ≡ length (values_of name.now (map field_seen fields.now)) }
{
    let mut count = 0;
    for field in fields {
        if has_name(*field, name) {
            count += 1;
        }
    }
    count
}

/// Returns whether the fields of a head name a transfer coding (RFC 9112, Transfer-Encoding).
pub fn has_transfer_coding(fields: &[HeaderField<'_>]) -> bool
    ensures { result ≡ nat_lt 0 (length (values_of (codes "transfer-encoding") (map field_seen fields.now))) }
{
    count(fields, b"transfer-encoding") > 0
}
