//! Methods by their names.
ghost use Rattle.std.specs.Prelude.{◌≡◌};
ghost use Rattle.spec_http.specs.Heads.{method_named};

use spec_api::methods::Method;

/// Returns the method of a name, if it is one that is served; case counts (RFC 9110, Methods).
pub fn method_named(name: &[u8]) -> Option<Method>
    ensures { result ≡ method_named name.now }
{
    if name == b"GET".as_slice() {
        Some(Method::Get)
    } else if name == b"POST".as_slice() {
        Some(Method::Post)
    } else if name == b"PUT".as_slice() {
        Some(Method::Put)
    } else if name == b"PATCH".as_slice() {
        Some(Method::Patch)
    } else if name == b"DELETE".as_slice() {
        Some(Method::Delete)
    } else {
        None
    }
}
