//! Requests as they are written.
ghost use Rattle.std.specs.Prelude.{◌≡◌};
ghost use Rattle.http_client.specs.Calls.{text_of};
ghost use Rattle.api_client.specs.Outgoing.{method_text, media_type, written};

use http_client::Outgoing;
use request_encoding::RequestText;
use spec_api::methods::Method;

/// Returns the name of a method.
pub fn method_text(method: Method) -> &'static str
    ensures { result.now ≡ method_text method }
{
    match method {
        Method::Get => "GET",
        Method::Post => "POST",
        Method::Put => "PUT",
        Method::Patch => "PATCH",
        Method::Delete => "DELETE",
    }
}

/// Returns the media type of the bodies of a method.
pub fn media_type(method: Method) -> &'static str
    ensures { result.now ≡ media_type method }
{
    match method {
        Method::Patch => "application/merge-patch+json",
        Method::Get | Method::Post | Method::Put | Method::Delete => "application/json",
    }
}

/// Returns a request of one object as it is written. No host is named but the machine itself: who connects knows where to.
pub fn outgoing(text: &RequestText) -> Outgoing<'_>
    ensures { text_of result ≡ written text.now }
{
    Outgoing {
        method: method_text(text.method),
        target: text.target.as_str(),
        host: "localhost",
        media_type: media_type(text.method),
        body: text.body.as_bytes(),
    }
}
