//! What a request is asked by.
use spec_api::methods::Method;

/// The method, the target and the body by which a request is asked over HTTP.
pub struct RequestText {
    pub method: Method,
    pub target: String,
    /// JSON, or nothing.
    pub body: String,
}

impl Drop for RequestText {
    // Called where one is dropped; a derived drop is proved anew at each such place.
    fn drop(self) {
        let RequestText {
            method: _method,
            target: _target,
            body: _body,
        } = self;
    }
}
