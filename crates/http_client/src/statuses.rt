//! The status codes of replies that who asks a server tells apart (RFC 9110, Status Codes).

/// What was asked for is there, was done, or comes as a watch (RFC 9110, 200 OK): the first of those that say so.
pub const OK: u16 = 200;

/// The first above those that say that what was asked was done (RFC 9110, Redirection 3xx).
pub const FIRST_REDIRECTION: u16 = 300;

/// The request cannot be read (RFC 9110, 400 Bad Request).
pub const BAD_REQUEST: u16 = 400;

/// There is no such object, or no such path (RFC 9110, 404 Not Found).
pub const NOT_FOUND: u16 = 404;

/// A write does not fit what is there (RFC 9110, 409 Conflict).
pub const CONFLICT: u16 = 409;

/// What is asked for is no longer known (RFC 9110, 410 Gone; Kubernetes API Concepts, 410 Gone responses).
pub const GONE: u16 = 410;

/// The request was read, and what it says is not valid (RFC 9110, 422 Unprocessable Content).
pub const UNPROCESSABLE_CONTENT: u16 = 422;

/// The server asks for patience (RFC 6585, 429 Too Many Requests).
pub const TOO_MANY_REQUESTS: u16 = 429;

/// The first of those by which a server says that it has failed (RFC 9110, Server Error 5xx).
pub const FIRST_SERVER_ERROR: u16 = 500;

/// The server has failed (RFC 9110, 500 Internal Server Error).
pub const INTERNAL_SERVER_ERROR: u16 = 500;

/// The server cannot do what is asked (RFC 9110, 501 Not Implemented).
pub const NOT_IMPLEMENTED: u16 = 501;

/// A gateway got no reply that it could pass on (RFC 9110, 502 Bad Gateway).
pub const BAD_GATEWAY: u16 = 502;

/// The server has no memory for the request, which then changed nothing (RFC 9110, 503 Service Unavailable).
pub const SERVICE_UNAVAILABLE: u16 = 503;

/// A gateway got no reply in time, or an API server's own time for the request was over (RFC 9110, 504 Gateway Timeout); of a read, the revision that
/// is asked for has not come yet (Kubernetes API Concepts, Resource versions).
pub const GATEWAY_TIMEOUT: u16 = 504;
