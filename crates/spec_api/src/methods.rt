//! Methods of requests.

/// A method that the API uses (Kubernetes API Concepts, API verbs).
#[derive(Clone, Copy)]
pub enum Method {
    Get,
    Post,
    Put,
    Patch,
    Delete,
}
