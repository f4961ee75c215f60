//! How much of an answer is taken in.
use http_client::LARGEST_BODY;

/// How many bytes of the body of an answer are taken in at most.
#[derive(Clone, Copy)]
pub struct Limits {
    /// In an answer to a request of one object, or in one that refuses a watch.
    pub object: u32,
    /// In a list.
    pub list: u32,
}

impl Limits {
    /// The limits for who has no other wish. An object has about 1 MiB at most, as the body of a request has. A list is of all objects of a
    /// kind at once: 1 GiB is 262,144 objects, as many as a store holds, of 4 KiB each.
    pub const USUAL: Limits = Limits {
        object: LARGEST_BODY,
        list: 1_073_741_824,
    };
}
