//! What holds where an option is not given.

/// The port to listen on.
pub const DEFAULT_PORT: u16 = 8080;

/// How many changes of each kind are recorded.
pub const DEFAULT_WINDOW: usize = 1024;

/// How many threads serve.
pub const DEFAULT_THREADS: usize = 16;

/// How many workers there are.
pub const DEFAULT_WORKERS: usize = 4;
