//! What `kcp serve` is asked.
ghost use Rattle.std.specs.Prelude.{◌≡◌, map, string_bytes};

use crate::defaults::{DEFAULT_PORT, DEFAULT_THREADS, DEFAULT_WINDOW};
use crate::setting::Setting;
use crate::words::{said, said_or};

/// What `kcp serve` is asked.
#[derive(Clone, Copy)]
pub struct ServeOptions {
    /// The port to listen on; with 0 the system takes a free one.
    pub port: u16,
    /// How many changes of each kind are recorded.
    pub window: usize,
    /// How many threads serve.
    pub threads: usize,
    /// After how many connections the program ends, if it does.
    pub requests: Option<u64>,
}

impl Default for ServeOptions {
    ghost use Rattle.std.specs.Prelude.{◌≡◌};
    ghost use Rattle.kcp_options.specs.Options.{serve_defaults};

    /// Returns the options of `kcp serve` where none is given.
    fn default() -> ServeOptions
        ensures { result ≡ serve_defaults }
    {
        ServeOptions {
            port: DEFAULT_PORT,
            window: DEFAULT_WINDOW,
            threads: DEFAULT_THREADS,
            requests: None,
        }
    }
}

impl ServeOptions {
    ghost use Rattle.std.specs.Prelude.{◌≡◌, map, string_bytes};
    ghost use Rattle.kcp_options.specs.Options.{serve_options};

    /// Returns the options that the words give.
    pub(crate) fn of_words(words: &[String]) -> ServeOptions
        ensures { result ≡ serve_options (map string_bytes words.now) }
    {
        ServeOptions {
            port: said_or(Setting::Port, u64::from(DEFAULT_PORT), words) as u16,
            window: said_or(Setting::Window, DEFAULT_WINDOW as u64, words) as usize,
            threads: said_or(Setting::Threads, DEFAULT_THREADS as u64, words) as usize,
            requests: said(Setting::Requests, words),
        }
    }
}
