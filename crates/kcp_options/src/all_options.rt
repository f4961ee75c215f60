//! What `kcp all` is asked.
ghost use Rattle.std.specs.Prelude.{◌≡◌, map, string_bytes};

use crate::defaults::{DEFAULT_PORT, DEFAULT_THREADS, DEFAULT_WINDOW, DEFAULT_WORKERS};
use crate::setting::Setting;
use crate::words::said_or;

/// What `kcp all` is asked.
#[derive(Clone, Copy)]
pub struct AllOptions {
    /// The port to listen on; with 0 the system takes a free one.
    pub port: u16,
    /// How many changes of each kind are recorded.
    pub window: usize,
    /// How many threads serve.
    pub threads: usize,
    /// How many workers there are.
    pub workers: usize,
}

impl Default for AllOptions {
    ghost use Rattle.std.specs.Prelude.{◌≡◌};
    ghost use Rattle.kcp_options.specs.Options.{all_defaults};

    /// Returns the options of `kcp all` where none is given.
    fn default() -> AllOptions
        ensures { result ≡ all_defaults }
    {
        AllOptions {
            port: DEFAULT_PORT,
            window: DEFAULT_WINDOW,
            threads: DEFAULT_THREADS,
            workers: DEFAULT_WORKERS,
        }
    }
}

impl AllOptions {
    ghost use Rattle.std.specs.Prelude.{◌≡◌, map, string_bytes};
    ghost use Rattle.kcp_options.specs.Options.{all_options};

    /// Returns the options that the words give.
    pub(crate) fn of_words(words: &[String]) -> AllOptions
        ensures { result ≡ all_options (map string_bytes words.now) }
    {
        AllOptions {
            port: said_or(Setting::Port, u64::from(DEFAULT_PORT), words) as u16,
            window: said_or(Setting::Window, DEFAULT_WINDOW as u64, words) as usize,
            threads: said_or(Setting::Threads, DEFAULT_THREADS as u64, words) as usize,
            workers: said_or(Setting::Workers, DEFAULT_WORKERS as u64, words) as usize,
        }
    }
}
