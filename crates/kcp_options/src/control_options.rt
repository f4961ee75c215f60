//! What `kcp control` is asked.
ghost use Rattle.std.specs.Prelude.{◌≡◌, map, string_bytes};

use crate::defaults::DEFAULT_WORKERS;
use crate::setting::Setting;
use crate::words::{said, said_or};

/// What `kcp control` is asked.
#[derive(Clone, Copy)]
pub struct ControlOptions {
    /// The port of the loopback address where the server listens.
    pub port: u16,
    /// How many workers there are.
    pub workers: usize,
    /// After how many turns of workers the program ends, if it does.
    pub turns: Option<u64>,
}

impl ControlOptions {
    ghost use Rattle.std.specs.Prelude.{◌≡◌, map, string_bytes};
    ghost use Rattle.kcp_options.specs.Options.{control_options};

    /// Returns the options that the words give; none where they name no server.
    pub(crate) fn of_words(words: &[String]) -> Option<ControlOptions>
        ensures { result ≡ control_options (map string_bytes words.now) }
    {
        let port = said(Setting::Server, words)?;
        Some(ControlOptions {
            port: port as u16,
            workers: said_or(Setting::Workers, DEFAULT_WORKERS as u64, words) as usize,
            turns: said(Setting::Turns, words),
        })
    }
}
