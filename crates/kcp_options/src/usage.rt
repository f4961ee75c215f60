//! How the program is used, as it says itself.
ghost use Rattle.std.specs.Prelude.{◌≡◌, map, string_bytes};
ghost use Rattle.kcp_options.specs.Usages.{usage_asked, usage_of_command};

/// What a usage text is about.
#[derive(Clone, Copy)]
pub enum Usage {
    /// The program, with its commands.
    Program,
    /// `kcp replay`.
    Replay,
    /// `kcp simulate`.
    Simulate,
    /// `kcp serve`, with its options.
    Serve,
    /// `kcp control`, with its options.
    Control,
    /// `kcp all`, with its options.
    All,
}

impl Usage {
    /// Returns what a text is about that says how a command is used, if there is a command of that name.
    pub(crate) fn of_command(name: &str) -> Option<Usage>
        ensures { result ≡ usage_of_command name.now }
    {
        match name {
            "replay" => Some(Usage::Replay),
            "simulate" => Some(Usage::Simulate),
            "serve" => Some(Usage::Serve),
            "control" => Some(Usage::Control),
            "all" => Some(Usage::All),
            _ => None,
        }
    }

    /// Returns what the words after the program's name ask to be told of: no word, `help` or `--help` of the program, and a command's name
    /// with `--help` after it of the command.
    pub fn asked(words: &[String]) -> Option<Usage>
        ensures { result ≡ usage_asked (map string_bytes words.now) }
    {
        match words {
            [] => Some(Usage::Program),
            [word] if word.as_str() == "help" || word.as_str() == "--help" => Some(Usage::Program),
            [name, word] if word.as_str() == "--help" => Usage::of_command(name.as_str()),
            _ => None,
        }
    }

    /// Returns the text: some lines, each with its line feed.
    pub fn text(self) -> &'static str {
        match self {
            Usage::Program => PROGRAM,
            Usage::Replay => REPLAY,
            Usage::Simulate => SIMULATE,
            Usage::Serve => SERVE,
            Usage::Control => CONTROL,
            Usage::All => ALL,
        }
    }
}

const PROGRAM: &str = "usage: kcp COMMAND [OPTION VALUE]..

  replay    answers the request lines of standard input, from the empty store on
  simulate  takes the steps of a simulated control plane that the lines of standard input ask for
  serve     answers requests over HTTP/1.1 on the loopback address
  control   runs the controllers at a server on the loopback address
  all       serves with the controllers at work, and answers the request lines of standard input

kcp COMMAND --help says the options of a command.
";

const REPLAY: &str = "usage: kcp replay < LINES
";

const SIMULATE: &str = "usage: kcp simulate < LINES
";

const SERVE: &str = "usage: kcp serve [OPTION VALUE]..

  --port P      the port to listen on, at most 65535; 0 takes a free one (8080)
  --window W    how many changes of each kind are recorded, 1 to 65536 (1024)
  --threads N   how many threads answer requests, 1 to 128 (16)
  --requests M  ends after M connections
";

const CONTROL: &str = "usage: kcp control --server 127.0.0.1:P [OPTION VALUE]..

  --server 127.0.0.1:P  where the server listens
  --workers N           how many keys are worked on at a time, 1 to 64 (4)
  --turns M             ends after M turns of workers
";

const ALL: &str = "usage: kcp all [OPTION VALUE].. < LINES

  --port P     the port to listen on, at most 65535; 0 takes a free one (8080)
  --window W   how many changes of each kind are recorded, 1 to 65536 (1024)
  --threads N  how many threads answer requests, 1 to 128 (16)
  --workers N  how many keys are worked on at a time, 1 to 64 (4)
";
