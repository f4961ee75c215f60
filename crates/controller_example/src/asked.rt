//! What the program is asked.

/// How the program is used, as it says itself.
pub const USAGE: &str = "usage: controller_example --server HOST:PORT --selector TEXT [--end WHEN]

  --server HOST:PORT  where the server listens
  --selector TEXT     which Pods are looked after, as app=web,tier!=cache
  --end WHEN          when it ends: input, as its input ends (the default); never; or a number of seconds, at most 999999999
";

/// The most digits of a number of seconds.
const MOST_DIGITS: usize = 9;

/// When the program ends.
#[derive(Clone, Copy)]
pub enum End {
    /// As its input ends.
    OfInput,
    /// After so many seconds.
    After(u64),
    /// Not by itself.
    Never,
}

/// What the words after the program's name ask.
#[derive(Clone, Copy)]
pub struct Arguments<'a> {
    /// The server's host and port, with a colon between them.
    pub server: &'a str,
    /// The text of a selector of labels.
    pub selector: &'a str,
    pub end: End,
}

/// Returns when a word says that the program ends.
fn end_of(word: &str) -> Option<End> {
    match word {
        "input" => Some(End::OfInput),
        "never" => Some(End::Never),
        _ if word.len() <= MOST_DIGITS => Some(End::After(word.parse::<u64>().ok()?)),
        _ => None,
    }
}

/// What was said so far.
#[derive(Clone, Copy)]
struct Said<'a> {
    server: Option<&'a str>,
    selector: Option<&'a str>,
    end: Option<End>,
}

impl<'a> Said<'a> {
    /// Takes in an option and its value. The error is the one of the two that is not understood: an option that is none or comes again, or its value.
    fn take(&mut self, name: &'a str, value: &'a str) -> Result<(), &'a str> {
        match name {
            "--server" if self.server.is_none() => self.server = Some(value),
            "--selector" if self.selector.is_none() => self.selector = Some(value),
            "--end" if self.end.is_none() => self.end = Some(end_of(value).ok_or(value)?),
            _ => return Err(name),
        }
        Ok(())
    }
}

impl<'a> Arguments<'a> {
    /// Returns what the words ask. The error is the first that is not understood, and none where something is missing alone.
    pub fn parse(words: &'a [String]) -> Result<Arguments<'a>, Option<&'a str>> {
        let mut said = Said {
            server: None,
            selector: None,
            end: None,
        };
        let mut rest = words;
        while let [name, value, more @ ..] = rest {
            said.take(name.as_str(), value.as_str()).map_err(Some)?;
            rest = more;
        }
        if let [name, ..] = rest {
            return Err(Some(name.as_str()));
        }
        match (said.server, said.selector) {
            (Some(server), Some(selector)) => Ok(Arguments {
                server,
                selector,
                end: said.end.unwrap_or(End::OfInput),
            }),
            _ => Err(None),
        }
    }
}
