//! The options, and the numbers that they take.
ghost use Rattle.std.specs.Prelude.{◌≡◌, option_map, if◌then◌else◌};
ghost use Rattle.std.specs.List.{list_all};
ghost use Rattle.std.specs.Char.{is_ascii_digit};
ghost use Rattle.std.specs.Str.Parse.{digits_value};
ghost use Rattle.kcp_options.specs.Options.{after_prefix, is_number};

/// The most digits of a number.
const MOST_DIGITS: usize = 9;

/// How many threads serve at most.
pub const MOST_THREADS: usize = 128;

/// How many workers there are at most.
pub const MOST_WORKERS: usize = 64;

/// An option that takes a number.
#[derive(Clone, Copy)]
pub enum Setting {
    /// The port to listen on; with 0 the system takes a free one.
    Port,
    /// How many changes of each kind are recorded.
    Window,
    /// How many threads serve.
    Threads,
    /// After how many connections the program ends.
    Requests,
    /// The server that is asked: the loopback address, and a port of it.
    Server,
    /// How many workers there are.
    Workers,
    /// After how many turns of workers the program ends.
    Turns,
}

/// What an option is called, what stands before its number, and the least and the greatest number that it takes.
#[derive(Clone, Copy)]
struct Row {
    name: &'static str,
    before: &'static str,
    least: u64,
    greatest: u64,
}

/// Returns whether each byte of the text is a decimal digit.
fn has_digits(text: &str) -> bool
    ensures { result ≡ list_all is_ascii_digit text.now }
{
    text.bytes().all(|byte| byte.is_ascii_digit())
}

/// Returns whether the text is one to nine decimal digits.
fn is_number(text: &str) -> bool
    ensures { result ≡ is_number text.now }
{
    if text.is_empty() || text.len() > MOST_DIGITS {
        return false;
    }
    has_digits(text)
}

/// Returns the number that one to nine digits spell.
fn number(text: &str) -> Option<u64>
    ensures { result ≡ (if is_number text.now then Some (digits_value 10 text.now) else None) }
{
    if !is_number(text) {
        return None;
    }
    match text.parse::<u64>() {
        Ok(number) => Some(number),
        Err(_) => None,
    }
}

/// Returns what follows the beginning of a text, if the text begins so.
fn after_prefix<'a>(beginning: &str, text: &'a str) -> Option<&'a str>
    ensures { option_map (λ rest. rest.now) result ≡ after_prefix beginning.now text.now }
{
    text.strip_prefix(beginning)
}

impl Setting {
    ghost use Rattle.std.specs.Prelude.{◌≡◌, ◌≤◌, IfSome};
    ghost use Rattle.kcp_options.specs.Options.{row, taken};

    /// Returns the row of the table that is the option's.
    fn row(self) -> Row
        ensures name { result.name.now ≡ (row self).name }
        ensures before { result.before.now ≡ (row self).before }
        ensures least { result.least ≡ (row self).least }
        ensures greatest { result.greatest ≡ (row self).greatest }
    {
        let (name, before, least, greatest) = match self {
            Setting::Port => ("--port", "", 0, 65_535),
            Setting::Window => ("--window", "", 1, 65_536),
            Setting::Threads => ("--threads", "", 1, MOST_THREADS as u64),
            Setting::Requests => ("--requests", "", 1, 999_999_999),
            Setting::Server => ("--server", "127.0.0.1:", 1, 65_535),
            Setting::Workers => ("--workers", "", 1, MOST_WORKERS as u64),
            Setting::Turns => ("--turns", "", 1, 999_999_999),
        };
        Row {
            name,
            before,
            least,
            greatest,
        }
    }

    /// Returns what the option is called.
    pub fn name(self) -> &'static str
        ensures { result.now ≡ (row self).name }
    {
        self.row().name
    }

    /// Returns the number that the option takes from a text, if it takes one.
    pub fn take(self, text: &str) -> Option<u64>
        ensures value { result ≡ taken self text.now }
        ensures greatest { IfSome result (λ number. number ≤ (row self).greatest) }
    {
        let row = self.row();
        let number = number(after_prefix(row.before, text)?)?;
        if row.least <= number && number <= row.greatest {
            Some(number)
        } else {
            None
        }
    }
}
