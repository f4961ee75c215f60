//! What the program is asked.
use spec_api::kinds::Kind;

/// What the words after the program's name ask.
#[derive(Drop)]
pub struct Arguments<'a> {
    /// The server's host and port, with a colon between them.
    pub server: &'a str,
    pub kind: Kind,
    /// The namespace that is followed, if not all are.
    pub namespace: Option<&'a str>,
    /// The text of a selector of labels.
    pub selector: Option<&'a str>,
    /// The revision at which the program ends, if it does.
    pub until: Option<u64>,
}

/// Returns the kind of this name, or of this plural name in paths.
fn kind_named(name: &str) -> Option<Kind> {
    Kind::ALL
        .iter()
        .find(|kind| name == kind.name() || name == kind.plural())
        .copied()
}

impl<'a> Arguments<'a> {
    /// Takes in an option, unless it is none.
    fn take(&mut self, name: &str, value: &'a str) -> Option<()> {
        match name {
            "--namespace" => self.namespace = Some(value),
            "--selector" => self.selector = Some(value),
            "--until" => self.until = Some(value.parse::<u64>().ok()?),
            _ => return None,
        }
        Some(())
    }

    /// Returns what the words ask; none where they are bad arguments.
    pub fn parse(words: &'a [String]) -> Option<Arguments<'a>> {
        let [option, server, kind, options @ ..] = words else {
            return None;
        };
        if option.as_str() != "--server" {
            return None;
        }
        let mut asked = Arguments {
            server: server.as_str(),
            kind: kind_named(kind.as_str())?,
            namespace: None,
            selector: None,
            until: None,
        };
        let mut rest = options;
        while let [name, value, more @ ..] = rest {
            asked.take(name.as_str(), value.as_str())?;
            rest = more;
        }
        if rest.is_empty() { Some(asked) } else { None }
    }
}
