//! At which revision a list is asked, how a revision is to be matched, and how a watch begins.

/// At which revision a list is asked (Kubernetes API Concepts, Resource versions).
#[derive(Clone, Copy)]
pub enum At {
    /// The present one.
    Present,
    /// The present one, which may not be older than this one.
    NotOlder(u64),
    /// This one.
    Exact(u64),
}

/// How the revision that a list names is to be matched (Kubernetes API Concepts, the resourceVersionMatch parameter).
#[derive(Clone, Copy)]
pub enum Match {
    /// No match is named.
    Unset,
    NotOlderThan,
    Exact,
}

/// How a watch begins (Kubernetes API Concepts, Semantics for watch; Streaming lists).
#[derive(Clone, Copy)]
pub enum Start {
    /// After this revision.
    After(u64),
    /// With what is there.
    Listed,
    /// With what is there, not older than the revision, if one is named, and then, if bookmarks are asked for, the one that closes it.
    Streamed(Option<u64>),
    /// After the present revision.
    Present,
}

impl Match {
    ghost use Rattle.std.specs.Prelude.{◌≡◌, option_map};
    ghost use Rattle.spec_api.specs.ListQueries.{match_of};

    /// Returns the match that a parameter names, or `Unset` where there is none; nothing, if it is no name of a match.
    pub fn read(name: Option<&str>) -> Option<Match>
        ensures { result ≡ match_of (option_map (λ t. t.now) name.entry) }
    {
        match name {
            None => Some(Match::Unset),
            Some("NotOlderThan") => Some(Match::NotOlderThan),
            Some("Exact") => Some(Match::Exact),
            Some(_) => None,
        }
    }
}
