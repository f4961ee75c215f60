//! What a watch sends: the kinds of events and of frames.

/// What a write did to an object, as a view sees it: the kind of an event.
#[derive(Clone, Copy)]
pub enum ChangeKind {
    /// The object came into the view.
    Added,
    /// The object stayed in the view.
    Modified,
    /// The object left the view, or was removed.
    Deleted,
}

/// The type of a frame (Kubernetes API Concepts, Efficient detection of changes).
#[derive(Clone, Copy)]
pub enum FrameKind {
    /// An object came into the view.
    Added,
    /// An object in the view was written.
    Modified,
    /// An object left the view, or was removed.
    Deleted,
    /// How far the watch has come.
    Bookmark,
    /// Why the watch ends.
    Error,
}

impl ChangeKind {
    ghost use Rattle.std.specs.Prelude.{◌≡◌};
    ghost use Rattle.spec_api.specs.Frames.{frame_kind};

    /// Returns the type of the event's frame.
    pub fn frame_kind(self) -> FrameKind
        ensures { result ≡ frame_kind self }
    {
        match self {
            ChangeKind::Added => FrameKind::Added,
            ChangeKind::Modified => FrameKind::Modified,
            ChangeKind::Deleted => FrameKind::Deleted,
        }
    }
}

impl FrameKind {
    ghost use Rattle.std.specs.Prelude.{◌≡◌};
    ghost use Rattle.spec_api.specs.Frames.{kind_text, frame_kind_named};

    /// Returns the member `type` of a frame of the kind.
    pub fn text(self) -> &'static str
        ensures { result.now ≡ kind_text self }
    {
        match self {
            FrameKind::Added => "ADDED",
            FrameKind::Modified => "MODIFIED",
            FrameKind::Deleted => "DELETED",
            FrameKind::Bookmark => "BOOKMARK",
            FrameKind::Error => "ERROR",
        }
    }

    /// Returns the kind that a member `type` names.
    pub fn named(text: &str) -> Option<FrameKind>
        ensures { result ≡ frame_kind_named text.now }
    {
        if text == "ADDED" {
            Some(FrameKind::Added)
        } else if text == "MODIFIED" {
            Some(FrameKind::Modified)
        } else if text == "DELETED" {
            Some(FrameKind::Deleted)
        } else if text == "BOOKMARK" {
            Some(FrameKind::Bookmark)
        } else if text == "ERROR" {
            Some(FrameKind::Error)
        } else {
            None
        }
    }
}
