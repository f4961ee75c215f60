//! The frames of what is there as a watch begins, made as they are written.
ghost use Rattle.std.specs.Prelude.{◌≡◌, ◌++◌, [], IfErr, IfNone, IfOk, IfSome, OnOk, length, nat_lt};
ghost use Rattle.chunked.specs.Bodies.{chunk_text};
ghost use Rattle.spec_http.specs.Replies.{frames_text};
ghost use Rattle.spec_api.specs.Frames.{frame_text};
ghost use Rattle.spec_api.specs.WatchReplies.{closing_lines};
ghost use Rattle.spec_api.specs.declared.frames.FrameKind.TheVariants.{Added};
ghost use Rattle.object_keys.specs.Keys.{key_of};
ghost use Rattle.http_watch.specs.FirstFrames.{first_frames, member_frames, StopsAt};

use crate::begun::Begun;
use http_response::{push_closing, push_objects};
use meta::StoredObject;
use object_keys::Key;
use spec_api::kinds::Kind;
use std::alloc::{AllocError, Global};
use std::marker::Model;
use store::ViewSnapshot;

/// How long a text may be for one frame more to be added to it.
const MOST_AHEAD: usize = 65_536;

/// The frames with which a watch begins, of which some are made already: those of what is there, and of the bookmark that closes it. It
/// has the objects until the last of their frames is made.
pub struct FirstFrames {
    kind: Kind,
    /// The objects whose frames are still to be made.
    objects: ViewSnapshot,
    /// Whether there are any.
    more: bool,
    closing: bool,
    revision: u64,
}

impl Drop for FirstFrames {
    // Called where one is dropped; a derived drop is proved anew at each such place.
    fn drop(self) {
        let FirstFrames {
            kind: _kind,
            objects: _objects,
            more: _more,
            closing: _closing,
            revision: _revision,
        } = self;
    }
}

impl Model for FirstFrames {
    ghost use Rattle.std.specs.Prelude.{◌≡◌, ℕ, List, length, nat_lt};
    ghost use Rattle.http_watch.specs.FirstFrames.{first_frames};

    ghost Value = { List ℕ };

    ghost view = { λ f. first_frames f.kind f.closing f.revision f.objects };

    ghost invariant = { λ f. f.more ≡ nat_lt 0 (length f.objects) };
}

/// Adds the frame of an object.
fn push_object(alloc: Global, text: &mut Vec<u8>, object: &StoredObject) -> Result<(), AllocError>
    ensures { OnOk result (text.new.items
        ≡ text.old.items ++ chunk_text (frame_text (record { kind = Added; object = object.now.value }))) }
{
    push_objects(alloc, text, std::slice::from_ref(object))
}

/// Adds the frames of objects, in their order: the first, and others as long as the text is not too long for one more. Returns the key
/// of the last of them, where others are left.
fn push_some(
    alloc: Global,
    text: &mut Vec<u8>,
    objects: &ViewSnapshot,
) -> Result<Option<Key>, AllocError>
    ensures all { IfOk result (λ last. IfNone last (text.new.items ≡ text.old.items ++ member_frames objects.now)) }
    ensures some { IfOk result (λ last. IfSome last (λ k. StopsAt objects.now text.old.items text.new.items (key_of k))) }
{
    let mut members = objects.members(alloc)?;
    let mut next = members.take_next();
    while let Some(member) = next {
        push_object(alloc, text, member.object)?;
        next = members.take_next();
        if next.is_some() && text.len() >= MOST_AHEAD {
            return Ok(Some(member.key.try_copy()?));
        }
    }
    Ok(None)
}

/// Adds the frame of the bookmark that closes what is there, if it is to come.
fn push_end(
    alloc: Global,
    text: &mut Vec<u8>,
    kind: Kind,
    closing: bool,
    revision: u64,
) -> Result<(), AllocError>
    ensures { OnOk result (text.new.items ≡ text.old.items ++ frames_text kind (closing_lines closing revision)) }
{
    if closing {
        push_closing(alloc, text, kind, revision)?;
    }
    Ok(())
}

impl FirstFrames {
    /// Returns no frames.
    pub(crate) fn none(alloc: Global, kind: Kind) -> FirstFrames
        ensures { result ≡ [] }
    {
        FirstFrames {
            kind,
            objects: ViewSnapshot::none(alloc, kind),
            more: false,
            closing: false,
            revision: 0,
        }
    }

    /// Returns the frames of what is there, and of the bookmark that closes it, if that is to come. The error is running out of memory.
    pub(crate) fn of(
        alloc: Global,
        kind: Kind,
        closing: bool,
        begun: Begun,
    ) -> Result<FirstFrames, AllocError>
        ensures { IfOk result (λ f. f ≡ first_frames kind closing begun.revision begun.objects) }
    {
        let more = !begun.objects.is_empty(alloc)?;
        let revision = begun.revision;
        Ok(FirstFrames {
            kind,
            objects: begun.into_objects(),
            more,
            closing,
            revision,
        })
    }

    /// Returns whether frames are still to be made.
    pub fn has_more(&self) -> bool
        ensures { result ≡ nat_lt 0 (length self.now) }
    {
        self.more || self.closing
    }

    /// Makes the next frames, and adds them to a text: one, and as many as make it up to 64 KiB long, the last of them whole. The error is
    /// running out of memory: then all are still to be made, and some may have been added.
    pub fn push_next(&mut self, alloc: Global, text: &mut Vec<u8>) -> Result<(), AllocError>
        ensures made { OnOk result (text.old.items ++ self.old ≡ text.new.items ++ self.new) }
        ensures kept { IfErr result (λ _. self.new ≡ self.old) }
        ensures some { OnOk result (text.new.items ≡ [] → self.new ≡ []) }
    {
        if let Some(last) = push_some(alloc, text, &self.objects)? {
            self.objects.go_past(last);
            return Ok(());
        }
        push_end(alloc, text, self.kind, self.closing, self.revision)?;
        self.objects = ViewSnapshot::none(alloc, self.kind);
        self.more = false;
        self.closing = false;
        Ok(())
    }
}
