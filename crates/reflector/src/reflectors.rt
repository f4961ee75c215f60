//! What is taken in of the lists and watches of one kind, the deltas that it gives, and what is to be asked next.

use crate::deltas::{Delta, Fed};
use crate::faults::ListFault;
use crate::initials::Initial;
use crate::lists::{Listed, read_list};
use crate::openings::Place;
use crate::pieces::{first_phase, take_in};
use framing::Want;
use framing::lines::keep_last;
use meta::Kind;
use spec_client_go::reflectors::{Ask, Phase};
use std::alloc::{AllocError, Global};
use std::marker::Model;

/// What is known of the objects of one kind, of all or of those that the server is asked for: the revision up to which lists and
/// watches were taken in, the bytes of a frame that is not whole yet, and the initial events of a stream that are not closed yet. The
/// objects are with whoever applies the deltas.
pub struct Reflector {
    kind: Kind,
    revision: u64,
    phase: Phase,
    buffered: Vec<u8>,
    is_streaming: bool,
    initial: Initial,
}

impl Drop for Reflector {
    // Called where one is dropped; a derived drop is proved anew at each such place.
    fn drop(self) {
        let Reflector {
            kind: _kind,
            revision: _revision,
            phase: _phase,
            buffered: _buffered,
            is_streaming: _is_streaming,
            initial: _initial,
        } = self;
    }
}

impl Model for Reflector {
    ghost use Rattle.std.specs.Prelude.{◌<◌, length};
    ghost use Rattle.framing.specs.Lines.{IsPartial};
    ghost use Rattle.spec_client_go.specs.ReadFrames.{longest_frame};
    ghost use Rattle.spec_client_go.specs.Reflectors as reflectors;
    ghost use Rattle.spec_client_go.specs.Codes.{coded_reflector};

    ghost Value = { reflectors.Reflector };

    ghost coded = { coded_reflector };

    ghost view = { λ s. record { kind = s.kind; revision = s.revision; phase = s.phase; buffered = s.buffered.items; is_streaming = s.is_streaming; initial = s.initial } };

    ghost invariant = { λ s. IsPartial s.buffered.items × (length s.buffered.items < longest_frame) };
}

impl Reflector {
    ghost use Rattle.std.specs.Prelude.{◌≡◌, ◌≢◌, ◌<◌, length, Some, IfOk, IfErr, OnOk, OnErr, IsSome, option_map};
    ghost use Rattle.spec_client_go.specs.ReadFrames.{longest_frame};
    ghost use Rattle.spec_client_go.specs.Reflectors.{list_of, list_delta, begun, begun_streaming, begun_by, asks, with_list, cut, expired, refused, anew, turned, fed, fed_in};
    ghost use Rattle.spec_client_go.specs.declared.reflectors.Phase.TheVariants.{Listing};
    ghost use Rattle.reflector.specs.Deltas.{delta_of, deltas_of, RefusesList};

    /// Returns a reflector that took nothing in yet: it wants a list, and its revision is 0.
    pub fn new(alloc: Global, kind: Kind) -> Reflector
        ensures { result ≡ begun kind }
    {
        Reflector::begin(alloc, kind, false)
    }

    /// Returns a reflector that took nothing in yet and wants a stream of initial events in place of a list: its revision is 0.
    pub fn streaming(alloc: Global, kind: Kind) -> Reflector
        ensures { result ≡ begun_streaming kind }
    {
        Reflector::begin(alloc, kind, true)
    }

    /// Returns a reflector that took nothing in yet.
    fn begin(alloc: Global, kind: Kind, is_streaming: bool) -> Reflector
        ensures { result ≡ begun_by is_streaming kind }
    {
        Reflector {
            kind,
            revision: 0,
            phase: first_phase(is_streaming),
            buffered: Vec::new(alloc),
            is_streaming,
            initial: Initial::new(alloc),
        }
    }

    /// Returns a copy. The error is running out of memory.
    pub fn try_copy(&self) -> Result<Reflector, AllocError>
        ensures { IfOk result (λ s. s ≡ self.now) }
    {
        Ok(Reflector {
            kind: self.kind,
            revision: self.revision,
            phase: self.phase,
            buffered: self.buffered.clone()?,
            is_streaming: self.is_streaming,
            initial: self.initial.try_copy()?,
        })
    }

    /// Returns what is to be asked of the server next. It takes no memory.
    pub fn next(&self) -> Ask
        ensures { result ≡ asks self.now }
    {
        match self.phase {
            Phase::Listing => Ask::List,
            Phase::Streaming => Ask::Stream,
            Phase::Watching => Ask::Watch(self.revision),
        }
    }

    /// Returns the revision of the last list, closed initial events, event or bookmark that was taken in; 0 before the first of
    /// these. It takes no memory.
    pub fn revision(&self) -> u64
        ensures { result ≡ self.now.revision }
    {
        self.revision
    }

    /// Takes in the body of a list, and returns the delta that replaces the whole map. An error changes nothing.
    pub fn on_list(&mut self, alloc: Global, body: &[u8]) -> Result<Delta, ListFault>
        ensures delta { IfOk result (λ d. Some (delta_of d) ≡ option_map list_delta (list_of self.old.kind body.now)) }
        ensures after { OnOk result (self.new ≡ with_list (list_of self.old.kind body.now) self.old) }
        ensures refused { IfErr result (RefusesList self.old.kind body.now) }
        ensures err { OnErr result (self.new ≡ self.old) }
    {
        match read_list(alloc, self.kind, body)? {
            Some(Listed { revision, objects }) => {
                self.turn(Phase::Watching, revision);
                Ok(Delta::Replace(revision, objects))
            }
            None => Err(ListFault::Unreadable),
        }
    }

    /// Takes in the next piece of a watch, cut anywhere, and returns a delta for each frame that is whole now; of initial events none until
    /// the bookmark that closes them, and then the one that replaces the whole map. While a list is asked for, what comes is ignored. An end
    /// asks for a list, or for a stream, and drops what is buffered of a frame and initial events that are not closed; the frames before it are
    /// taken in. The error is running out of memory, and changes nothing: the same piece can be fed again.
    pub fn feed(&mut self, alloc: Global, piece: &[u8]) -> Result<Fed, Want>
        ensures deltas { IfOk result (λ f. deltas_of f.deltas.items ≡ (fed self.old piece.now).deltas) }
        ensures end { IfOk result (λ f. f.end ≡ (fed self.old piece.now).ended) }
        ensures after { OnOk result (self.new ≡ (fed self.old piece.now).after) }
        ensures err { OnErr result (self.new ≡ self.old) }
        ensures bounded { length self.new.buffered < longest_frame }
    {
        match self.phase {
            Phase::Listing => Ok(Fed {
                deltas: Vec::new(alloc),
                end: None,
            }),
            Phase::Streaming | Phase::Watching => self.watch(alloc, piece),
        }
    }

    /// Takes in the next piece, where no list is asked for.
    fn watch(&mut self, alloc: Global, piece: &[u8]) -> Result<Fed, Want>
        requires { self.old.phase ≢ Listing }
        ensures deltas { IfOk result (λ f. deltas_of f.deltas.items ≡ (fed self.old piece.now).deltas) }
        ensures end { IfOk result (λ f. f.end ≡ (fed self.old piece.now).ended) }
        ensures after { OnOk result (self.new ≡ (fed self.old piece.now).after) }
        ensures err { OnErr result (self.new ≡ self.old) }
        ensures bounded { length self.new.buffered < longest_frame }
    {
        let place = Place {
            phase: self.phase,
            revision: self.revision,
            initial: self.initial.try_copy()?,
        };
        let known = self.buffered.len();
        self.buffered.extend_from_slice(piece)?;
        match take_in(
            alloc,
            self.kind,
            self.is_streaming,
            place,
            self.buffered.as_slice(),
            known,
        ) {
            Ok(taken) => {
                keep_last(&mut self.buffered, taken.kept);
                self.revision = taken.place.revision;
                self.phase = taken.place.phase;
                self.initial = taken.place.initial;
                Ok(Fed {
                    deltas: taken.deltas,
                    end: taken.end,
                })
            }
            Err(want) => {
                self.buffered.truncate(known);
                Err(want)
            }
        }
    }

    /// Takes in the end of a connection: what is buffered of a frame is dropped, for the next watch begins with a whole one. It
    /// takes no memory.
    pub fn on_cut(&mut self)
        ensures { self.new ≡ cut self.old }
    {
        self.turn(self.phase, self.revision);
    }

    /// Takes in that the server no longer has the events that were asked for: a list is asked for, or a stream. It takes no memory.
    pub fn on_expired(&mut self)
        ensures { self.new ≡ expired self.old }
    {
        let phase = match self.phase {
            Phase::Listing => Phase::Listing,
            _ => first_phase(self.is_streaming),
        };
        self.turn(phase, self.revision);
    }

    /// Takes in that the server refuses a stream of initial events: a list is asked for, until one is taken in. It takes no memory.
    pub fn on_refused(&mut self)
        ensures { self.new ≡ refused self.old }
    {
        self.turn(Phase::Listing, self.revision);
    }

    /// Goes on from a revision, with nothing buffered of a frame, and no initial events.
    fn turn(&mut self, phase: Phase, revision: u64)
        ensures { self.new ≡ turned phase revision self.old }
    {
        self.buffered.clear();
        self.initial.clear();
        self.phase = phase;
        self.revision = revision;
    }
}
