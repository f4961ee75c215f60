//! A decoder of frames that come in pieces.
ghost use Rattle.std.specs.Prelude.{◌≡◌, IsSome, IsOk, IfOk, OnOk, OnErr};
ghost use Rattle.framing.specs.Decoders.{opened, fed, left, events_of};

use crate::frames::Frame;
use crate::lines::{keep_last, read_lines};
use crate::wants::Want;
use spec_client_go::frame_fault::FrameFault;
use std::alloc::Global;
use std::marker::Model;

/// What has come of a stream of frames: the bytes of a line that is not whole yet, or the fault that ended the stream.
#[derive(Drop)]
pub struct Decoder {
    buffered: Vec<u8>,
    fault: Option<FrameFault>,
}

impl Model for Decoder {
    ghost use Rattle.framing.specs.Lines.{IsPartial};
    ghost use Rattle.framing.specs.Decoders.{Held, coded_held};

    ghost Value = { Held };

    ghost coded = { coded_held };

    ghost view = { λ d. record { buffered = d.buffered.items; fault = d.fault } };

    ghost invariant = { λ d. IsPartial d.buffered.items };
}

/// The whole frames that came, in order, and the fault that is final, if there is one.
#[derive(Drop)]
pub struct Decoded {
    pub frames: Vec<Frame>,
    pub fault: Option<FrameFault>,
}

impl Decoder {
    /// Returns a decoder to which nothing came yet.
    pub fn new(alloc: Global) -> Decoder
        ensures { result ≡ opened }
    {
        Decoder {
            buffered: Vec::new(alloc),
            fault: None,
        }
    }

    /// Reads the next piece, and returns the frames that are whole now. After a fault nothing more is read, and each call
    /// returns that fault. The error is running out of memory, and changes nothing: the same piece can be fed again.
    pub fn feed(&mut self, alloc: Global, piece: &[u8]) -> Result<Decoded, Want>
        ensures frames { IfOk result (λ d. events_of d.frames.items ≡ (fed self.old piece.now).events) }
        ensures fault { IfOk result (λ d. d.fault ≡ (fed self.old piece.now).fault) }
        ensures after { OnOk result (self.new ≡ left (fed self.old piece.now)) }
        ensures err { OnErr result (self.new ≡ self.old) }
        ensures ended { IsSome self.old.fault → IsOk result }
    {
        if let Some(fault) = self.fault {
            self.buffered.clear();
            return Ok(Decoded {
                frames: Vec::new(alloc),
                fault: Some(fault),
            });
        }
        let known = self.buffered.len();
        self.buffered.extend_from_slice(piece)?;
        match read_lines(alloc, self.buffered.as_slice(), known) {
            Ok(lines) => {
                keep_last(&mut self.buffered, lines.kept);
                self.fault = lines.fault;
                Ok(Decoded {
                    frames: lines.frames,
                    fault: lines.fault,
                })
            }
            Err(want) => {
                self.buffered.truncate(known);
                Err(want)
            }
        }
    }
}
