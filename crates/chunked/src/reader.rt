//! Bodies in chunks, read.
ghost use Rattle.std.specs.Prelude.{◌≡◌, ◌≤◌, ◌<◌, ◌⊎◌, ◌-◌, [], false, Some, None, Err, IfOk, IfErr, OnOk, OnErr, IfSome, length, take};
ghost use Rattle.std.specs.Io.KnownBytes.{Consumes};
ghost use Rattle.chunked.specs.Devices.{has_failed};
ghost use Rattle.chunked.specs.Reading.{Reaches, Stops, IsWatched, place_of, fault_of, answered_fault, left_of};
ghost use Rattle.chunked.specs.Parts.{IsReady};
ghost use Rattle.chunked.specs.declared.fault.ChunkFault.TheVariants as fault;
ghost use Rattle.chunked.specs.declared.place.BodyPlace.TheVariants as place;

use crate::fault::ChunkFault;
use crate::line::{read_end, read_size};
use crate::place::BodyPlace;
use crate::watched::Watched;
use std::io::Read;

/// A reader of a body in chunks. It reads its device in small pieces where lines are: give it one that is buffered.
#[derive(Drop)]
pub struct Reader<R: Drop> {
    /// What is read from.
    pub device: Watched<R>,
    place: BodyPlace,
    fault: Option<ChunkFault>,
}

/// Reads the line before a chunk; of the last one the end of the body too.
#[tactic(auto, using(crate::proofs::Passing::reaches_chunk, crate::proofs::Passing::reaches_end, crate::proofs::Passing::line_fails, crate::proofs::Passing::end_fails))]
fn next_chunk<R: Read + Drop>(device: &mut Watched<R>) -> Result<BodyPlace, ChunkFault>
    requires { device.old.failed ≡ false }
    ensures place { IfOk result (λ p. Reaches place.Line (R.remaining device.old.device) [] p (R.remaining device.new.device)) }
    ensures ready { IfOk result (λ p. IsReady p) }
    ensures fault { IfErr result (λ f. Stops place.Line (R.remaining device.old.device) (R.remaining device.new.device) f) }
    ensures watched { IsWatched device.new.failed result }
{
    let size = read_size(device)?;
    if size == 0 {
        match read_end(device) {
            Ok(()) => Ok(BodyPlace::Ended),
            Err(fault) => Err(fault),
        }
    } else {
        Ok(BodyPlace::Within(size))
    }
}

/// Reads the end of a chunk and the line after it.
#[tactic(auto, using(crate::proofs::Passing::reaches_next, crate::proofs::Passing::close_fails, crate::proofs::Passing::next_fails))]
fn after_chunk<R: Read + Drop>(device: &mut Watched<R>) -> Result<BodyPlace, ChunkFault>
    requires { device.old.failed ≡ false }
    ensures place { IfOk result (λ p. Reaches (place.Within 0) (R.remaining device.old.device) []
        p (R.remaining device.new.device)) }
    ensures ready { IfOk result (λ p. IsReady p) }
    ensures fault { IfErr result (λ f. Stops (place.Within 0) (R.remaining device.old.device) (R.remaining device.new.device) f) }
    ensures watched { IsWatched device.new.failed result }
{
    read_end(device)?;
    match next_chunk(device) {
        Ok(next) => Ok(next),
        Err(fault) => Err(fault),
    }
}

/// Reads bytes of a chunk that has this many left.
#[tactic(auto, using(crate::proofs::Passing::reaches_bytes, crate::proofs::Passing::rest_is_cut))]
fn read_bytes<R: Read + Drop>(
    device: &mut Watched<R>,
    left: u64,
    buf: &mut [u8],
) -> Result<usize, ChunkFault>
    requires sound { device.old.failed ≡ false }
    requires some { 0 < left }
    requires room { 0 < length buf.old }
    ensures bytes { IfOk result (λ k. Reaches (place.Within left) (R.remaining device.old.device) (take k buf.new)
        (place.Within (left - k)) (R.remaining device.new.device)) }
    ensures bound { IfOk result (λ k. (0 < k) × (k ≤ left) × (k ≤ length buf.new)) }
    ensures len { length buf.new ≡ length buf.old }
    ensures fault { IfErr result (λ f. Stops (place.Within left) (R.remaining device.old.device) (R.remaining device.new.device) f) }
    ensures watched { IsWatched device.new.failed result }
{
    let room = buf.len().min(left as usize);
    match device.receive(&mut buf[..room]) {
        Ok(0) => Err(ChunkFault::Truncated),
        Ok(n) => Ok(n),
        Err(fault) => Err(fault),
    }
}

/// Reads on to where there are bytes of a chunk, or to the end of the body.
#[tactic(auto, using(crate::proofs::Passing::reaches_stay))]
fn ready<R: Read + Drop>(device: &mut Watched<R>, here: BodyPlace) -> Result<BodyPlace, ChunkFault>
    requires { device.old.failed ≡ false }
    ensures place { IfOk result (λ p. Reaches here (R.remaining device.old.device) [] p (R.remaining device.new.device)) }
    ensures ready { IfOk result (λ p. IsReady p) }
    ensures fault { IfErr result (λ f. Stops here (R.remaining device.old.device) (R.remaining device.new.device) f) }
    ensures watched { IsWatched device.new.failed result }
{
    match here {
        BodyPlace::Line => next_chunk(device),
        BodyPlace::Within(0) => after_chunk(device),
        BodyPlace::Within(left) => Ok(BodyPlace::Within(left)),
        BodyPlace::Ended => Ok(BodyPlace::Ended),
    }
}

impl<R: Read + Drop> Reader<R> {
    /// Returns a reader of the body that begins where this device stands.
    pub fn new(device: Watched<R>) -> Reader<R>
        ensures device { result.device ≡ device }
        ensures place { place_of result ≡ BodyPlace.Line }
        ensures fault { fault_of result ≡ None }
    {
        Reader {
            device,
            place: BodyPlace::Line,
            fault: None,
        }
    }

    /// Returns the fault that each call answers, if there is one.
    fn fault(&self) -> Option<ChunkFault>
        ensures { result ≡ answered_fault self.now }
    {
        match self.fault {
            Some(fault) => Some(fault),
            None => {
                if self.device.has_failed() {
                    Some(ChunkFault::Device)
                } else {
                    None
                }
            }
        }
    }

    /// Reads bytes where the reader is ready.
    #[tactic(auto, using(crate::proofs::Passing::reaches_stay))]
    fn take(&mut self, buf: &mut [u8]) -> Result<usize, ChunkFault>
        requires sound { has_failed self.old.device ≡ false }
        requires ready { IsReady (place_of self.old) }
        requires room { 0 < length buf.old }
        ensures bytes { IfOk result (λ k. Reaches (place_of self.old) (left_of R.remaining self.old)
            (take k buf.new) (place_of self.new) (left_of R.remaining self.new)) }
        ensures bound { IfOk result (λ k. k ≤ length buf.new) }
        ensures end { IfOk result (λ k. k ≡ 0 → place_of self.new ≡ place.Ended) }
        ensures len { length buf.new ≡ length buf.old }
        ensures fault { IfErr result (λ f. Stops (place_of self.old) (left_of R.remaining self.old)
            (left_of R.remaining self.new) f) }
        ensures sound { OnOk result (fault_of self.new ≡ fault_of self.old) }
        ensures stopped { IfErr result (λ f. fault_of self.new ≡ Some f) }
        ensures watched { IsWatched (has_failed self.new.device) result }
    {
        match self.place {
            BodyPlace::Within(left) => match read_bytes(&mut self.device, left, buf) {
                Ok(n) => {
                    self.place = BodyPlace::Within(left - n as u64);
                    Ok(n)
                }
                Err(fault) => {
                    self.fault = Some(fault);
                    Err(fault)
                }
            },
            _ => Ok(0),
        }
    }

    /// Reads bytes of the body, in any pieces, and returns how many: none only at the end of the body, or where `buf` has no
    /// room. Nothing beyond the body is read, and no memory is needed, so `Want` is never answered.
    ///
    /// A fault is final: each later call answers it again, and reads nothing. `Malformed` says that nothing that begins with
    /// what was read is what is left of a body, with lines of up to 256 bytes before its chunks; `Truncated` that the input
    /// ended, and that what was read is not what is left of a body, but may be continued to be; `Device` that a call of the
    /// device failed: if one had failed before the first call, nothing is read.
    #[tactic(auto, using(crate::proofs::Passing::reaches_stay))]
    pub fn read(&mut self, buf: &mut [u8]) -> Result<usize, ChunkFault>
        // Where there is a fault already, it is answered and nothing changes.
        ensures again { IfSome (answered_fault self.old) (λ f.
            (result ≡ Err f) × (self.new ≡ self.old) × (buf.new ≡ buf.old)) }

        // Without a fault, what was read is bytes of the body, and there is still none.
        ensures bytes { IfOk result (λ k. Reaches (place_of self.old) (left_of R.remaining self.old)
            (take k buf.new) (place_of self.new) (left_of R.remaining self.new)) }
        ensures sound { OnOk result (answered_fault self.new ≡ None) }
        ensures bound { IfOk result (λ k. k ≤ length buf.new) }
        ensures len { length buf.new ≡ length buf.old }
        ensures end { IfOk result (λ k. k ≡ 0 → 0 < length buf.old → place_of self.new ≡ place.Ended) }
        ensures none { OnOk result (length buf.old ≡ 0 → self.new ≡ self.old) }

        // A fault is there from now on. The first one has its reason, and the device's raises the flag.
        ensures fault { IfErr result (λ f. answered_fault self.new ≡ Some f) }
        ensures reason { answered_fault self.old ≡ None
            → IfErr result (λ f. Stops (place_of self.old) (left_of R.remaining self.old)
            (left_of R.remaining self.new) f) }
        ensures watched { answered_fault self.old ≡ None → IsWatched (has_failed self.new.device) result }
    {
        if let Some(fault) = self.fault() {
            return Err(fault);
        }
        if buf.is_empty() {
            return Ok(0);
        }
        match ready(&mut self.device, self.place) {
            Ok(place) => {
                self.place = place;
                match self.take(buf) {
                    Ok(n) => Ok(n),
                    Err(fault) => Err(fault),
                }
            }
            Err(fault) => {
                self.fault = Some(fault);
                Err(fault)
            }
        }
    }
}
