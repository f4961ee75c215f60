//! Readers and writers that are watched for failures.
ghost use Rattle.std.specs.Prelude.{◌≡◌, ◌≢◌, ◌≤◌, ◌<◌, ◌+◌, [], ◌∷◌, ◌++◌, IfOk, OnOk, IfErr, OnErr, IfSome, MatchOption, length, take, true, false, Err, vec_len};
ghost use Rattle.std.specs.IoError.{error_kind};
ghost use Rattle.std.specs.Io.{ReadsAtMost, WritesAtMost};
ghost use Rattle.std.specs.Io.BufRead.{take_through, DropsThrough};
ghost use Rattle.std.specs.Io.KnownBytes.{Appends, Keeps, Consumes, IsAtEnd, ReadConsumes, WriteAppends};
ghost use Rattle.chunked.specs.Devices.{AppendsBeginning, device_of, has_failed};
ghost use Rattle.chunked.specs.Writing.{WritesInPlace};
ghost use Rattle.chunked.specs.declared.fault.ChunkFault.TheVariants as fault;

use crate::fault::ChunkFault;
use std::io;
use std::io::{BufRead, ErrorKind, Read, Write};

/// A reader or a writer, and the flag whether a call of it has failed. The flag rises just there: an error that says that the
/// call was interrupted asks for the call again, and is no failure; a write that takes nothing of a text that is not empty is
/// one. Nothing lowers the flag.
#[derive(Drop)]
pub struct Watched<D: Drop> {
    device: D,
    failed: bool,
}

impl<D: Drop> Watched<D> {
    /// Returns the device with its flag down.
    pub fn new(device: D) -> Watched<D>
        ensures device { device_of result ≡ device }
        ensures failed { has_failed result ≡ false }
    {
        Watched {
            device,
            failed: false,
        }
    }

    /// Returns whether a call of the device has failed.
    pub fn has_failed(&self) -> bool
        ensures { result ≡ has_failed self.now }
    {
        self.failed
    }

    /// Returns the device, which is watched no more.
    pub fn into_inner(self) -> D
        ensures { result ≡ device_of self }
    {
        self.device
    }

    /// Sets the flag, if the error does not ask for the call again.
    fn note(&mut self, error: &io::Error)
        ensures device { self.new.device ≡ self.old.device }
        ensures interrupted { error_kind error.now ≡ ErrorKind.Interrupted → self.new.failed ≡ self.old.failed }
        ensures failed { error_kind error.now ≢ ErrorKind.Interrupted → self.new.failed ≡ true }
    {
        if error.kind() != ErrorKind::Interrupted {
            self.failed = true;
        }
    }
}

impl<R: Read + Drop> Read for Watched<R> {
    ghost remaining = { λ w. R.remaining (device_of w) };

    fn read(&mut self, buf: &mut [u8]) -> io::Result<usize>
        ensures bound { ReadsAtMost result buf.new }
        ensures bytes { ReadConsumes (R.remaining (device_of self.old)) (R.remaining (device_of self.new))
            result buf.new }
        ensures kept { OnOk result (has_failed self.new ≡ has_failed self.old) }
        ensures interrupted { IfErr result (λ e. error_kind e ≡ ErrorKind.Interrupted
            → has_failed self.new ≡ has_failed self.old) }
        ensures failed { IfErr result (λ e. error_kind e ≢ ErrorKind.Interrupted → has_failed self.new ≡ true) }
    {
        match self.device.read(buf) {
            Ok(n) => Ok(n),
            Err(error) => {
                self.note(&error);
                Err(error)
            }
        }
    }
}

impl<W: Write + Drop> Write for Watched<W> {
    ghost contents = { λ w. W.contents (device_of w) };

    fn write(&mut self, buf: &[u8]) -> io::Result<usize>
        ensures bound { WritesAtMost result buf.now }
        ensures bytes { WriteAppends (W.contents (device_of self.old)) (W.contents (device_of self.new))
            result buf.now }
        ensures kept { IfOk result (λ n. 0 < n → has_failed self.new ≡ has_failed self.old) }
        ensures empty { OnOk result (length buf.now ≡ 0 → has_failed self.new ≡ has_failed self.old) }
        ensures nothing { IfOk result (λ n. n ≡ 0 → 0 < length buf.now → has_failed self.new ≡ true) }
        ensures interrupted { IfErr result (λ e. error_kind e ≡ ErrorKind.Interrupted
            → has_failed self.new ≡ has_failed self.old) }
        ensures failed { IfErr result (λ e. error_kind e ≢ ErrorKind.Interrupted → has_failed self.new ≡ true) }
    {
        match self.device.write(buf) {
            Ok(n) => {
                if n == 0 && !buf.is_empty() {
                    self.failed = true;
                }
                Ok(n)
            }
            Err(error) => {
                self.note(&error);
                Err(error)
            }
        }
    }

    fn flush(&mut self) -> io::Result<()>
        ensures bytes { Keeps (W.contents (device_of self.old)) (W.contents (device_of self.new)) }
        ensures kept { OnOk result (has_failed self.new ≡ has_failed self.old) }
        ensures interrupted { IfErr result (λ e. error_kind e ≡ ErrorKind.Interrupted
            → has_failed self.new ≡ has_failed self.old) }
        ensures failed { IfErr result (λ e. error_kind e ≢ ErrorKind.Interrupted → has_failed self.new ≡ true) }
    {
        match self.device.flush() {
            Ok(()) => Ok(()),
            Err(error) => {
                self.note(&error);
                Err(error)
            }
        }
    }
}

impl<W: Write + Drop> Watched<W> {
    /// Writes all of a text, again and again where the device is interrupted.
    fn write_text(&mut self, text: &[u8]) -> Result<(), ChunkFault>
        requires { self.old.failed ≡ false }
        ensures ok { OnOk result (Appends (W.contents self.old.device) (W.contents self.new.device) text.now) }
        ensures sound { OnOk result (self.new.failed ≡ false) }
        ensures err { OnErr result (AppendsBeginning (W.contents self.old.device) (W.contents self.new.device) text.now) }
        ensures failed { OnErr result (self.new.failed ≡ true) }
        ensures fault { IfErr result (λ f. f ≡ fault.Device) }
    {
        let mut rest = text;
        for _ in 0..u64::MAX {
            if rest.is_empty() {
                return Ok(());
            }
            match self.write(rest) {
                Ok(0) => return Err(ChunkFault::Device),
                Ok(n) => rest = rest.split_at(n).1,
                Err(_) => {
                    if self.failed {
                        return Err(ChunkFault::Device);
                    }
                }
            }
        }
        self.failed = true;
        Err(ChunkFault::Device)
    }

    /// Flushes the device, again where it is interrupted.
    fn flush_through(&mut self) -> Result<(), ChunkFault>
        requires { self.old.failed ≡ false }
        ensures bytes { Keeps (W.contents self.old.device) (W.contents self.new.device) }
        ensures sound { OnOk result (self.new.failed ≡ false) }
        ensures failed { OnErr result (self.new.failed ≡ true) }
        ensures fault { IfErr result (λ f. f ≡ fault.Device) }
    {
        for _ in 0..u64::MAX {
            match self.flush() {
                Ok(()) => return Ok(()),
                Err(_) => {
                    if self.failed {
                        return Err(ChunkFault::Device);
                    }
                }
            }
        }
        self.failed = true;
        Err(ChunkFault::Device)
    }

    /// Writes all of a text and flushes the device. Where the device fails, a beginning of the text was written.
    pub(crate) fn write_through(&mut self, text: &[u8]) -> Result<(), ChunkFault>
        requires { self.old.failed ≡ false }
        ensures ok { OnOk result (Appends (W.contents self.old.device) (W.contents self.new.device) text.now) }
        ensures sound { OnOk result (self.new.failed ≡ false) }
        ensures err { OnErr result (AppendsBeginning (W.contents self.old.device) (W.contents self.new.device) text.now) }
        ensures failed { OnErr result (self.new.failed ≡ true) }
        ensures fault { IfErr result (λ f. f ≡ fault.Device) }
    {
        self.write_text(text)?;
        match self.flush_through() {
            Ok(()) => Ok(()),
            Err(fault) => Err(fault),
        }
    }

    /// Writes all of a text and flushes the device. Once a call of the device has failed nothing more is written, and each
    /// call answers that fault; a beginning of the text may then have been written. It needs no memory.
    pub fn send(&mut self, text: &[u8]) -> Result<(), ChunkFault>
        ensures { WritesInPlace text.now W.contents self.old self.new result }
    {
        if self.failed {
            return Err(ChunkFault::Device);
        }
        self.write_through(text)
    }
}

impl<R: Read + Drop> Watched<R> {
    /// Reads a part of what is left, again where the device is interrupted; none only at the end, or where there is no room.
    /// Where the device fails, nothing is read.
    pub fn receive(&mut self, buf: &mut [u8]) -> Result<usize, ChunkFault>
        requires { has_failed self.old ≡ false }
        ensures bound { IfOk result (λ n. n ≤ length buf.new) }
        ensures len { length buf.new ≡ length buf.old }
        ensures read { IfOk result (λ n. Consumes (R.remaining (device_of self.old)) (R.remaining (device_of self.new)) (take n buf.new)) }
        ensures end { IfOk result (λ n. n ≡ 0 → 0 < length buf.new → IsAtEnd (R.remaining (device_of self.new))) }
        ensures kept { OnErr result (Keeps (R.remaining (device_of self.old)) (R.remaining (device_of self.new))) }
        ensures sound { OnOk result (has_failed self.new ≡ false) }
        ensures failed { OnErr result (has_failed self.new ≡ true) }
        ensures fault { IfErr result (λ f. f ≡ fault.Device) }
    {
        for _ in 0..u64::MAX {
            match self.read(buf) {
                Ok(n) => return Ok(n),
                Err(_) => {
                    if self.failed {
                        return Err(ChunkFault::Device);
                    }
                }
            }
        }
        self.failed = true;
        Err(ChunkFault::Device)
    }

    /// Reads a byte; none only at the end.
    pub(crate) fn byte(&mut self) -> Result<Option<u8>, ChunkFault>
        requires { self.old.failed ≡ false }
        ensures read { IfOk result (λ b. MatchOption b
            (Consumes (R.remaining self.old.device) (R.remaining self.new.device) [] × IsAtEnd (R.remaining self.new.device))
            (λ x. Consumes (R.remaining self.old.device) (R.remaining self.new.device) (x ∷ []))) }
        ensures sound { OnOk result (self.new.failed ≡ false) }
        ensures failed { OnErr result (self.new.failed ≡ true) }
        ensures fault { IfErr result (λ f. f ≡ fault.Device) }
    {
        let mut one = [0u8; 1];
        let n = self.receive(&mut one)?;
        if n == 0 { Ok(None) } else { Ok(Some(one[0])) }
    }
}

impl<R: BufRead + Drop> Watched<R> {
    /// Reads through the next of a byte onto what the buffer holds, or to the end where none comes, and returns how many bytes came: none
    /// only at the end. The error is the device's, or out of memory; some bytes may have come onto the buffer then.
    pub fn read_through(&mut self, byte: u8, buf: &mut Vec<u8>) -> Result<usize, ChunkFault>
        ensures count { IfOk result (λ n. vec_len buf.new ≡ vec_len buf.old + n) }
        ensures bytes { OnOk result (IfSome (R.remaining (device_of self.old)) (λ xs. buf.new.items ≡ buf.old.items ++ take_through byte xs)) }
        ensures rest { OnOk result (DropsThrough (R.remaining (device_of self.old)) (R.remaining (device_of self.new)) byte) }
        ensures end { IfOk result (λ n. n ≡ 0 → IsAtEnd (R.remaining (device_of self.old))) }
        ensures sound { OnOk result (has_failed self.new ≡ false) }
        ensures failed { IfErr result (λ f. f ≢ fault.Want → (f ≡ fault.Device) × (has_failed self.new ≡ true)) }
        ensures want { IfErr result (λ f. f ≡ fault.Want → has_failed self.new ≡ false) }
        ensures again { has_failed self.old ≡ true → (result ≡ Err fault.Device) × (self.new ≡ self.old) }
    {
        if self.failed {
            return Err(ChunkFault::Device);
        }
        match self.device.read_until(byte, buf) {
            Ok(n) => Ok(n),
            Err(error) => {
                if error.kind() == ErrorKind::OutOfMemory {
                    return Err(ChunkFault::Want);
                }
                self.failed = true;
                Err(ChunkFault::Device)
            }
        }
    }
}
