//! Readers and writers that wait for nobody, with a note of whether they have stopped.
ghost use Rattle.std.specs.Prelude.{◌≡◌, ◌≢◌, ◌<◌, IfErr, IfOk, length, true, false};
ghost use Rattle.std.specs.IoError.{error_kind};
ghost use Rattle.std.specs.Io.{ReadsAtMost, WritesAtMost};
ghost use Rattle.std.specs.Io.KnownBytes.{Keeps, ReadConsumes, WriteAppends};
ghost use Rattle.http_connection.specs.Stopping.{device_in, has_stopped};

use std::io;
use std::io::{ErrorKind, Read, Write};

/// A reader or a writer that waits for nobody, and the note of whether it has stopped: a read found the end, a write took nothing of what is not
/// empty, or a call failed for another reason than that it would have to wait, or was interrupted. Nothing takes the note back.
#[derive(Drop)]
pub struct Noted<D: Drop> {
    device: D,
    stopped: bool,
}

impl<D: Drop> Noted<D> {
    /// Returns a device that has not stopped.
    pub fn new(device: D) -> Noted<D>
        ensures device { device_in result ≡ device }
        ensures stopped { has_stopped result ≡ false }
    {
        Noted {
            device,
            stopped: false,
        }
    }

    /// Returns whether it has stopped.
    pub fn has_stopped(&self) -> bool
        ensures { result ≡ has_stopped self.now }
    {
        self.stopped
    }

    /// Takes note of an error.
    fn note(&mut self, error: &io::Error)
        ensures device { self.new.device ≡ self.old.device }
        ensures waits { error_kind error.now ≡ ErrorKind.WouldBlock → self.new.stopped ≡ self.old.stopped }
        ensures again { error_kind error.now ≡ ErrorKind.Interrupted → self.new.stopped ≡ self.old.stopped }
        ensures stopped { error_kind error.now ≢ ErrorKind.WouldBlock → error_kind error.now ≢ ErrorKind.Interrupted → self.new.stopped ≡ true }
    {
        let kind = error.kind();
        if kind != ErrorKind::WouldBlock && kind != ErrorKind::Interrupted {
            self.stopped = true;
        }
    }
}

impl<R: Read + Drop> Read for Noted<R> {
    ghost remaining = { λ w. R.remaining (device_in w) };

    fn read(&mut self, buf: &mut [u8]) -> io::Result<usize>
        ensures bound { ReadsAtMost result buf.new }
        ensures bytes { ReadConsumes (R.remaining (device_in self.old)) (R.remaining (device_in self.new)) result buf.new }
        ensures ended { IfOk result (λ n. n ≡ 0 → 0 < length buf.new → has_stopped self.new ≡ true) }
        ensures goes_on { IfOk result (λ n. 0 < n → has_stopped self.new ≡ has_stopped self.old) }
        ensures waits { IfErr result (λ e. error_kind e ≡ ErrorKind.WouldBlock → has_stopped self.new ≡ has_stopped self.old) }
        ensures again { IfErr result (λ e. error_kind e ≡ ErrorKind.Interrupted → has_stopped self.new ≡ has_stopped self.old) }
        ensures stopped { IfErr result (λ e. error_kind e ≢ ErrorKind.WouldBlock → error_kind e ≢ ErrorKind.Interrupted → has_stopped self.new ≡ true) }
    {
        match self.device.read(buf) {
            Ok(n) => {
                if n == 0 && !buf.is_empty() {
                    self.stopped = true;
                }
                Ok(n)
            }
            Err(error) => {
                self.note(&error);
                Err(error)
            }
        }
    }
}

impl<W: Write + Drop> Write for Noted<W> {
    ghost contents = { λ w. W.contents (device_in w) };

    fn write(&mut self, buf: &[u8]) -> io::Result<usize>
        ensures bound { WritesAtMost result buf.now }
        ensures bytes { WriteAppends (W.contents (device_in self.old)) (W.contents (device_in self.new)) result buf.now }
        ensures nothing { IfOk result (λ n. n ≡ 0 → 0 < length buf.now → has_stopped self.new ≡ true) }
        ensures goes_on { IfOk result (λ n. 0 < n → has_stopped self.new ≡ has_stopped self.old) }
        ensures waits { IfErr result (λ e. error_kind e ≡ ErrorKind.WouldBlock → has_stopped self.new ≡ has_stopped self.old) }
        ensures again { IfErr result (λ e. error_kind e ≡ ErrorKind.Interrupted → has_stopped self.new ≡ has_stopped self.old) }
        ensures stopped { IfErr result (λ e. error_kind e ≢ ErrorKind.WouldBlock → error_kind e ≢ ErrorKind.Interrupted → has_stopped self.new ≡ true) }
    {
        match self.device.write(buf) {
            Ok(n) => {
                if n == 0 && !buf.is_empty() {
                    self.stopped = true;
                }
                Ok(n)
            }
            Err(error) => {
                self.note(&error);
                Err(error)
            }
        }
    }

    fn flush(&mut self) -> io::Result<()>
        ensures bytes { Keeps (W.contents (device_in self.old)) (W.contents (device_in self.new)) }
    {
        match self.device.flush() {
            Ok(()) => Ok(()),
            Err(error) => {
                self.note(&error);
                Err(error)
            }
        }
    }
}
