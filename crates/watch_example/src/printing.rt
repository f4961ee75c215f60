//! What is written of what is published.
ghost use Rattle.std.specs.Prelude.{⊤};

use list_and_watch::{Cause, Indexed, Onward, Shift, Sink};
use meta::Object;
use object_keys::Key;
use reconcile_types::Entry;
use spec_api::kinds::Kind;
use std::alloc::{AllocError, Global};
use std::io;
use std::io::Write;

/// Writes a line for each change and each publish, and at a revision all that is there.
#[derive(Drop)]
pub struct Printer<W> {
    alloc: Global,
    writer: W,
    kind: Kind,
    until: Option<u64>,
    /// Whether a line could not be written.
    has_failed: bool,
    /// Whether the last publish was written.
    is_over: bool,
}

/// Returns what became of an object.
fn word(shift: &Shift) -> &'static str {
    match (&shift.old, &shift.new) {
        (None, _) => "added",
        (Some(_), Some(_)) => "modified",
        (Some(_), None) => "deleted",
    }
}

/// Returns the revision of an object's last write, as the object says it.
fn version(object: &Object) -> &str {
    object.resource_version().unwrap_or("")
}

/// Writes `WORD NAMESPACE/NAME REVISION`; of an object that is deleted it is the last revision that was seen.
fn write_shift<W: Write>(writer: &mut W, shift: &Shift) -> io::Result<()> {
    let Key {
        namespace,
        name,
        ..
    } = &shift.key;
    let revision = match (&shift.new, &shift.old) {
        (Some(object), _) | (None, Some(object)) => version(object.object()),
        (None, None) => "",
    };
    writeln!(writer, "{} {namespace}/{name} {revision}", word(shift))
}

/// Writes each object, as `NAMESPACE/NAME REVISION`.
fn write_all<W: Write>(writer: &mut W, entries: &[Entry<'_>]) -> io::Result<()> {
    for entry in entries {
        let Key {
            namespace,
            name,
            ..
        } = entry.key;
        writeln!(writer, "{namespace}/{name} {}", version(entry.object))?;
    }
    Ok(())
}

impl<W: Write> Printer<W> {
    /// Returns what writes the changes of a kind, until a revision, if one is given.
    pub fn new(alloc: Global, writer: W, kind: Kind, until: Option<u64>) -> Printer<W> {
        Printer {
            alloc,
            writer,
            kind,
            until,
            has_failed: false,
            is_over: false,
        }
    }

    /// Returns whether all lines were written.
    pub fn is_whole(&self) -> bool {
        !self.has_failed
    }

    /// Writes `published KIND REVISION OBJECTS`.
    fn write_published(&mut self, objects: &Indexed) -> io::Result<()> {
        let revision = objects.revision();
        writeln!(
            self.writer,
            "published {} {revision} {}",
            self.kind.name(),
            objects.len()
        )
    }

    /// Writes a line for each change, and what is then published, and after the last publish all that is there.
    fn write_changed(
        &mut self,
        shifts: &[Shift],
        objects: &Indexed,
        last: &Option<Vec<Entry<'_>>>,
    ) -> io::Result<()> {
        for shift in shifts {
            write_shift(&mut self.writer, shift)?;
        }
        self.write_published(objects)?;
        if let Some(entries) = last {
            write_all(&mut self.writer, entries.as_slice())?;
        }
        self.writer.flush()
    }

    /// Returns whether the program ends at a revision.
    fn ends_at(&self, revision: u64) -> bool {
        match self.until {
            Some(until) => until <= revision,
            None => false,
        }
    }

    /// Returns all that is there, if the publish is the last. The error is running out of memory.
    fn last_entries<'a>(&self, objects: &'a Indexed) -> Result<Option<Vec<Entry<'a>>>, AllocError> {
        if self.ends_at(objects.revision()) {
            Ok(Some(objects.list(self.alloc)?))
        } else {
            Ok(None)
        }
    }
}

impl<W: Write> Sink for Printer<W> {
    ghost takes = { λ before changes objects cause after. ⊤ };

    /// Writes the publish. Where memory runs out nothing was written.
    fn changed(
        &mut self,
        shifts: &[Shift],
        objects: &Indexed,
        _cause: Cause,
    ) -> Result<(), AllocError> {
        let last = self.last_entries(objects)?;
        match self.write_changed(shifts, objects, &last) {
            Ok(()) => self.is_over = last.is_some(),
            Err(_) => self.has_failed = true,
        }
        Ok(())
    }

    /// Nothing was made of what was published, so that what is listed next is as good.
    fn other_server(&mut self) {}

    fn goes_on(&mut self) -> Onward {
        if self.is_over || self.has_failed {
            Onward::Stop
        } else {
            Onward::GoOn
        }
    }
}
