//! A journal of two puts of one ConfigMap and of its removal, at revisions 2 to 4. No program asks a journal for lists and changes.
use meta::{Event, StoredObject, Write};
use revisions::Journal;
use selector::View;
use spec_api::kinds::Kind;
use std::alloc::{AllocError, Global};
use std::test::Fail;
use test_fixtures::{key, stored};

/// Returns a copy of an object that may be absent, which shares its text.
fn copy_of(put: Option<&StoredObject>) -> Result<Option<StoredObject>, AllocError> {
    match put {
        Some(object) => Ok(Some(object.try_copy()?)),
        None => Ok(None),
    }
}

/// Returns the write that puts an object, or removes it.
fn write(alloc: Global, put: Option<&StoredObject>) -> Result<Write, AllocError> {
    let key = key(alloc, Kind::ConfigMap, "a")?;
    let put = copy_of(put)?;
    Ok(Write { key, put })
}

/// Returns the journal of two puts of an object, and of its removal.
fn three_writes(alloc: Global, object: &StoredObject) -> Result<Journal, AllocError> {
    let mut journal = Journal::new(alloc);
    for put in &[Some(object), Some(object), None] {
        journal.push(write(alloc, *put)?)?;
    }
    Ok(journal)
}

/// Returns the journal.
fn kept(alloc: Global) -> Result<Journal, Fail> {
    let object = stored(alloc, Kind::ConfigMap, "{}")?;
    Ok(three_writes(alloc, &object)?)
}

/// How many objects there are at a revision.
const COUNTS: [(u64, usize); 4] = [(1, 0), (2, 1), (3, 1), (4, 0)];

/// Returns whether a list has what was there, at each revision.
fn lists_what_was_there(alloc: Global, journal: &Journal, view: &View) -> Result<bool, AllocError> {
    let mut same = true;
    for &(revision, count) in &COUNTS {
        same = journal.list_at(alloc, view, revision)?.len() == count && same;
    }
    Ok(same)
}

/// The changes, in order, each with its revision.
const CHANGES: [(&str, u64); 3] = [("ADDED", 2), ("MODIFIED", 3), ("DELETED", 4)];

/// Returns whether events have their types and revisions.
fn are_changes(events: &[Event]) -> bool {
    let mut same = events.len() == 3;
    for (event, wanted) in events.iter().zip(&CHANGES) {
        let text = event.kind.frame_kind().text();
        same = same && text == wanted.0 && event.revision == wanted.1;
    }
    same
}

/// Returns whether the changes have their types and revisions.
fn has_changes(alloc: Global, journal: &Journal, view: &View) -> Result<bool, AllocError> {
    Ok(are_changes(journal.changes(alloc, view, 1, 4)?.as_slice()))
}

/// Returns whether lists and changes of a journal are as they were written.
fn tells_all(alloc: Global, journal: &Journal) -> Result<bool, AllocError> {
    let view = View::unfiltered(alloc, Kind::ConfigMap, None);
    Ok(lists_what_was_there(alloc, journal, &view)? && has_changes(alloc, journal, &view)?)
}

/// Returns whether lists and changes are as they were written.
fn is_kept(alloc: Global) -> Result<bool, Fail> {
    let journal = kept(alloc)?;
    Ok(tells_all(alloc, &journal)?)
}

#[test]
fn a_journal_tells_what_was_there_and_what_changed(rt: HostRuntime) -> Result<(), Fail> {
    assert!(rt; is_kept(rt.alloc())?);
    Ok(())
}
