//! A random run of a simulated cluster.
use indexer::Indexed;
use line_session::JournalEntry as Happened;
use meta::{Member, StoredObject, Write};
use object_keys::Key;
use reconcile_types::Entry;
use revisions::Journal;
use selector::View;
use sim_cluster::Cluster;
use sim_followers::ClusterOutcome;
use sim_steps::{InitialSync, Move, Step};
use spec_api::kinds::Kind;
use std::alloc::{AllocError, Global};

/// How many steps are taken.
const STEPS: usize = 10_000;

/// Pseudo-random numbers by a linear congruence (Knuth's MMIX).
#[derive(Drop)]
struct Numbers {
    state: u64,
}

impl Numbers {
    /// Returns the next number that is below a bound.
    fn below(&mut self, bound: u64) -> u64 {
        self.state = self
            .state
            .wrapping_mul(6_364_136_223_846_793_005)
            .wrapping_add(1_442_695_040_888_963_407);
        if bound == 0 {
            return 0;
        }
        (self.state >> 33) % bound
    }
}

/// How requests for ConfigMaps begin, up to the digit of the name.
const POST: &[u8] = b"POST /api/v1/namespaces/default/configmaps";

const PUT: &[u8] = b"PUT /api/v1/namespaces/default/configmaps/n";

const DELETE: &[u8] = b"DELETE /api/v1/namespaces/default/configmaps/n";

/// What stands in a body before the digit of the name, before the value, and after that.
const NAME: &[u8] = b" {\"metadata\":{\"name\":\"n";

const VALUE: &[u8] = b"\"},\"data\":{\"k\":\"";

const END: &[u8] = b"\"}}";

/// Returns the last digit of a number.
fn digit(number: u64) -> u8 {
    b'0'.wrapping_add((number % 10) as u8)
}

/// Returns the last three digits of a number.
fn digits(number: u64) -> [u8; 3] {
    [digit(number / 100), digit(number / 10), digit(number)]
}

/// Appends these pieces to a line.
fn append(line: &mut Vec<u8>, pieces: &[&[u8]]) -> Result<(), AllocError> {
    for piece in pieces {
        line.extend_from_slice(piece)?;
    }
    Ok(())
}

/// Appends a request that creates, updates or deletes one of five ConfigMaps.
fn append_request(line: &mut Vec<u8>, numbers: &mut Numbers) -> Result<(), AllocError> {
    let name = [digit(numbers.below(5))];
    let value = digits(numbers.below(1_000));
    match numbers.below(3) {
        0 => append(line, &[POST, NAME, &name, VALUE, &value, END]),
        1 => append(line, &[PUT, &name, NAME, &name, VALUE, &value, END]),
        _ => append(line, &[DELETE, &name]),
    }
}

/// Returns a request that creates, updates or deletes one of five ConfigMaps.
fn request(alloc: Global, numbers: &mut Numbers) -> Result<Vec<u8>, AllocError> {
    let mut line = Vec::new(alloc);
    append_request(&mut line, numbers)?;
    Ok(line)
}

/// Returns a move of what follows the ConfigMaps.
fn movement(numbers: &mut Numbers) -> Move {
    match numbers.below(13) {
        0 => Move::List,
        1 => Move::Watch,
        2 => Move::Stream,
        3 => Move::Cut,
        4 => Move::SendBookmark,
        5 => Move::DeliverAll,
        6 | 7 => Move::Deliver(numbers.below(400)),
        8 | 9 => Move::Send(numbers.below(4)),
        _ => Move::Publish,
    }
}

/// Has the server of a cluster read a random request.
fn ask(
    alloc: Global,
    cluster: &mut Cluster,
    numbers: &mut Numbers,
) -> Result<ClusterOutcome, AllocError> {
    let line = request(alloc, numbers)?;
    cluster.step(alloc, Step::Request(&line))
}

/// Takes a random step: a request, a compaction, a restart now and then, or a move.
fn take(
    alloc: Global,
    cluster: &mut Cluster,
    numbers: &mut Numbers,
) -> Result<ClusterOutcome, AllocError> {
    let step = match numbers.below(200) {
        0 => Step::Restart,
        1 | 2 => Step::Compact(numbers.below(3_000)),
        3..50 => return ask(alloc, cluster, numbers),
        _ => Step::Moves(Kind::ConfigMap, movement(numbers)),
    };
    cluster.step(alloc, step)
}

/// Returns whether two objects have the same key and text.
fn is_same(alloc: Global, this: &Entry<'_>, that: &Member<'_>) -> Result<bool, AllocError> {
    let this_text = this.object.text(alloc)?;
    let that_text = that.object.to_text(alloc)?;
    Ok(this.key.cmp(that.key).is_eq() && this_text == that_text)
}

/// Returns whether these objects and those are the same, key by key and text by text.
fn are_same(alloc: Global, these: &[Entry<'_>], those: &[Member<'_>]) -> Result<bool, AllocError> {
    let mut same = these.len() == those.len();
    for (this, that) in these.iter().zip(those) {
        same = is_same(alloc, this, that)? && same;
    }
    Ok(same)
}

/// Returns a copy of what a write puts, if it puts something, which shares the object's text.
fn put_by(write: &Write) -> Result<Option<StoredObject>, AllocError> {
    match &write.put {
        Some(object) => Ok(Some(object.try_copy()?)),
        None => Ok(None),
    }
}

/// Appends a write to a journal, under this key.
fn append_write(journal: &mut Journal, key: Key, write: &Write) -> Result<(), AllocError> {
    let put = put_by(write)?;
    journal.push(Write { key, put })
}

/// Appends what has happened to a journal, where it is a write.
fn append_entry(journal: &mut Journal, entry: &Happened) -> Result<(), AllocError> {
    match entry {
        Happened::Write(write) => append_write(journal, write.key.try_copy()?, write),
        Happened::Compaction(_) => Ok(()),
    }
}

/// Appends the writes of what has happened to a journal.
fn append_writes(journal: &mut Journal, happened: &[Happened]) -> Result<(), AllocError> {
    for entry in happened {
        append_entry(journal, entry)?;
    }
    Ok(())
}

/// Returns the writes of what has happened.
fn writes_of(alloc: Global, happened: &[Happened]) -> Result<Journal, AllocError> {
    let mut journal = Journal::new(alloc);
    append_writes(&mut journal, happened)?;
    Ok(journal)
}

/// Returns whether these objects are all that is published.
fn shows(alloc: Global, published: &Indexed, listed: &[Member<'_>]) -> Result<bool, AllocError> {
    let shown = published.list(alloc)?;
    are_same(alloc, &shown, listed)
}

/// Returns whether what is published is the list at its revision, by a journal.
fn shows_list_by(
    alloc: Global,
    published: &Indexed,
    writes: &Journal,
    view: &View,
) -> Result<bool, AllocError> {
    let listed = writes.list_at(alloc, view, published.revision())?;
    shows(alloc, published, &listed)
}

/// Returns whether what is published of a kind is the server's list at its revision, by the journal of all that has happened.
fn shows_list(alloc: Global, cluster: &Cluster, kind: Kind) -> Result<bool, AllocError> {
    let writes = writes_of(alloc, cluster.journal())?;
    let view = View::unfiltered(alloc, kind, None);
    shows_list_by(alloc, cluster.published(kind), &writes, &view)
}

/// Takes a random step, and returns the kind of which something was published by it, if it was.
fn published_kind(
    alloc: Global,
    cluster: &mut Cluster,
    numbers: &mut Numbers,
) -> Result<Option<Kind>, AllocError> {
    match take(alloc, cluster, numbers)? {
        ClusterOutcome::Published(kind, _, _) => Ok(Some(kind)),
        _ => Ok(None),
    }
}

/// Takes a random step, and returns whether what was published by it is the server's list, if something was.
fn shown_by_step(
    alloc: Global,
    cluster: &mut Cluster,
    numbers: &mut Numbers,
) -> Result<Option<bool>, AllocError> {
    match published_kind(alloc, cluster, numbers)? {
        Some(kind) => Ok(Some(shows_list(alloc, cluster, kind)?)),
        None => Ok(None),
    }
}

/// Takes random steps of a cluster, and returns how often something was published, and whether it was the server's list each time.
fn publishes_in(alloc: Global, cluster: &mut Cluster) -> Result<(u64, bool), AllocError> {
    let mut numbers = Numbers { state: 1 };
    let mut published = 0_u64;
    let mut are_lists = true;
    for _ in 0..STEPS {
        if let Some(is_list) = shown_by_step(alloc, cluster, &mut numbers)? {
            published = published.saturating_add(1);
            are_lists &= is_list;
        }
    }
    Ok((published, are_lists))
}

/// Takes random steps of a cluster, and returns whether something was published often, and was the server's list each time.
fn shows_lists(alloc: Global, cluster: &mut Cluster) -> Result<bool, AllocError> {
    let (published, are_lists) = publishes_in(alloc, cluster)?;
    Ok(published > 500 && are_lists)
}

/// Takes random steps of a cluster whose followers begin so, and returns whether something was published often, and was the server's list each
/// time.
fn publishes_lists(alloc: Global, initial: InitialSync) -> Result<bool, AllocError> {
    let mut cluster = Cluster::open(alloc, 16, initial)?;
    let shows_lists = shows_lists(alloc, &mut cluster);
    drop(cluster);
    shows_lists
}

#[test]
fn each_published_map_is_the_list_at_its_revision(rt: HostRuntime) {
    assert_eq!(rt; publishes_lists(rt.alloc(), InitialSync::List), Ok(true));
}

#[test]
fn so_is_each_map_of_streams_of_initial_events(rt: HostRuntime) {
    assert_eq!(rt; publishes_lists(rt.alloc(), InitialSync::Stream), Ok(true));
}
