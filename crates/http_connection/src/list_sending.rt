//! Lists, written as far as they are taken.
ghost use Rattle.std.specs.Prelude.{◌≤◌, length};
ghost use Rattle.http_connection.specs.Lists.{IsRefilled, ListSends, ListWrites, ListsOn};
ghost use Rattle.http_connection.specs.Stopping.{device_in, has_stopped};

use crate::listing::Listing;
use crate::noted::Noted;
use crate::phase::ConnectionPhase;
use crate::sending::{MOST_PIECES, Sent, write_on};
use api::Served;
use std::alloc::Global;
use std::io::Write;

/// How far a list was written.
#[derive(Drop)]
pub enum ListSent {
    /// To its end.
    Whole,
    /// As far as goes now, or so much that others are to go on: this is left.
    Left(Listing),
    /// The writer has stopped.
    Failed,
}

/// Writes on what is made of a list, and returns it then; nothing where the writer has stopped.
fn list_sent<W: Write + Drop>(listing: Listing, writer: &mut Noted<W>) -> Option<Listing>
    ensures { ListSends (has_stopped writer.new) (W.contents (device_in writer.old)) (W.contents (device_in writer.new)) listing result }
{
    match write_on(&listing.out, listing.taken, writer) {
        Sent::To(taken) => Some(Listing {
            taken,
            is_paused: false,
            ..listing
        }),
        Sent::Failed => None,
    }
}

/// Returns a list whose next piece is made, which is empty only where nothing is left to make; as it was, where there is no memory for it.
fn refilled(alloc: Global, listing: Listing) -> Result<Listing, Listing>
    requires written { length listing.out.items ≤ listing.taken }
    ensures { IsRefilled listing result }
{
    let mut listing = listing;
    match listing.rest.next_piece(alloc) {
        Ok(out) => Ok(Listing {
            out,
            taken: 0,
            pieces: listing.pieces.wrapping_add(1),
            ..listing
        }),
        Err(_) => Err(listing),
    }
}

/// Writes what is made of a list, and leaves what is still to be made of it: others are to go on meanwhile.
fn last_sent<W: Write + Drop>(listing: Listing, writer: &mut Noted<W>) -> ListSent
    ensures { ListWrites (has_stopped writer.new) (W.contents (device_in writer.old)) (W.contents (device_in writer.new)) listing result }
{
    let Some(listing) = list_sent(listing, writer) else {
        return ListSent::Failed;
    };
    let is_written = listing.taken >= listing.out.len();
    if is_written && !listing.rest.has_more() {
        return ListSent::Whole;
    }
    ListSent::Left(Listing {
        is_paused: is_written,
        ..listing
    })
}

/// Writes a list on, as far as that goes now, or so much that others are to go on: each piece is made once all before it was written. One for
/// whose next piece there is no memory is left.
fn list_written<W: Write + Drop>(alloc: Global, listing: Listing, writer: &mut Noted<W>) -> ListSent
    ensures { ListWrites (has_stopped writer.new) (W.contents (device_in writer.old)) (W.contents (device_in writer.new)) listing result }
{
    let mut listing = listing;
    for _ in 0..MOST_PIECES {
        match list_sent(listing, writer) {
            Some(now) => listing = now,
            None => return ListSent::Failed,
        }
        if listing.taken < listing.out.len() {
            return ListSent::Left(listing);
        }
        if !listing.rest.has_more() {
            return ListSent::Whole;
        }
        match refilled(alloc, listing) {
            Ok(more) => listing = more,
            Err(same) => return ListSent::Left(same),
        }
    }
    last_sent(listing, writer)
}

/// Writes a list on, and returns where its connection then stands. What is left of it is written by a later call. The connection is closed
/// once all is written.
pub(crate) fn list_on<W: Write + Drop>(
    alloc: Global,
    listing: Listing,
    writer: &mut Noted<W>,
) -> ConnectionPhase
    ensures { ListsOn (has_stopped writer.new) (W.contents (device_in writer.old)) (W.contents (device_in writer.new)) listing result }
{
    match list_written(alloc, listing, writer) {
        ListSent::Left(left) => ConnectionPhase::Listing(left),
        ListSent::Whole | ListSent::Failed => ConnectionPhase::Closing(Served::Asked),
    }
}
