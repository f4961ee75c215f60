//! The states of a store, and how they come of one another.
use crate::askings::Asking;
use crate::entries::StoreEntry;
use baton::Law;
use server::Server;
use std::marker::PhantomData;

/// A store begins with nothing in it and takes in entry after entry. Each write is that of a request that may be asked.
pub struct StoreLaw<A> {
    asking: PhantomData<A>,
}

impl<A: Asking> Law<Server> for StoreLaw<A> {
    ghost use Rattle.spec_server.specs.Servers.{after_entries};
    ghost use Rattle.desk.specs.Histories.{IsOpening, MayFollow};

    type Entry = StoreEntry;

    ghost opens = { IsOpening };

    ghost gives = { after_entries };

    ghost follows = { MayFollow A.MayAsk };
}
