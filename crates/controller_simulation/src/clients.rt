//! What other clients do at the server of a world.
use crate::asking::asked;
use crate::fates::Fate;
use crate::worlds::ControllerWorld;
use http_client::Answer;
use keyed_queues::Named;
use request_parts::Request;
use scripted_api::line_of;
use sim_steps::Delivery;
use std::alloc::{AllocError, Global};

impl<K: Named> ControllerWorld<K> {
    ghost use Rattle.std.specs.Prelude.{◌≡◌, IfOk, OnErr};
    ghost use Rattle.keyed_board.specs.Said.{said};
    ghost use Rattle.request_parts.specs.Requests.{request_of};
    ghost use Rattle.controller_simulation.specs.Clients.{Puts};

    /// Has a client make a request of the server, as a create, an update or a delete of an object, and returns what comes of it; nothing where the request
    /// cannot be told over HTTP. The error is running out of memory, and changes nothing.
    pub fn put(&mut self, alloc: Global, request: &Request) -> Result<Option<Answer>, AllocError>
        ensures puts { IfOk result (Puts (request_of request.now) self.old.cluster self.new.cluster) }
        ensures board { said K.order K.says self.new.board ≡ said K.order K.says self.old.board }
        ensures turns { self.new.turns ≡ self.old.turns }
        ensures err { OnErr result (self.new.cluster ≡ self.old.cluster) }
    {
        let Some(line) = line_of(alloc, request)? else {
            return Ok(None);
        };
        let fate = Fate::Sent(Delivery::Delivered);
        let answer = asked(alloc, &mut self.cluster, line.as_str().as_bytes(), fate)?;
        Ok(Some(answer))
    }
}
