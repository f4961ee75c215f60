//! What a reconcile asked, and what came of it.
ghost use Rattle.std.specs.Prelude.{◌≡◌, IfOk};
ghost use Rattle.controller_simulation.specs.Answers.{came_of};

use http_client::{Answer, HttpReply};
use std::alloc::{AllocError, Global};

/// A request, as a line (`scripted_api::line_of`), and what came of it.
#[derive(Drop)]
pub struct PastRequest {
    pub line: String,
    pub answer: Answer,
}

/// Returns a copy of what came of a request. The error is running out of memory.
pub fn copied(alloc: Global, answer: &Answer) -> Result<Answer, AllocError>
    ensures { IfOk result (λ copy. came_of copy ≡ came_of answer.now) }
{
    match answer {
        Answer::Replied(reply) => {
            let mut body = Vec::new(alloc);
            body.extend_from_slice(reply.body.as_slice())?;
            Ok(Answer::Replied(HttpReply {
                code: reply.code,
                retry_after: reply.retry_after,
                body,
            }))
        }
        Answer::NotSent => Ok(Answer::NotSent),
        Answer::Lost => Ok(Answer::Lost),
    }
}
