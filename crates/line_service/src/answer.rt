//! What a line is answered.
ghost use Rattle.std.specs.Prelude.{◌≡◌, IfOk, IfErr, OnErr, None};
ghost use Rattle.line_service.specs.Answers.{text_of, is_refusal};
ghost use Rattle.line_service.specs.Replies.{MayBe, reply_or_refusal, next_or_same};

use crate::fault::RunFault;
use crate::service::LineService;
use std::alloc::Global;

/// What a line is answered.
#[derive(Drop)]
pub enum LineAnswer {
    /// Its reply.
    Reply(Vec<u8>),
    /// That there was no memory for it.
    Refusal(&'static [u8]),
}

impl LineAnswer {
    /// Returns the text. It takes no memory.
    pub(crate) fn text(&self) -> &[u8]
        ensures { result.now ≡ text_of self.now }
    {
        match self {
            LineAnswer::Reply(text) => text.as_slice(),
            LineAnswer::Refusal(text) => text,
        }
    }
}

/// Answers a line: by its reply, or where there is no memory for it, by what tells so, and then nothing has changed. The error is that there
/// is no memory, and nothing that tells so.
pub(crate) fn take<S: LineService>(
    alloc: Global,
    service: &mut S,
    line: &[u8],
) -> Result<LineAnswer, RunFault>
    ensures text { IfOk result (λ a. text_of a ≡ reply_or_refusal S.reply S.refusal service.old (line.now, is_refusal a)) }
    ensures state { IfOk result (λ a. service.new ≡ next_or_same S.next service.old (line.now, is_refusal a)) }
    ensures may { IfOk result (λ a. MayBe S.refusal (line.now, is_refusal a)) }
    ensures err { OnErr result (service.new ≡ service.old) }
    ensures fault { IfErr result (λ fault. fault ≡ RunFault.Want) }
    ensures untold { OnErr result (S.refusal line.now ≡ None) }
{
    match service.serve(alloc, line) {
        Ok(reply) => Ok(LineAnswer::Reply(reply)),
        Err(_) => match service.refused(line) {
            Some(text) => Ok(LineAnswer::Refusal(text)),
            None => Err(RunFault::Want),
        },
    }
}
