//! What a worker learns of its command.
ghost use Rattle.std.specs.Prelude.{◌≡◌};
ghost use Rattle.manager_worker.specs.Learning.{IsAccepted, IsAnswer, LearnsOf, begins_as_object, leaves_open};

use http_client::HttpReply;
use http_client::statuses::{
    BAD_GATEWAY, FIRST_REDIRECTION, GATEWAY_TIMEOUT, INTERNAL_SERVER_ERROR, OK,
};
use reconcile_turn::CommandAnswer;

/// What a worker learns of its command.
#[derive(Drop)]
pub enum Learnt {
    /// What became of it.
    Known(CommandAnswer),
    /// It was not sent: the command is to be made again in its turn.
    Again,
}

/// Returns the answer that the reply to an accepted command is; one whose body is no text is as good as lost.
fn accepted(reply: HttpReply) -> CommandAnswer
    ensures { IsAccepted reply.code reply.body.items result }
{
    let HttpReply { code, body, .. } = reply;
    match String::from_utf8(body) {
        Ok(text) => CommandAnswer::Accepted { code, text },
        Err(_) => CommandAnswer::Lost,
    }
}

/// Returns whether a body begins as a JSON object does.
fn begins_as_object(body: &[u8]) -> bool
    ensures { result ≡ begins_as_object body.now }
{
    body.starts_with(b"{")
}

/// Returns whether a reply leaves it open whether a command was carried out. A gateway may have passed it on before the connection behind it
/// broke, and some say so by a 500 with a plain text. An API server tells what it refuses by a Status, which is an object.
fn leaves_open(reply: &HttpReply) -> bool
    ensures { result ≡ leaves_open reply.now.code reply.now.body.items }
{
    reply.code == BAD_GATEWAY
        || reply.code == GATEWAY_TIMEOUT
        || (reply.code == INTERNAL_SERVER_ERROR && !begins_as_object(reply.body.as_slice()))
}

/// Returns the answer that a reply is (RFC 9110, Status Codes).
fn answer_of_reply(reply: HttpReply) -> CommandAnswer
    ensures { IsAnswer reply.code reply.body.items result }
{
    if (OK..FIRST_REDIRECTION).contains(&reply.code) {
        return accepted(reply);
    }
    if leaves_open(&reply) {
        return CommandAnswer::Lost;
    }
    CommandAnswer::Refused { code: reply.code }
}

/// Returns what a worker learns of what became of its request. One that was written, and to which no whole reply has come, may have been
/// carried out.
pub fn learnt_of(answer: http_client::Answer) -> Learnt
    ensures { LearnsOf answer result }
{
    match answer {
        http_client::Answer::Replied(reply) => Learnt::Known(answer_of_reply(reply)),
        http_client::Answer::NotSent => Learnt::Again,
        http_client::Answer::Lost => Learnt::Known(CommandAnswer::Lost),
    }
}
