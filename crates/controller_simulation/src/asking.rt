//! Requests of workers, made of the simulated server.
ghost use Rattle.std.specs.Prelude.{◌≡◌, ◌++◌, ◌∷◌, None, IfOk, IfSome, OnErr, OnOk, decimal};
ghost use Rattle.sim_followers.specs.Outcomes.{outcome_of};
ghost use Rattle.controller_simulation.specs.Answers.{came_of};
ghost use Rattle.controller_simulation.specs.Requests.{Comes, ComesOfSent, IsReply, IsSaid, after_request, after_sent, refusal_of};

use crate::fates::Fate;
use http_client::{Answer, HttpReply};
use sim_cluster::Cluster;
use sim_followers::ClusterOutcome;
use sim_steps::{Delivery, Step};
use std::alloc::{AllocError, Global};

/// Reads a reply line: a code, a blank and a body. The error is running out of memory.
fn read_reply(alloc: Global, line: &str) -> Result<Option<HttpReply>, AllocError>
    ensures { IfOk result (λ reply. IfSome reply (λ r. (line.now ≡ decimal r.code ++ (32 ∷ r.body.items)) × (r.retry_after ≡ None))) }
{
    let Some((word, rest)) = line.split_once(' ') else {
        return Ok(None);
    };
    let Ok(code) = word.parse::<u16>() else {
        return Ok(None);
    };
    if code.to_string(alloc)?.as_str() != word {
        return Ok(None);
    }
    let mut body = Vec::new(alloc);
    body.extend_from_slice(rest.as_bytes())?;
    Ok(Some(HttpReply {
        code,
        retry_after: None,
        body,
    }))
}

/// Returns what a reply line says, or that nothing came back where it is none, or there is no memory for it.
fn said(alloc: Global, line: &[u8]) -> Answer
    ensures { IsSaid line.now (came_of result) }
{
    let Ok(text) = str::from_utf8(line) else {
        return Answer::Lost;
    };
    match read_reply(alloc, text) {
        Ok(Some(reply)) => Answer::Replied(reply),
        Ok(None) => Answer::Lost,
        Err(_) => Answer::Lost,
    }
}

/// Returns what comes back of what is told of a request.
fn reply_of(alloc: Global, told: &ClusterOutcome) -> Answer
    ensures { IsReply (outcome_of told.now) (came_of result) }
{
    match told {
        ClusterOutcome::Replied(line) => said(alloc, line.as_slice()),
        _ => Answer::Lost,
    }
}

/// Sends the server a line, and has it come through or not. The error is running out of memory, and changes nothing.
fn sent(
    alloc: Global,
    cluster: &mut Cluster,
    line: &[u8],
    delivery: Delivery,
) -> Result<Answer, AllocError>
    ensures cluster { OnOk result (cluster.new ≡ after_sent delivery line.now cluster.old) }
    ensures came { IfOk result (λ answer. ComesOfSent delivery line.now cluster.old (came_of answer)) }
    ensures err { OnErr result (cluster.new ≡ cluster.old) }
{
    match delivery {
        Delivery::Delivered => {
            let told = cluster.step(alloc, Step::Request(line))?;
            Ok(reply_of(alloc, &told))
        }
        Delivery::AnswerLost => {
            cluster.step(alloc, Step::Request(line))?;
            Ok(Answer::Lost)
        }
        Delivery::Dropped => Ok(Answer::NotSent),
    }
}

/// Returns the answer that refuses a request with a status code. The error is running out of memory.
fn refused(alloc: Global, code: u16) -> Result<Answer, AllocError>
    ensures { IfOk result (λ answer. came_of answer ≡ refusal_of code) }
{
    let mut body = Vec::new(alloc);
    body.extend_from_slice(b"{}")?;
    Ok(Answer::Replied(HttpReply {
        code,
        retry_after: None,
        body,
    }))
}

/// Asks the server a line, which comes through or not, or is refused. What came of it is what the server replied, or nothing where the reply is lost, or
/// there is no memory for it; what is dropped was not sent, and what is refused was answered so, and the server has nothing of it. The error is running
/// out of memory, and changes nothing.
pub fn asked(
    alloc: Global,
    cluster: &mut Cluster,
    line: &[u8],
    fate: Fate,
) -> Result<Answer, AllocError>
    ensures cluster { OnOk result (cluster.new ≡ after_request fate line.now cluster.old) }
    ensures came { IfOk result (λ answer. Comes fate line.now cluster.old (came_of answer)) }
    ensures err { OnErr result (cluster.new ≡ cluster.old) }
{
    match fate {
        Fate::Sent(delivery) => sent(alloc, cluster, line, delivery),
        Fate::Refused(code) => refused(alloc, code),
    }
}
