//! The lines by which outcomes are told, written into memory that was made ready before the step.
ghost use Rattle.std.specs.Prelude.{◌≡◌, codes, ◌++◌, ◌∷◌, ◌+◌, ◌≤◌, [], IfOk, length, decimal, vec_len, vec_capacity};
ghost use Rattle.spec_api.specs.Kinds.{plural};
ghost use Rattle.spec_sim.specs.OutcomeTexts.{outcome_text, end_words, words_line};
ghost use Rattle.sim_followers.specs.Outcomes.{outcome_of};
ghost use Rattle.sim_service.specs.Texts.{after_words};
ghost use Rattle.sim_service.specs.Ready.{IsReady};

use itoa::Buffer;
use sim_followers::ClusterOutcome;
use spec_api::kinds::Kind;
use spec_client_go::reflectors::End;
use std::alloc::{AllocError, Global};

/// The greatest length of a line that is no reply.
const LONGEST: usize = 128;

/// Returns an empty line, with room for each outcome that is no reply. The error is running out of memory.
pub fn ready(alloc: Global) -> Result<Vec<u8>, AllocError>
    ensures { IfOk result IsReady }
{
    Vec::with_capacity(alloc, LONGEST)
}

/// Adds a text, for which there is room.
fn push(line: &mut Vec<u8>, text: &str)
    requires { vec_len line.old + length text.now ≤ vec_capacity line.old }
    ensures items { line.new.items ≡ line.old.items ++ text.now }
    ensures len { vec_len line.new ≡ vec_len line.old + length text.now }
    ensures capacity { vec_capacity line.old ≤ vec_capacity line.new }
{
    match line.extend_from_slice(text.as_bytes()) {
        Ok(()) => {}
        Err(_) => unreachable!(),
    }
}

/// Adds a space and a word of at most twenty bytes, for which there is room.
fn push_word(line: &mut Vec<u8>, word: &str)
    requires short { length word.now ≤ 20 }
    requires room { vec_len line.old + 21 ≤ vec_capacity line.old }
    ensures items { line.new.items ≡ line.old.items ++ (32 ∷ word.now) }
    ensures len { vec_len line.new ≤ vec_len line.old + 21 }
    ensures capacity { vec_capacity line.old ≤ vec_capacity line.new }
{
    push(line, " ");
    push(line, word);
}

/// Adds a space and a number, for which there is room.
fn push_number(line: &mut Vec<u8>, number: u64)
    requires { vec_len line.old + 21 ≤ vec_capacity line.old }
    ensures items { line.new.items ≡ line.old.items ++ (32 ∷ decimal number) }
    ensures len { vec_len line.new ≤ vec_len line.old + 21 }
    ensures capacity { vec_capacity line.old ≤ vec_capacity line.new }
{
    let mut digits = Buffer::new();
    push_word(line, digits.format(number));
}

/// Adds a word of at most twenty bytes and the plural name of a kind, for which there is room.
fn push_kind(line: &mut Vec<u8>, word: &str, kind: Kind)
    requires short { length word.now ≤ 20 }
    requires room { vec_len line.old + 41 ≤ vec_capacity line.old }
    ensures items { line.new.items ≡ line.old.items ++ (word.now ++ (32 ∷ plural kind)) }
    ensures len { vec_len line.new ≤ vec_len line.old + 41 }
    ensures capacity { vec_capacity line.old ≤ vec_capacity line.new }
{
    push(line, word);
    push_word(line, kind.plural());
}

/// Adds why a watch is over, if it is, for which there is room.
fn push_end(line: &mut Vec<u8>, end: Option<End>)
    requires { vec_len line.old + 21 ≤ vec_capacity line.old }
    ensures items { line.new.items ≡ line.old.items ++ after_words (end_words end) }
    ensures len { vec_len line.new ≤ vec_len line.old + 21 }
    ensures capacity { vec_capacity line.old ≤ vec_capacity line.new }
{
    match end {
        None => {}
        Some(End::Expired) => push_word(line, "expired"),
        Some(End::Unreadable) => push_word(line, "unreadable"),
    }
}

/// Returns the line of a word, a kind and a number, written into an empty line with room for it.
fn with_number(line: Vec<u8>, word: &str, kind: Kind, number: u64) -> Vec<u8>
    requires short { length word.now ≤ 20 }
    requires ready { IsReady line }
    ensures { result.items ≡ words_line word.now (plural kind ∷ decimal number ∷ []) }
{
    let mut line = line;
    push_kind(&mut line, word, kind);
    push_number(&mut line, number);
    push(&mut line, "\n");
    line
}

/// Returns the line of a word, a kind and two numbers, written into an empty line with room for it.
fn with_numbers(line: Vec<u8>, word: &str, kind: Kind, first: u64, second: u64) -> Vec<u8>
    requires short { length word.now ≤ 20 }
    requires ready { IsReady line }
    ensures { result.items ≡ words_line word.now (plural kind ∷ decimal first ∷ decimal second ∷ []) }
{
    let mut line = line;
    push_kind(&mut line, word, kind);
    push_number(&mut line, first);
    push_number(&mut line, second);
    push(&mut line, "\n");
    line
}

/// Returns the line of what was fed, written into an empty line with room for it.
fn fed(line: Vec<u8>, kind: Kind, revision: u64, end: Option<End>) -> Vec<u8>
    requires ready { IsReady line }
    ensures { result.items ≡ words_line (codes "fed") (plural kind ∷ decimal revision ∷ end_words end) }
{
    let mut line = line;
    push_kind(&mut line, "fed", kind);
    push_number(&mut line, revision);
    push_end(&mut line, end);
    push(&mut line, "\n");
    line
}

/// Returns a line of this text, written into an empty line with room for it.
fn plain(line: Vec<u8>, text: &str) -> Vec<u8>
    requires short { length text.now ≤ 20 }
    requires ready { IsReady line }
    ensures { result.items ≡ text.now ++ 10 ∷ [] }
{
    let mut line = line;
    push(&mut line, text);
    push(&mut line, "\n");
    line
}

/// Returns the line of a watch that was refused, written into an empty line with room for it.
fn expired(line: Vec<u8>, kind: Kind) -> Vec<u8>
    requires ready { IsReady line }
    ensures { result.items ≡ words_line (codes "expired") (plural kind ∷ []) }
{
    let mut line = line;
    push_kind(&mut line, "expired", kind);
    push(&mut line, "\n");
    line
}

/// Returns the line by which an outcome is told, written into an empty line with room for it; a reply is a line already, or nothing.
pub fn told(line: Vec<u8>, outcome: ClusterOutcome) -> Vec<u8>
    requires ready { IsReady line }
    ensures { result.items ≡ outcome_text (outcome_of outcome) }
{
    match outcome {
        ClusterOutcome::Replied(text) => text,
        ClusterOutcome::NoStep => plain(line, "no step"),
        ClusterOutcome::Listed(kind, revision, count) => with_numbers(
            line, "listed", kind, revision, count,
        ),
        ClusterOutcome::Opened(kind, revision) => with_number(line, "opened", kind, revision),
        ClusterOutcome::Streaming(kind, revision) => with_number(line, "streaming", kind, revision),
        ClusterOutcome::Expired(kind) => expired(line, kind),
        ClusterOutcome::Sent(kind, count) => with_number(line, "sent", kind, count),
        ClusterOutcome::Fed(kind, revision, end) => fed(line, kind, revision, end),
        ClusterOutcome::Cut(kind, revision) => with_number(line, "cut", kind, revision),
        ClusterOutcome::Published(kind, revision, count) => {
            with_numbers(line, "published", kind, revision, count)
        }
        ClusterOutcome::Restarted => plain(line, "restarted"),
    }
}
