//! What commands make of pods.
ghost use Rattle.std.specs.Prelude.{◌≡◌, IfOk, length, map, filter, filter_map, option_map, string_bytes};
ghost use Rattle.spec_sim.specs.Turns.{creates_pod, pod_deleted};
ghost use Rattle.reconcile_types.specs.Commands.{command_of};
ghost use Rattle.reconcile_turn.specs.Pods.{commands_lent, makes_pods};

use meta::Kind;
use reconcile_types::Command;
use std::alloc::{AllocError, Global};

/// Returns whether a command creates a pod. It takes no memory.
fn creates_pod(command: &Command) -> bool
    ensures { result ≡ creates_pod (command_of command.now) }
{
    match command {
        Command::Create { object, .. } => object.kind() == Kind::Pod,
        _ => false,
    }
}

/// Returns the uid of the pod that a command deletes, if it deletes one. It takes no memory.
fn pod_deleted(command: &Command) -> Option<&str>
    ensures { option_map (λ s. s.now) result ≡ pod_deleted (command_of command.now) }
{
    match command {
        Command::Delete { key, uid, .. } if key.kind == Kind::Pod => uid.as_deref(),
        _ => None,
    }
}

/// Returns how many pods commands create. It takes no memory.
pub fn creations(commands: &[&Command]) -> usize
    ensures { result ≡ length (filter creates_pod (commands_lent commands.now)) }
{
    let mut count = 0;
    for command in commands {
        if creates_pod(command) {
            count += 1;
        }
    }
    count
}

/// Returns the uids of the pods that commands delete. The error is running out of memory.
pub fn deletions(alloc: Global, commands: &[&Command]) -> Result<Vec<String>, AllocError>
    ensures { IfOk result (λ v. map string_bytes v.items ≡ filter_map pod_deleted (commands_lent commands.now)) }
{
    let mut uids = Vec::new(alloc);
    for command in commands {
        if let Some(uid) = pod_deleted(command) {
            uids.push(String::from_str(alloc, uid)?)?;
        }
    }
    Ok(uids)
}

/// Returns whether commands create or delete pods. It takes no memory.
pub fn makes_pods(commands: &[Command]) -> bool
    ensures { result ≡ makes_pods (map command_of commands.now) }
{
    for command in commands {
        if creates_pod(command) || pod_deleted(command).is_some() {
            return true;
        }
    }
    false
}
