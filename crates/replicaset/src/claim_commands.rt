//! The commands by which a ReplicaSet releases and adopts pods, and the pods that are then its own.
ghost use Rattle.std.specs.Prelude.{◌≡◌, ◌++◌, IfOk, OnOk, map, option_map};
ghost use Rattle.std.specs.Option.{option_to_list};
ghost use Rattle.spec_api.specs.Checks.{requirements};
ghost use Rattle.object_keys.specs.Keys.{key_of};
ghost use Rattle.spec_reconcile.specs.PodClaims.{claims, own_pods};
ghost use Rattle.replicaset.specs.Ranks.{AreRead, pods_of};
ghost use Rattle.replicaset.specs.Relations.{claim_as, own_as};
ghost use Rattle.reconcile_types.specs.Commands.{command_of};
ghost use Rattle.reconcile_types.specs.Entries.{entry_of};

use crate::ranks::{Ranked, read};
use crate::references::released;
use crate::relations::Relation;
use meta::Object;
use object_keys::Key;
use owner_references::edits::with_controller;
use reconcile_types::{Command, Entry};
use selector::Selector;
use std::alloc::{AllocError, Global};

/// Returns the command that releases or adopts a pod, where the set does. The error is running out of memory.
fn claim(
    alloc: Global,
    key: &Key,
    set: &Object,
    may: bool,
    pod: &Entry<'_>,
    relation: Relation,
) -> Result<Option<Command>, AllocError>
    ensures { IfOk result (λ c. option_to_list (option_map command_of c)
        ≡ claim_as (key_of key.now) set.now.value may (entry_of pod.now) relation) }
{
    let object = match relation {
        Relation::Released => released(alloc, set, pod.object)?,
        Relation::Adoptable => {
            if !may {
                return Ok(None);
            }
            with_controller(alloc, key, set, pod.object)?
        }
        Relation::Own => return Ok(None),
        Relation::Other => return Ok(None),
    };
    let key = pod.key.try_copy()?;
    Ok(Some(Command::Update { key, object }))
}

/// Adds the command that releases or adopts a pod, where the set does. The error is running out of memory.
fn add_claim(
    alloc: Global,
    key: &Key,
    set: &Object,
    may: bool,
    pod: &Entry<'_>,
    relation: Relation,
    commands: &mut Vec<Command>,
) -> Result<(), AllocError>
    ensures { OnOk result (map command_of commands.new.items ≡ map command_of commands.old.items
        ++ claim_as (key_of key.now) set.now.value may (entry_of pod.now) relation) }
{
    if let Some(command) = claim(alloc, key, set, may, pod, relation)? {
        commands.push(command)?;
    }
    Ok(())
}

/// Adds a pod to the set's own, with what is read of it, where it is one. The error is running out of memory.
#[tactic(auto, using(crate::proofs::RankedPods::grown))]
fn add_own<'a>(
    may: bool,
    pod: &Entry<'a>,
    relation: Relation,
    own: &mut Vec<Ranked<'a>>,
) -> Result<(), AllocError>
    requires { AreRead own.old.items }
    ensures own { OnOk result (pods_of own.new.items ≡ pods_of own.old.items ++ own_as may relation (entry_of pod.now)) }
    ensures read { OnOk result (AreRead own.new.items) }
{
    if relation.is_own(may) {
        own.push(read(pod))?;
    }
    Ok(())
}

/// Adds the commands that release and adopt pods, pod by pod, and returns the pods that are then the set's own: those that it
/// owns and that match, and those that it adopts. Each pod is read once. The error is running out of memory.
pub(crate) fn claim_pods<'a>(
    alloc: Global,
    key: &Key,
    set: &Object,
    selector: &Option<Selector>,
    may: bool,
    pods: &[Entry<'a>],
    commands: &mut Vec<Command>,
) -> Result<Vec<Ranked<'a>>, AllocError>
    requires { selector.now ≡ requirements set.now.value }
    ensures claims { OnOk result (map command_of commands.new.items
        ≡ map command_of commands.old.items ++ claims (key_of key.now) set.now.value may (map entry_of pods.now)) }
    ensures own { IfOk result (λ v. pods_of v.items ≡ own_pods set.now.value may (map entry_of pods.now)) }
    ensures read { IfOk result (λ v. AreRead v.items) }
{
    let mut own = Vec::new(alloc);
    for pod in pods {
        let relation = Relation::of(set, selector, pod.object);
        add_claim(alloc, key, set, may, pod, relation, commands)?;
        add_own(may, pod, relation, &mut own)?;
    }
    Ok(own)
}
