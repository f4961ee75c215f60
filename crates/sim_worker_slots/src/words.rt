//! Words of a line.
ghost use Rattle.std.specs.Prelude.{◌≡◌, ◌++◌, ◌∷◌, [], IfOk, OnOk, option_map, decimal};
ghost use Rattle.object_keys.specs.Keys.{key_of};
ghost use Rattle.spec_sim.specs.ControlPlaneOutcomeTexts.{controller_text, key_text};

use object_keys::Key;
use spec_api::kinds::Kind;
use spec_client_go::controller::Controller;
use std::alloc::{AllocError, Global};

/// Returns a line that begins with a word. The error is running out of memory.
pub(crate) fn begin(alloc: Global, word: &str) -> Result<Vec<u8>, AllocError>
    ensures { IfOk result (λ l. l.items ≡ word.now) }
{
    let mut line = Vec::new(alloc);
    line.extend_from_slice(word.as_bytes())?;
    Ok(line)
}

/// Adds a space and a word. The error is running out of memory.
pub(crate) fn push(line: &mut Vec<u8>, word: &str) -> Result<(), AllocError>
    ensures { OnOk result (line.new.items ≡ line.old.items ++ (32 ∷ word.now)) }
{
    line.push(b' ')?;
    line.extend_from_slice(word.as_bytes())?;
    Ok(())
}

/// Adds a space and a number. The error is running out of memory.
pub(crate) fn push_number(alloc: Global, line: &mut Vec<u8>, number: u64) -> Result<(), AllocError>
    ensures { OnOk result (line.new.items ≡ line.old.items ++ (32 ∷ decimal number)) }
{
    let digits = number.to_string(alloc)?;
    push(line, digits.as_str())
}

/// Adds a slash and a part of a key. The error is running out of memory.
fn push_part(line: &mut Vec<u8>, part: &str) -> Result<(), AllocError>
    ensures { OnOk result (line.new.items ≡ line.old.items ++ (47 ∷ part.now)) }
{
    line.push(b'/')?;
    line.extend_from_slice(part.as_bytes())?;
    Ok(())
}

/// Adds a space and the key of an object, by its resource, namespace and name. The error is running out of memory.
pub(crate) fn push_named(
    line: &mut Vec<u8>,
    kind: Kind,
    namespace: &str,
    name: &str,
) -> Result<(), AllocError>
    ensures { OnOk result (line.new.items ≡ line.old.items ++ (32 ∷ key_text (record { kind = kind; namespace = namespace.now; name = name.now }))) }
{
    push(line, kind.plural())?;
    push_part(line, namespace)?;
    push_part(line, name)
}

/// Adds a space and a key. The error is running out of memory.
pub(crate) fn push_key(line: &mut Vec<u8>, key: &Key) -> Result<(), AllocError>
    ensures { OnOk result (line.new.items ≡ line.old.items ++ (32 ∷ key_text (key_of key.now))) }
{
    push_named(line, key.kind, key.namespace.as_str(), key.name.as_str())
}

/// Returns the word for a controller. It takes no memory.
pub(crate) fn controller(controller: Controller) -> &'static str
    ensures { result.now ≡ controller_text controller }
{
    match controller {
        Controller::ReplicaSet => "rs",
        Controller::Deployment => "deploy",
        Controller::Collector => "gc",
    }
}

/// Ends a line. The error is running out of memory.
pub(crate) fn end(line: Vec<u8>) -> Result<Vec<u8>, AllocError>
    ensures { IfOk result (λ l. l.items ≡ line.items ++ 10 ∷ []) }
{
    let mut line = line;
    line.push(b'\n')?;
    Ok(line)
}
