//! Keys and commands as texts, to be compared.
use object_keys::Key;
use reconcile_types::{Command, Version};
use std::alloc::{AllocError, Global};

/// Adds two words to a text, with a blank between them and a comma in the end.
pub(crate) fn tell(text: &mut String, first: &str, second: &str) -> Result<(), AllocError> {
    text.push_str(first)?;
    text.push(' ')?;
    text.push_str(second)?;
    text.push(',')
}

/// Adds the kinds and names of keys to a text.
pub(crate) fn tell_keys(text: &mut String, keys: &[Key]) -> Result<(), AllocError> {
    for key in keys {
        tell(text, key.kind.name(), key.name.as_str())?;
    }
    Ok(())
}

/// Returns a text that may be absent.
fn or_none(text: &Option<String>) -> &str {
    match text {
        Some(text) => text.as_str(),
        None => "none",
    }
}

/// Returns a version that may be absent.
fn version_text(version: &Option<Version>) -> &str {
    match version {
        Some(Version::Seen(version)) => version.as_str(),
        Some(Version::Answered) => "answered",
        None => "none",
    }
}

/// Adds what a command does to a text, with the uid and the version that a delete names.
fn tell_command(text: &mut String, command: &Command) -> Result<(), AllocError> {
    match command {
        Command::Create { object, .. } => tell(text, "create", object.name().unwrap_or("none")),
        Command::Update { key, .. } => tell(text, "update", key.name.as_str()),
        Command::UpdateStatus { key, .. } => tell(text, "status", key.name.as_str()),
        Command::Delete {
            key,
            uid,
            version,
            ..
        } => {
            tell(text, "delete", key.name.as_str())?;
            tell(text, or_none(uid), version_text(version))
        }
    }
}

/// Adds what commands do to a text.
pub(crate) fn tell_commands(text: &mut String, commands: &[Command]) -> Result<(), AllocError> {
    for command in commands {
        tell_command(text, command)?;
    }
    Ok(())
}

/// Returns the keys that a turn asks for, and the commands of its plan.
pub(crate) fn told(
    alloc: Global,
    keys: &[Key],
    commands: &[Command],
) -> Result<String, AllocError> {
    let mut text = String::new(alloc);
    tell_keys(&mut text, keys)?;
    tell_commands(&mut text, commands)?;
    Ok(text)
}
