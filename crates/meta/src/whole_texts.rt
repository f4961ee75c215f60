//! An object's text, by its text as an item of a list.
ghost use Rattle.std.specs.Prelude.{◌≡◌, ◌≤◌, ◌++◌, ◌↔◌, length, IsTrue, IfSome, OnOk, string_bytes};
ghost use Rattle.meta.specs.WholeTexts.{AreIn, filled, named_member, version_member, kind_member};

use spec_api::kinds::Kind;
use std::alloc::AllocError;
use std::cmp::min;

/// How long the version is in an object's text with what parts it from what stands beside it, but for itself.
const VERSION_MEMBER_LEN: usize = 16;

/// Where an item's text lacks the version, and where the kind.
#[derive(Clone, Copy)]
pub(crate) struct Places {
    version: usize,
    kind: usize,
}

/// The text of an object beside that of its item: this with the version and the kind put in, as they stand in each object that names them as its
/// kind has them, or else a text of its own.
#[derive(Drop)]
pub(crate) enum WholeText {
    Filled(Places),
    Apart(String),
}

impl WholeText {
    ghost use Rattle.std.specs.Prelude.{◌≡◌, ◌++◌, OnOk, string_bytes};
    ghost use Rattle.meta.specs.WholeTexts.{Fits, given};

    /// Returns what is to be stored of an object's text beside that of its item.
    pub(crate) fn new(kind: Kind, text: String, item: &str) -> WholeText
        ensures fits { Fits result item.now }
        ensures given { given kind result item.now ≡ string_bytes text }
    {
        let places = likely_places(kind, text.as_bytes(), item.as_bytes());
        if is_filled(text.as_str(), kind, places, item) {
            return WholeText::Filled(places);
        }
        let mut text = text;
        text.shrink_to_fit();
        WholeText::Apart(text)
    }

    /// Adds the object's text to another. The error is running out of memory.
    pub(crate) fn push_to(
        &self,
        kind: Kind,
        item: &str,
        text: &mut String,
    ) -> Result<(), AllocError>
        requires { Fits self.now item.now }
        ensures { OnOk result (string_bytes text.new ≡ string_bytes text.old ++ given kind self.now item.now) }
    {
        match self {
            WholeText::Filled(places) => push_filled(kind, *places, item, text),
            WholeText::Apart(whole) => text.push_str(whole.as_str()),
        }
    }
}

/// Adds an item's text with the version and the kind put in. The error is running out of memory.
fn push_filled(kind: Kind, places: Places, item: &str, text: &mut String) -> Result<(), AllocError>
    requires { AreIn places item.now }
    ensures { OnOk result (string_bytes text.new ≡ string_bytes text.old ++ filled kind places item.now) }
{
    text.push_str(&item[..places.version])?;
    push_member("\"apiVersion\":\"", kind.api_version(), text)?;
    text.push_str(&item[places.version..places.kind])?;
    push_member("\"kind\":\"", kind.name(), text)?;
    text.push_str(&item[places.kind..])?;
    Ok(())
}

/// Adds a member that others follow, from what stands before its value.
fn push_member(opening: &str, value: &str, text: &mut String) -> Result<(), AllocError>
    ensures { OnOk result (string_bytes text.new ≡ string_bytes text.old ++ named_member opening.now value.now) }
{
    text.push_str(opening)?;
    text.push_str(value)?;
    text.push_str("\",")
}

/// Returns the places where the version and the kind are likely to be put in.
fn likely_places(kind: Kind, text: &[u8], item: &[u8]) -> Places {
    let version = likely_place(text, item, "\"apiVersion\":".as_bytes());
    let member_len = kind.api_version().len().saturating_add(VERSION_MEMBER_LEN);
    let after = min(version.saturating_add(member_len), text.len());
    let rest = likely_place(&text[after..], &item[version..], "\"kind\":".as_bytes());
    Places {
        version,
        kind: version + rest,
    }
}

/// Returns the last place up to which two texts are the same and where the first goes on with this, or 0.
fn likely_place(text: &[u8], item: &[u8], opening: &[u8]) -> usize
    ensures { result ≤ length item.now }
{
    let mut at = same_beginning(text, item);
    while at > 0 && !text[at..].starts_with(opening) {
        at -= 1;
    }
    at
}

/// Returns how long two texts are the same.
fn same_beginning(one: &[u8], other: &[u8]) -> usize
    ensures one { result ≤ length one.now }
    ensures other { result ≤ length other.now }
{
    let len = min(one.len(), other.len());
    for at in 0..len {
        if one[at] != other[at] {
            return at;
        }
    }
    len
}

/// Returns whether the text is the item's with the version and the kind put in at these places.
fn is_filled(text: &str, kind: Kind, places: Places, item: &str) -> bool
    ensures { IsTrue result → AreIn places item.now × (filled kind places item.now ≡ text.now) }
{
    are_in(places, item)
        && is_joined(
            text,
            kind,
            &item[..places.version],
            &item[places.version..places.kind],
            &item[places.kind..],
        )
}

/// Returns whether the places stand in their order, and no character is cut.
fn are_in(places: Places, item: &str) -> bool
    ensures { IsTrue result ↔ AreIn places item.now }
{
    places.version <= places.kind
        && item.is_char_boundary(places.version)
        && item.is_char_boundary(places.kind)
}

/// Returns whether the text is these three, with the version and the kind between them.
fn is_joined(text: &str, kind: Kind, first: &str, second: &str, third: &str) -> bool
    ensures { IsTrue result → text.now
        ≡ first.now ++ (version_member kind ++ (second.now ++ (kind_member kind ++ third.now))) }
{
    match after_both(text, kind, first, second) {
        Some(rest) => rest == third,
        None => false,
    }
}

/// Returns what follows these two, each with its member.
fn after_both<'a>(text: &'a str, kind: Kind, first: &str, second: &str) -> Option<&'a str>
    ensures { IfSome result (λ rest. text.now
        ≡ first.now ++ (version_member kind ++ (second.now ++ (kind_member kind ++ rest.now)))) }
{
    let rest = after(text, first)?;
    let rest = after_member(rest, "\"apiVersion\":\"", kind.api_version())?;
    let rest = after(rest, second)?;
    let rest = after_member(rest, "\"kind\":\"", kind.name())?;
    Some(rest)
}

/// Returns what follows a member, from what stands before its value.
fn after_member<'a>(text: &'a str, opening: &str, value: &str) -> Option<&'a str>
    ensures { IfSome result (λ rest. text.now ≡ named_member opening.now value.now ++ rest.now) }
{
    let rest = after(text, opening)?;
    let rest = after(rest, value)?;
    let rest = after(rest, "\",")?;
    Some(rest)
}

/// Returns what follows the beginning of a text.
fn after<'a>(text: &'a str, beginning: &str) -> Option<&'a str>
    ensures { IfSome result (λ rest. text.now ≡ beginning.now ++ rest.now) }
{
    text.strip_prefix(beginning)
}
