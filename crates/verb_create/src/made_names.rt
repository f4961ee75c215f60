//! The names that the server makes.
ghost use Rattle.std.specs.Prelude.{◌≡◌, ◌+◌, ◌<◌, ◌%◌, ◌++◌, IfOk, OnOk, string_bytes, slice_get, take, unwrap_or};
ghost use Rattle.std.specs.Str.Lossy.{utf8_lossy};
ghost use Rattle.spec_api.specs.GeneratedNames.{alphabet, suffix, made_name};
ghost use Rattle.spec_api.specs.Verbs.{is_free};

use object_keys::Key;
use spec_api::kinds::Kind;
use std::alloc::{AllocError, Global};
use store::Store;

/// The letters and digits of what is added, which spell no words (Kubernetes API machinery, SafeEncodeString).
const ALPHABET: &[u8; 27] = b"bcdfghjklmnpqrstvwxz2456789";

/// How many of them are added.
const LETTERS: u32 = 5;

/// How many bytes of what is given stay.
const LONGEST_BASE: usize = 58;

/// How many names are tried.
const TRIES: u64 = 8;

/// Returns the last digit of a number in base 27.
fn letter(number: u64) -> u8
    ensures value { result ≡ unwrap_or (slice_get alphabet (number % 27)) 0 }
    ensures ascii { result < 128 }
{
    ALPHABET[(number % 27) as usize]
}

/// Adds the last digits of a number in base 27.
fn push_suffix(name: &mut String, letters: u32, number: u64) -> Result<(), AllocError>
    ensures { OnOk result (string_bytes name.new ≡ string_bytes name.old ++ suffix letters number) }
{
    if letters == 0 {
        return Ok(());
    }
    push_suffix(name, letters - 1, number / 27)?;
    name.push(letter(number) as char)
}

/// Returns what is given, cut to 58 bytes; a character that is cut through becomes U+FFFD.
fn base(alloc: Global, given: &str) -> Result<String, AllocError>
    ensures { IfOk result (λ b. string_bytes b ≡ utf8_lossy (take 58 given.now)) }
{
    let bytes = given.as_bytes();
    if bytes.len() <= LONGEST_BASE {
        return String::from_utf8_lossy(alloc, bytes);
    }
    String::from_utf8_lossy(alloc, &bytes[..LONGEST_BASE])
}

/// Returns the key whose name is a base with the digits of a number behind it.
fn numbered_key(
    alloc: Global,
    kind: Kind,
    namespace: &str,
    base: &str,
    number: u64,
) -> Result<Key, AllocError>
    ensures kind { IfOk result (λ k. k.kind ≡ kind) }
    ensures namespace { IfOk result (λ k. string_bytes k.namespace ≡ namespace.now) }
    ensures name { IfOk result (λ k. string_bytes k.name ≡ base.now ++ suffix 5 number) }
{
    let mut name = String::from_str(alloc, base)?;
    push_suffix(&mut name, LETTERS, number)?;
    Ok(Key {
        kind,
        namespace: String::from_str(alloc, namespace)?,
        name,
    })
}

/// Returns whether no object is under a key.
fn is_free(store: &Store, key: &Key) -> bool
    ensures { result ≡ is_free key.now.kind (string_bytes key.now.namespace) store.now.members (string_bytes key.now.name) }
{
    store.get(key).is_none()
}

/// Returns the key of a new object whose name is made of what is given: the first of eight that is free, each made of the next
/// number from the next revision on; where none is, the first of them. The error is running out of memory.
pub fn made_key(
    alloc: Global,
    store: &Store,
    kind: Kind,
    namespace: &str,
    given: &str,
) -> Result<Key, AllocError>
    ensures kind { IfOk result (λ k. k.kind ≡ kind) }
    ensures namespace { IfOk result (λ k. string_bytes k.namespace ≡ namespace.now) }
    ensures name { IfOk result (λ k. string_bytes k.name
        ≡ made_name (is_free kind namespace.now store.now.members) given.now (store.now.revision + 1)) }
{
    let base = base(alloc, given)?;
    let base = base.as_str();
    let first = store.revision() + 1;
    for tries in 0..TRIES {
        let key = numbered_key(alloc, kind, namespace, base, first + tries)?;
        if is_free(store, &key) {
            return Ok(key);
        }
    }
    let key = numbered_key(alloc, kind, namespace, base, first)?;
    Ok(key)
}
