//! The texts of selectors.
ghost use Rattle.std.specs.Prelude.{◌≡◌, codes, Some, [], ◌∷◌, string_bytes, option_map};
ghost use Rattle.std.specs.List.{slice_split};
ghost use Rattle.spec_api.specs.SelectorTexts.{value_in, is_comma, listed_values, set_operator, in_requirement, compared_requirement, comparison, plain_requirement, unblanked_requirement, requirement, parts, compared, before_last};
ghost use Rattle.spec_api.specs.Selectors.{label_key, label_value, requiring, each_read};
ghost use Rattle.selector.specs.Seen.{Reads, requirement_of, requirements_of, texts_of, now, compared_by};

use crate::cuts::{before_last, cut_at, cut_at_blank, first_part, trim};
use crate::faults::PartFault;
use crate::labels::Requirement;
use crate::owned::{own_key, own_value};
use spec_api::selectors::Operator;
use std::alloc::Global;

/// Returns a requirement without values.
fn bare(alloc: Global, key: &[u8], operator: Operator) -> Result<Requirement, PartFault>
    ensures { Reads requirement_of result (requiring (label_key key.now) operator (Some [])) }
{
    let key = own_key(alloc, key)?;
    Ok(Requirement {
        key,
        operator,
        values: Vec::new(alloc),
    })
}

/// Returns a requirement with one value.
pub(crate) fn single(
    alloc: Global,
    key: &[u8],
    operator: Operator,
    value: &[u8],
) -> Result<Requirement, PartFault>
    ensures { Reads requirement_of result (requiring (label_key key.now) operator (each_read label_value (value.now ∷ []))) }
{
    let key = own_key(alloc, key)?;
    let value = own_value(alloc, value)?;
    let mut values = Vec::new(alloc);
    values.push(value)?;
    Ok(Requirement {
        key,
        operator,
        values,
    })
}

fn own_values(alloc: Global, list: &[u8]) -> Result<Vec<String>, PartFault>
    ensures { Reads (λ v. texts_of v.items) result (each_read value_in (slice_split is_comma list.now)) }
{
    let mut values = Vec::new(alloc);
    let mut rest = list;
    while let Some((value, more)) = cut_at(rest, b',') {
        let value = own_value(alloc, trim(value))?;
        values.push(value)?;
        rest = more;
    }
    let value = own_value(alloc, trim(rest))?;
    values.push(value)?;
    Ok(values)
}

/// Returns the values between parentheses.
fn listed(alloc: Global, list: &[u8]) -> Result<Vec<String>, PartFault>
    ensures { Reads (λ v. texts_of v.items) result (listed_values list.now) }
{
    if trim(list).is_empty() {
        return Err(PartFault::Refused);
    }
    own_values(alloc, list)
}

fn set_operator(word: &[u8]) -> Option<Operator>
    ensures { result ≡ set_operator word.now }
{
    if word == b"in".as_slice() {
        Some(Operator::In)
    } else if word == b"notin".as_slice() {
        Some(Operator::NotIn)
    } else {
        None
    }
}

/// Returns the requirement of `k in (v,..)` or `k notin (v,..)`, cut at the parenthesis.
fn set(alloc: Global, head: &[u8], list: &[u8]) -> Result<Requirement, PartFault>
    ensures { Reads requirement_of result (in_requirement head.now list.now) }
{
    match cut_at_blank(head) {
        Some((key, word)) => match set_operator(trim(word)) {
            Some(operator) => match before_last(list, b')') {
                Some(inner) => {
                    let key = own_key(alloc, key)?;
                    let values = listed(alloc, inner)?;
                    Ok(Requirement {
                        key,
                        operator,
                        values,
                    })
                }
                None => Err(PartFault::Refused),
            },
            None => Err(PartFault::Refused),
        },
        None => Err(PartFault::Refused),
    }
}

/// Returns the parts of `k=v`, `k==v` or `k!=v`, cut at the first `=`.
pub(crate) fn compare<'t>(left: &'t [u8], right: &'t [u8]) -> (&'t [u8], Operator, &'t [u8])
    ensures { compared_by result ≡ compared (before_last 33 left.now) left.now right.now }
{
    if let Some(key) = before_last(left, b'!') {
        return (key, Operator::NotIn, right);
    }
    match right {
        [b'=', value @ ..] => (left, Operator::In, value),
        _ => (left, Operator::In, right),
    }
}

/// Returns a requirement that begins with neither a blank nor `!`.
fn plain(alloc: Global, text: &[u8]) -> Result<Requirement, PartFault>
    ensures { Reads requirement_of result (plain_requirement text.now) }
{
    if let Some((head, list)) = cut_at(text, b'(') {
        return set(alloc, head, list);
    }
    if let Some((left, right)) = cut_at(text, b'=') {
        let (key, operator, value) = compare(left, right);
        return single(alloc, trim(key), operator, trim(value));
    }
    bare(alloc, text, Operator::Exists)
}

fn requirement(alloc: Global, part: &[u8]) -> Result<Requirement, PartFault>
    ensures { Reads requirement_of result (requirement part.now) }
{
    let text = trim(part);
    match text {
        [first, key @ ..] => {
            if *first == b'!' {
                bare(alloc, trim(key), Operator::DoesNotExist)
            } else {
                plain(alloc, text)
            }
        }
        [] => Err(PartFault::Refused),
    }
}

/// Returns the requirements of a text that is not empty.
pub fn requirements(alloc: Global, text: &[u8]) -> Result<Vec<Requirement>, PartFault>
    ensures { Reads (λ v. requirements_of v.items) result (each_read requirement (parts text.now)) }
{
    let mut found = Vec::new(alloc);
    let mut rest = text;
    while let Some((part, more)) = first_part(rest) {
        let read = requirement(alloc, part)?;
        found.push(read)?;
        rest = more;
    }
    let read = requirement(alloc, rest)?;
    found.push(read)?;
    Ok(found)
}
