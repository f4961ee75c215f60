//! What is followed of kinds that several watches name.
ghost use Rattle.std.specs.Prelude.{◌≡◌, ◌||◌, ◌++◌, not, IfOk, OnOk, IfSome, map, option_map};
ghost use Rattle.std.specs.List.{find, list_all};
ghost use Rattle.controller_watches.specs.Watched.{asked_by, scope_asked};
ghost use Rattle.controller_watches.specs.Joint.{agreed, all_joint, is_of, joint, joint_of, same_text, those};

use crate::watches::Watch;
use spec_api::kinds::Kind;
use std::alloc::{AllocError, Global};

/// Returns whether there is the same text, or none, in both.
fn same_text(one: Option<&str>, other: Option<&str>) -> bool
    ensures { result ≡ same_text (option_map (λ t. t.now) one.entry) (option_map (λ t. t.now) other.entry) }
{
    match (one, other) {
        (None, None) => true,
        (None, Some(_)) => false,
        (Some(_), None) => false,
        (Some(one), Some(other)) => one.as_bytes() == other.as_bytes(),
    }
}

/// Returns whether a watch is of this namespace, or of none where it is none, or is of another kind.
fn agrees_in_namespace(watch: &Watch<'_>, kind: Kind, namespace: Option<&str>) -> bool
    ensures { result ≡ (not (is_of kind watch.now) || same_text (scope_asked watch.now).namespace (option_map (λ t. t.now) namespace.entry)) }
{
    watch.kind != kind || same_text(watch.namespace, namespace)
}

/// Returns whether a watch has this selector, or none where it is none, or is of another kind.
fn agrees_in_selector(watch: &Watch<'_>, kind: Kind, selector: Option<&str>) -> bool
    ensures { result ≡ (not (is_of kind watch.now) || same_text (scope_asked watch.now).selector (option_map (λ t. t.now) selector.entry)) }
{
    watch.kind != kind || same_text(watch.selector, selector)
}

/// Returns whether all watches of a kind are of this namespace, or all of none where it is none.
fn all_are_in(watches: &[Watch<'_>], kind: Kind, namespace: Option<&str>) -> bool
    ensures { result ≡ list_all (λ w. not (is_of kind w) || same_text (scope_asked w).namespace (option_map (λ t. t.now) namespace.entry)) watches.now }
{
    for watch in watches {
        if !agrees_in_namespace(watch, kind, namespace) {
            return false;
        }
    }
    true
}

/// Returns whether all watches of a kind have this selector, or none of them has one where it is none.
fn all_select_by(watches: &[Watch<'_>], kind: Kind, selector: Option<&str>) -> bool
    ensures { result ≡ list_all (λ w. not (is_of kind w) || same_text (scope_asked w).selector (option_map (λ t. t.now) selector.entry)) watches.now }
{
    for watch in watches {
        if !agrees_in_selector(watch, kind, selector) {
            return false;
        }
    }
    true
}

/// Returns the namespace in which all watches of a kind agree, if they do.
fn joint_namespace<'a>(watches: &[Watch<'a>], kind: Kind, first: &Watch<'a>) -> Option<&'a str>
    ensures { option_map (λ t. t.now) result ≡ agreed (λ s. s.namespace) kind watches.now first.now }
{
    if all_are_in(watches, kind, first.namespace) {
        first.namespace
    } else {
        None
    }
}

/// Returns the selector in which all watches of a kind agree, if they do.
fn joint_selector<'a>(watches: &[Watch<'a>], kind: Kind, first: &Watch<'a>) -> Option<&'a str>
    ensures { option_map (λ t. t.now) result ≡ agreed (λ s. s.selector) kind watches.now first.now }
{
    if all_select_by(watches, kind, first.selector) {
        first.selector
    } else {
        None
    }
}

/// Returns the first watch of a kind, if there is one.
fn first_of<'b, 'a>(watches: &'b [Watch<'a>], kind: Kind) -> Option<&'b Watch<'a>>
    ensures { option_map (λ w. w.now) result ≡ find (is_of kind) watches.now }
{
    watches.iter().find(|watch| watch.kind == kind)
}

/// Returns the smallest watch that holds all watches of a kind, if there are some: of one namespace where they agree in it, else of all; and with one
/// selector where they agree in it, else with none.
pub fn joint_watch<'a>(watches: &[Watch<'a>], kind: Kind) -> Option<Watch<'a>>
    ensures kind { IfSome result (λ w. w.kind ≡ kind) }
    ensures scope { option_map scope_asked result ≡ joint kind watches.now }
{
    let first = first_of(watches, kind)?;
    Some(Watch {
        kind,
        namespace: joint_namespace(watches, kind, first),
        selector: joint_selector(watches, kind, first),
    })
}

/// Adds a watch, if there is one. The error is running out of memory.
fn push_found<'a>(made: &mut Vec<Watch<'a>>, found: Option<Watch<'a>>) -> Result<(), AllocError>
    ensures { OnOk result (made.new.items ≡ made.old.items ++ those found.entry) }
{
    if let Some(watch) = found {
        made.push(watch)?;
    }
    Ok(())
}

/// Returns one watch for each of these kinds that is named. The error is running out of memory.
fn joint_of<'a>(
    alloc: Global,
    kinds: &[Kind],
    watches: &[Watch<'a>],
) -> Result<Vec<Watch<'a>>, AllocError>
    ensures { IfOk result (λ made. map asked_by made.items ≡ joint_of kinds.now watches.now) }
{
    let mut made = Vec::new(alloc);
    for kind in kinds {
        push_found(&mut made, joint_watch(watches, *kind))?;
    }
    Ok(made)
}

/// Returns one watch for each kind that is named: the smallest that holds all watches of the kind. Where one watch names it, that is as it was. The
/// error is running out of memory.
pub fn joint_watches<'a>(alloc: Global, watches: &[Watch<'a>]) -> Result<Vec<Watch<'a>>, AllocError>
    ensures { IfOk result (λ made. map asked_by made.items ≡ all_joint watches.now) }
{
    joint_of(alloc, &Kind::ALL, watches)
}
