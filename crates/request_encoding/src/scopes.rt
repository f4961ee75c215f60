//! Which objects of a kind a client lists and watches.
ghost use Rattle.std.specs.Prelude.{◌≡◌, true, option_map, string_bytes};
ghost use Rattle.request_encoding.specs.Given.{scope_with};
ghost use Rattle.request_encoding.specs.Scopes.{is_scope};

use crate::checks::{check_selector, is_callable, owned};
use crate::faults::ScopeFault;
use std::alloc::Global;

/// Which objects of a kind a client lists and watches: those of all namespaces or of one, and of these all or those that a selector of
/// labels selects (Kubernetes, Labels and Selectors).
#[derive(Drop)]
pub struct Scope {
    namespace: Option<String>,
    selector: Option<String>,
    ghost understood: { is_scope (scope_with (option_map string_bytes namespace) (option_map string_bytes selector)) ≡ true },
}

impl Scope {
    ghost use Rattle.std.specs.Prelude.{◌≡◌, IfOk, IfErr, option_map};
    ghost use Rattle.request_encoding.specs.Given.{Refuses, scope_with};
    ghost use Rattle.request_encoding.specs.Scopes.{everything};
    ghost use Rattle.request_encoding.specs.Seen.{scope_of};

    /// Returns the scope of all objects. It takes no memory.
    pub fn everything() -> Scope
        ensures { scope_of result ≡ everything }
    {
        Scope {
            namespace: None,
            selector: None,
        }
    }

    /// Returns the scope of a namespace, or of all, with the text of a selector, as `kubectl get -l` takes it, or without one. The errors are
    /// a text that no namespace can be called, one that is no selector, and running out of memory.
    pub fn new(
        alloc: Global,
        namespace: Option<&str>,
        selector: Option<&str>,
    ) -> Result<Scope, ScopeFault>
        ensures scope { IfOk result (λ s. scope_of s ≡ scope_with (option_map (λ t. t.now) namespace.entry) (option_map (λ t. t.now) selector.entry)) }
        ensures refused { IfErr result (Refuses (scope_with (option_map (λ t. t.now) namespace.entry) (option_map (λ t. t.now) selector.entry))) }
    {
        if !is_callable(namespace) {
            return Err(ScopeFault::Namespace);
        }
        check_selector(alloc, selector)?;
        Ok(Scope {
            namespace: owned(alloc, namespace)?,
            selector: owned(alloc, selector)?,
        })
    }

    /// Returns the namespace, if the scope is of one. It takes no memory.
    pub fn namespace(&self) -> Option<&str>
        ensures { option_map (λ t. t.now) result ≡ (scope_of self.now).namespace }
    {
        self.namespace.as_deref()
    }

    /// Returns the selector's text, if there is one. It takes no memory.
    pub fn selector(&self) -> Option<&str>
        ensures { option_map (λ t. t.now) result ≡ (scope_of self.now).selector }
    {
        self.selector.as_deref()
    }
}
