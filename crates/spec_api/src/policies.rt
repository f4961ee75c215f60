//! What becomes of the dependents of an object that is deleted.

/// What becomes of an object's dependents, by the finalizer that its deletion waits for (Kubernetes, Garbage
/// Collection, Cascading deletion).
#[derive(Clone, Copy)]
pub enum Policy {
    /// They are left, without the reference to their owner: `orphan`.
    Orphan,
    /// They are deleted before the object is gone: `foregroundDeletion`.
    Foreground,
    /// They are deleted after the object is gone: no finalizer.
    Background,
}

/// The policy that a request names, if it names one.
#[derive(Clone, Copy)]
pub enum StatedPolicy {
    Nothing,
    Named(Policy),
    /// A name that no policy has.
    Unknown,
}

impl Policy {
    ghost use Rattle.std.specs.Prelude.{◌≡◌};
    ghost use Rattle.spec_api.specs.DeleteOptions.{policy_named};

    /// Returns the policy with this name.
    pub fn named(name: &str) -> Option<Policy>
        ensures { result ≡ policy_named name.now }
    {
        match name {
            "Orphan" => Some(Policy::Orphan),
            "Foreground" => Some(Policy::Foreground),
            "Background" => Some(Policy::Background),
            _ => None,
        }
    }
}

impl StatedPolicy {
    ghost use Rattle.std.specs.Prelude.{◌≡◌, option_map};
    ghost use Rattle.spec_api.specs.DeleteOptions.{stated_policy};

    /// Returns the policy that a text names, where there is a text.
    pub fn read(text: Option<&str>) -> StatedPolicy
        ensures { result ≡ stated_policy (option_map (λ s. s.now) text.entry) }
    {
        let Some(name) = text else {
            return StatedPolicy::Nothing;
        };
        match Policy::named(name) {
            Some(policy) => StatedPolicy::Named(policy),
            None => StatedPolicy::Unknown,
        }
    }
}
