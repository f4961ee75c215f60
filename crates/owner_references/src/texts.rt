//! Texts of owner references, which may be left out.
ghost use Rattle.std.specs.Prelude.{◌≡◌, option_map};
ghost use Rattle.spec_client_go.specs.OwnerReferences.{is_text};

/// Returns whether a text is there, and is this one. It takes no memory.
pub fn is_text(text: &str, found: Option<&str>) -> bool
    ensures { result ≡ is_text text.now (option_map (λ s. s.now) found.entry) }
{
    match found {
        Some(found) => text == found,
        None => false,
    }
}
