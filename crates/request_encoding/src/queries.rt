//! Queries of collections.
ghost use Rattle.std.specs.Prelude.{◌≡◌, [], ◌++◌, IfOk, OnOk, map, option_map, string_bytes};
ghost use Rattle.form_urlencoded.specs.Form.{extend_pairs, pair_text};
ghost use Rattle.request_encoding.specs.Targets.{selecting, query_text};

use form_urlencoded::Serializer;
use std::alloc::{AllocError, Global};

/// Returns the form of a selector, where there is one.
fn selecting(alloc: Global, selector: Option<&str>) -> Result<Serializer, AllocError>
    ensures prefix { IfOk result (λ f. f.prefix ≡ []) }
    ensures form { IfOk result (λ f. f.form ≡ extend_pairs [] (selecting (option_map (λ t. t.now) selector.entry))) }
{
    let mut form = Serializer::new(String::new(alloc));
    match selector {
        Some(text) => {
            form.append_pair("labelSelector", text)?;
            Ok(form)
        }
        None => Ok(form),
    }
}

/// Returns the form of a selector, where there is one, and these parameters.
fn form_text(
    alloc: Global,
    selector: Option<&str>,
    parameters: &[(&str, &str)],
) -> Result<String, AllocError>
    ensures { IfOk result (λ t. string_bytes t ≡ extend_pairs [] (selecting (option_map (λ t. t.now) selector.entry) ++ map pair_text parameters.now)) }
{
    let mut form = selecting(alloc, selector)?;
    form.extend_pairs(parameters)?;
    Ok(form.finish())
}

/// Adds to a path the query of a selector, where there is one, and these parameters. The error is running out of memory.
pub(crate) fn push_query(
    alloc: Global,
    target: &mut String,
    selector: Option<&str>,
    parameters: &[(&str, &str)],
) -> Result<(), AllocError>
    ensures { OnOk result (string_bytes target.new ≡ string_bytes target.old ++ query_text (selecting (option_map (λ t. t.now) selector.entry) ++ map pair_text parameters.now)) }
{
    if selector.is_none() && parameters.is_empty() {
        return Ok(());
    }
    let form = form_text(alloc, selector, parameters)?;
    target.push_str("?")?;
    target.push_str(form.as_str())?;
    Ok(())
}
