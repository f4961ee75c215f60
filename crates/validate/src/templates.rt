//! Templates of Pods.
ghost use Rattle.std.specs.Prelude.{◌≡◌, List, codes, option_map};
ghost use Rattle.serde_json.specs.View.{view};
ghost use Rattle.spec_api.specs.Checks.{in_spec, is_selected};
ghost use Rattle.spec_api.specs.Metadata.{metadata};
ghost use Rattle.spec_api.specs.SelectorValues.{is_some_and};
ghost use Rattle.spec_api.specs.Selectors.{Requirement};

use crate::labels::are_labels;
use meta::Object;
use object_fields::in_spec;
use selector::Selector;
use serde_json::Value;

fn labels(template: &Value) -> Option<&Value>
    ensures { option_map (λ v. view v.now) result ≡ metadata (codes "labels") (view template.now) }
{
    template.get("metadata")?.get("labels")
}

fn is_selected(selector: &Selector, template: &Value) -> bool
    ensures { result ≡ is_selected selector.now (view template.now) }
{
    let labels = labels(template);
    are_labels(labels) && selector.matches(labels)
}

/// Returns whether an object's template is there, has valid labels, and is matched by the object's selector.
pub(crate) fn is_template(object: &Object, selector: &Option<Selector>) -> bool
    ensures { result
        ≡ is_some_and (λ (rs : List Requirement). is_some_and (is_selected rs) (in_spec (codes "template") object.now.value)) selector.now }
{
    match selector {
        Some(selector) => match in_spec(object, "template") {
            Some(template) => is_selected(selector, template),
            None => false,
        },
        None => false,
    }
}
