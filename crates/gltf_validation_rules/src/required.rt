//! The extensions that a document requires (glTF 2.0, section 3.12).

ghost use Rattle.std.specs.Prelude.{◌≡◌, List, ◌∷◌, [], ◌++◌};
ghost use Rattle.std.specs.List.{list_any};
ghost use Rattle.std.specs.Str.{bytes_eq};
ghost use Rattle.gltf_base.specs.Steps.{Step, value};
ghost use Rattle.gltf_schema.specs.Tree.{text};
ghost use Rattle.gltf_validation_rules.specs.Report.{found_at};
ghost use Rattle.gltf_validation_rules.specs.Context.{rules_of};
ghost use Rattle.gltf_validation_rules.specs.Rules.{extension_faults};

use crate::rules::Rules;
use gltf_base::validation::Error;

/// What is wrong with a required extension of a name: `Unsupported` if the rules don't enable it.
pub fn extension_fault(rules: &Rules<'_>, name: &str) -> Option<Error>
    ensures { (base : List Step) → found_at result (base ++ value name.now ∷ [])
        ≡ extension_faults (rules_of rules.now).enabled (text name.now) base }
{
    if is_enabled(rules, name) {
        None
    } else {
        Some(Error::Unsupported)
    }
}

fn is_enabled(rules: &Rules<'_>, name: &str) -> bool
    ensures { result ≡ list_any (λ e. bytes_eq e name.now) (rules_of rules.now).enabled }
{
    rules.enabled.contains(&name)
}
