//! Options and lists.

ghost use Rattle.std.specs.Prelude.{◌≡◌, ◌+◌};
ghost use Rattle.gltf_schema.specs.Tree.{tree_or_absent};
ghost use Rattle.gltf_schema.specs.Fields.{list_tree};
ghost use Rattle.gltf_validation_rules.specs.SinkOutcome.{Walked};
ghost use Rattle.gltf_validation_rules.specs.Report.{each_at};
ghost use Rattle.gltf_validation.specs.ByType.{option_reports, list_reports, list_kind, reports_in};

use super::Validate;
use super::within::within;
use gltf_base::{Step, Steps};
use gltf_root::root::Root;
use gltf_validation_rules::{Context, HasContext, Rules, Sink, Stop};

impl<T: Validate> Validate for Option<T> {
    ghost kind = { T.kind };

    ghost tree = { tree_or_absent T.tree };

    ghost own = { option_reports T.own };

    ghost depth = { T.depth };

    /// Reports what is wrong in the value, if there is one, at the place of the option.
    fn validate_with<'a, S: Sink>(
        &'a self,
        rules: &Rules<'_>,
        root: &Root,
        path: &mut Steps<'a>,
        sink: &mut S,
    ) -> Result<(), Stop<S::Refusal>> {
        match self {
            Some(value) => value.validate_with(rules, root, path, sink),
            None => Ok(()),
        }
    }
}

impl<T: Validate> Validate for Vec<T> {
    ghost kind = { list_kind T.kind };

    ghost tree = { λ v. list_tree T.tree v.items };

    ghost own = { λ v. list_reports T.own v.items };

    ghost depth = { T.depth + 1 };

    /// Reports what is wrong in each item, in order, at the item's number.
    fn validate_with<'a, S: Sink>(
        &'a self,
        rules: &Rules<'_>,
        root: &Root,
        path: &mut Steps<'a>,
        sink: &mut S,
    ) -> Result<(), Stop<S::Refusal>> {
        each_item(self, &Context { rules, root }, path, sink)
    }
}

/// Validates each item of a list, at its number.
fn each_item<'a, T: Validate, C: HasContext, S: Sink>(
    items: &'a Vec<T>,
    context: &C,
    path: &mut Steps<'a>,
    sink: &mut S,
) -> Result<(), Stop<S::Refusal>>
    ensures { Walked S.next S.refuses path.old (S.state sink.old)
        (each_at (reports_in T.kind T.tree T.own (C.context context.now)) 0 items.now.items)
        (T.depth + 1) result path.new (S.state sink.new) }
{
    for (i, item) in items.iter().enumerate() {
        within(item, Step::Index(i), context, path, sink)?;
    }
    Ok(())
}
