//! What a type is in the table.

ghost use Rattle.gltf_schema.specs.Fields.{list_tree};
ghost use Rattle.gltf_schema.specs.Kind.{Kind, Any, ListOf, Object as object_kind};
ghost use Rattle.gltf_schema.specs.Tree.{Tree, absent, object, tree_or_absent};

use crate::schema::Object;

/// What a type is in the table. Reading and writing take it from here. Validation states it again,
/// in `Visitable` of `gltf_validation_objects`; laws say of each object that both state the same.
pub trait Tabled {
    /// The kind of the type's values; any JSON, for a type that the table doesn't have.
    ghost kind: { Kind } = { Any };

    /// A value as the table sees it.
    ghost tree: { Self → Tree } = { λ _. absent };
}

impl<T: Object> Tabled for T {
    ghost kind = { object_kind T.rule T.rows T.keeps };

    ghost tree = { λ x. object (T.members x) (T.unknown x) };
}

impl<T: Tabled> Tabled for Option<T> {
    ghost kind = { T.kind };

    ghost tree = { tree_or_absent T.tree };
}

impl<T: Tabled> Tabled for Vec<T> {
    ghost kind = { ListOf T.kind };

    ghost tree = { λ v. list_tree T.tree v.items };
}

impl Tabled for () {}

impl Tabled for i32 {}
