//! Laws of the definitions that contracts of this crate use. Each is the contract of a function
//! that does nothing.

ghost use Rattle.std.specs.Prelude.{◌≡◌, ◌↔◌, ◌∷◌, ℕ, List, [], true, false, Some, None, codes};
ghost use Rattle.serde_json.specs.Data.{Data, Members, member, no_members, number, object, unsigned};
ghost use Rattle.gltf_base.specs.Lists.{ListName};
ghost use Rattle.gltf_base.specs.Steps.{Step};
ghost use Rattle.gltf_base.specs.Keys.{Key, colors};
ghost use Rattle.gltf_schema.specs.Attributes.{index_at, last_index};
ghost use Rattle.gltf_schema.specs.Tree.{Tree, attributes};
ghost use Rattle.gltf_schema.specs.Kind.{Kind, Attributes};
ghost use Rattle.gltf_schema.specs.Plain.{is_plain};
ghost use Rattle.gltf_schema.specs.Sound.{is_sound};
ghost use Rattle.gltf_schema.specs.Invalid.{holds_invalid};
ghost use Rattle.gltf_schema.specs.OfKind.{is_of_kind};
ghost use Rattle.gltf_schema.specs.Read.{read};
ghost use Rattle.gltf_schema.specs.Refused.{IsRefusedAt};
ghost use Rattle.gltf_schema.specs.Write.{write};
ghost use Rattle.gltf_schema.specs.Nulls.{without_nulls};

/// What a sound kind reads is plain.
pub fn read_trees_are_plain()
    ensures { (kind : Kind) (d : Data) (t : Tree) → is_sound kind ≡ true → read kind d ≡ Some t
        → is_plain kind t ≡ true }
{}

/// A plain tree that is written is read back as that tree.
pub fn written_trees_are_read_back()
    ensures { (kind : Kind) (t : Tree) (d : Data) → is_sound kind ≡ true → is_plain kind t ≡ true
        → write kind t ≡ Some d → read kind d ≡ Some t }
{}

/// In what is written no item and no key is invalid.
pub fn written_trees_hold_nothing_invalid()
    ensures { (kind : Kind) (t : Tree) (d : Data) → write kind t ≡ Some d
        → holds_invalid t ≡ false }
{}

/// What a sound kind reads is refused for writing if and only if an item or a key in it is invalid.
pub fn read_trees_are_refused_where_invalid()
    ensures { (kind : Kind) (d : Data) (t : Tree) → is_sound kind ≡ true
        → read kind d ≡ Some t → (write kind t ≡ None) ↔ (holds_invalid t ≡ true) }
{}

/// A tree of a kind is refused for writing if and only if an item or a key in it is invalid. So a
/// plain tree of a sound kind without invalid ones is written, and read back as that tree.
pub fn trees_of_a_kind_are_refused_where_invalid()
    ensures { (kind : Kind) (t : Tree) → is_of_kind kind t ≡ true
        → (write kind t ≡ None) ↔ (holds_invalid t ≡ true) }
{}

/// Attributes that were read have a key if and only if a name means it, with the index of the last
/// such name.
#[tactic(auto, unfolding(gltf_base::specs::Names::key_named))]
pub fn keys_have_the_indexes_of_their_last_names()
    ensures last { (named : ListName) (ms : Members) (es : List (Key × ℕ))
        → read (Attributes named) (object ms) ≡ Some (attributes es)
        → (key : Key) → index_at key es ≡ last_index key ms }
    ensures worked { read (Attributes ListName.accessors)
        (object (member (codes "COLOR_+1") (number (unsigned 0))
        (member (codes "COLOR_01") (number (unsigned 1))
        (member (codes "COLOR_1") (number (unsigned 2)) no_members))))
        ≡ Some (attributes ((colors 1, 2) ∷ [])) }
{}

/// A value that is refused at a place isn't read, and a value is refused at one place.
pub fn values_are_refused_at_one_place()
    ensures refused { (kind : Kind) (d : Data) (steps : List Step) → IsRefusedAt steps kind d
        → read kind d ≡ None }
    ensures unique { (kind : Kind) (d : Data) (steps others : List Step)
        → IsRefusedAt steps kind d → IsRefusedAt others kind d → steps ≡ others }
{}

/// A kind without nulls reads what the kind reads. A plain tree that is written without nulls is
/// read back as that tree, and a tree is refused for writing without nulls if and only if it is
/// refused with them.
pub fn kinds_without_nulls_read_the_same()
    ensures reads { (kind : Kind) (d : Data) → read (without_nulls kind) d ≡ read kind d }
    ensures reads_back { (kind : Kind) (t : Tree) (d : Data) → is_sound kind ≡ true
        → is_plain kind t ≡ true → write (without_nulls kind) t ≡ Some d → read kind d ≡ Some t }
    ensures refused { (kind : Kind) (t : Tree) → (write (without_nulls kind) t ≡ None)
        ↔ (write kind t ≡ None) }
{}
