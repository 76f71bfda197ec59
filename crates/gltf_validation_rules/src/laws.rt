//! Laws of the definitions that contracts of this crate use. Each is the contract of a function
//! that does nothing.

ghost use Rattle.std.specs.Prelude.{◌≡◌, ◌≢◌, ◌↔◌, ℕ, List, [], true, not, Some, None};
ghost use Rattle.std.specs.List.{filter};
ghost use Rattle.gltf_base.specs.Steps.{Step};
ghost use Rattle.serde_json.specs.Data.{Data};
ghost use Rattle.gltf_schema.specs.Invalid.{holds_invalid};
ghost use Rattle.gltf_schema.specs.Plain.{is_plain};
ghost use Rattle.gltf_schema.specs.Read.{read};
ghost use Rattle.gltf_schema.specs.Sound.{is_sound};
ghost use Rattle.gltf_schema.specs.Tree.{Tree, absent, tree_at, members_in};
ghost use Rattle.gltf_schema.specs.Write.{write};
ghost use Rattle.gltf_schema.specs.Kind.{Kind};
ghost use Rattle.gltf_validation_rules.specs.Inserted.{IsInserted};
ghost use Rattle.gltf_validation_rules.specs.Naming.{Avoids};
ghost use Rattle.gltf_validation_rules.specs.Context.{Rules, under};
ghost use Rattle.gltf_validation_rules.specs.Reports.{document_reports, reports, reports_by_rules};
ghost use Rattle.gltf_validation_rules.specs.Places.{reports_by_places};
ghost use Rattle.gltf_validation_rules.specs.Closed.{IsClosed};
ghost use Rattle.gltf_validation_rules.specs.ReportPlaces.{is_below};
ghost use Rattle.gltf_base.specs.Lists.{ListName};
ghost use Rattle.gltf_root.specs.Lists.{count_in, list_in, row_of};
ghost use Rattle.gltf_root.specs.Pushed.{item_kind, item_place, pushed, with_last};
ghost use Rattle.gltf_root.specs.Root.{root_kind, root_tree};
ghost use Rattle.gltf_validation_rules.specs.SinkOutcome.{run};
ghost use Rattle.gltf_validation_rules.specs.Sinks.{one_more};
ghost use Rattle.gltf_root.specs.declared.root.Root.{Root as Document};

pub mod clean;
pub mod further;
pub mod plain;
pub mod worked;

/// The reports of a value are the faults of its places, in order, whatever the rules.
pub fn reports_are_the_faults_of_places()
    ensures { (rules : Rules) (kind : Kind) (tree root : Tree) (base : List Step)
        → reports_by_rules rules kind tree root base ≡ reports_by_places rules kind tree root base }
{}

/// A document without reports is closed: every index names an item, and every enum value and
/// attribute name is valid. A channel's sampler is one of its own animation. A document of which
/// validation left a new count at zero is closed too. This holds by any rules; a texture lacks an
/// image only if they allow that.
pub fn clean_documents_are_closed()
    ensures clean { (rules : Rules) (r : Document) → document_reports rules (root_tree r) ≡ []
        → IsClosed root_kind (root_tree r) (under rules (root_tree r)) absent }
    ensures none_counted { (rules : Rules) (r : Document)
        → run one_more 0 (document_reports rules (root_tree r)) ≡ 0
        → IsClosed root_kind (root_tree r) (under rules (root_tree r)) absent }
{}

/// In a document without reports no index into a list is the number that the list's next item
/// takes. This holds by any rules: if they allow empty textures, the number that means no image is
/// no index.
pub fn clean_documents_avoid_the_next_number()
    ensures { (rules : Rules) (r : Document) (named : ListName)
        → document_reports rules (root_tree r) ≡ []
        → Avoids named (count_in named (root_tree r)) root_kind (root_tree r) }
{}

/// A push puts its item behind the last one of its list. Every other list is as it was, and so is
/// every member of the document but the one that has the list.
pub fn pushes_change_one_list()
    ensures grown { (r : Document) (named : ListName) (x : Tree)
        → list_in named (pushed named x (root_tree r)) ≡ with_last x (list_in named (root_tree r)) }
    ensures others { (r : Document) (named other : ListName) (x : Tree) → other ≢ named
        → list_in other (pushed named x (root_tree r)) ≡ list_in other (root_tree r) }
    ensures members { (r : Document) (named : ListName) (n : ℕ) (x : Tree) → n ≢ row_of named
        → tree_at n (members_in (pushed named x (root_tree r)))
        ≡ tree_at n (members_in (root_tree r)) }
{}

/// A push leaves the reports of a value as they were, unless an index in the value is the number
/// that the item takes. For the list of accessors the kind has to be sound, as each kind of the
/// table is. The rule of primitives looks up an accessor, and in a sound kind it does so by an
/// index of the value.
pub fn pushes_leave_other_reports()
    ensures { (rules : Rules) (r : Document) (named : ListName) (x : Tree) (kind : Kind)
        (t above : Tree) (base : List Step)
        → (ListName.accessors ≡ named → is_sound kind ≡ true)
        → Avoids named (count_in named (root_tree r)) kind t
        → reports kind t (under rules (pushed named x (root_tree r))) above base
        ≡ reports kind t (under rules (root_tree r)) above base }
{}

/// After a push onto a document without reports, its reports are those of the item, at its place.
pub fn pushes_onto_clean_documents()
    ensures { (rules : Rules) (r : Document) (named : ListName) (x : Tree)
        → let new = pushed named x (root_tree r) in
        document_reports rules (root_tree r) ≡ []
        → document_reports rules new
        ≡ reports_by_rules rules (item_kind named) x new
        (item_place named (count_in named (root_tree r))) }
{}

/// After a push, the reports at the item's place or below it are those of the item, if no index is
/// the number that it takes. All others are those from before, both in order. The reports of the
/// item are all together among the others.
pub fn pushes_add_reports_of_the_item()
    ensures of_item { (rules : Rules) (r : Document) (named : ListName) (x : Tree)
        → let n = count_in named (root_tree r) in let new = pushed named x (root_tree r) in
        Avoids named n root_kind (root_tree r)
        → filter (is_below (item_place named n)) (document_reports rules new)
        ≡ reports_by_rules rules (item_kind named) x new (item_place named n) }
    ensures of_others { (rules : Rules) (r : Document) (named : ListName) (x : Tree)
        → let n = count_in named (root_tree r) in let new = pushed named x (root_tree r) in
        Avoids named n root_kind (root_tree r)
        → filter (λ q. not (is_below (item_place named n) q)) (document_reports rules new)
        ≡ document_reports rules (root_tree r) }
    ensures together { (rules : Rules) (r : Document) (named : ListName) (x : Tree)
        → let n = count_in named (root_tree r) in let new = pushed named x (root_tree r) in
        Avoids named n root_kind (root_tree r)
        → IsInserted (document_reports rules (root_tree r))
        (reports_by_rules rules (item_kind named) x new (item_place named n))
        (document_reports rules new) }
{}

/// A document that was read is refused for writing if and only if it holds an invalid enum value or
/// attribute name.
pub fn read_documents_are_refused_where_invalid()
    ensures { (d : Data) (t : Tree) → read root_kind d ≡ Some t
        → (write root_kind t ≡ None) ↔ (holds_invalid t ≡ true) }
{}

/// Two plain documents that are written as the same JSON are the same: writing loses nothing of
/// what is plain.
pub fn plain_documents_written_alike_are_the_same()
    ensures { (r s : Document) (d : Data) → is_plain root_kind (root_tree r) ≡ true
        → is_plain root_kind (root_tree s) ≡ true
        → write root_kind (root_tree r) ≡ Some d → write root_kind (root_tree s) ≡ Some d
        → root_tree r ≡ root_tree s }
{}
