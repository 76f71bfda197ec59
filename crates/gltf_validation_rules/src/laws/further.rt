//! Laws of reports from other places and by other rules.

ghost use Rattle.std.specs.Prelude.{◌≡◌, ℕ, List, [], ◌∷◌, ◌++◌, Some, map, true};
ghost use Rattle.std.specs.List.{All};
ghost use Rattle.serde_json.specs.Data.{Data};
ghost use Rattle.serde_json.specs.Find.{get, pointer};
ghost use Rattle.gltf_base.specs.Keys.{key_text};
ghost use Rattle.gltf_base.specs.Names.{key_named};
ghost use Rattle.gltf_base.specs.Pointers.{pointer_text};
ghost use Rattle.gltf_base.specs.Steps.{Step, key};
ghost use Rattle.gltf_schema.specs.Kind.{Kind};
ghost use Rattle.gltf_schema.specs.Plain.{is_plain};
ghost use Rattle.gltf_schema.specs.Read.{read};
ghost use Rattle.gltf_schema.specs.Tree.{Tree, absent};
ghost use Rattle.gltf_schema.specs.Write.{write};
ghost use Rattle.gltf_root.specs.Root.{root_kind};
ghost use Rattle.gltf_validation_rules.specs.Bases.{behind};
ghost use Rattle.gltf_validation_rules.specs.Context.{Context, Rules, under};
ghost use Rattle.gltf_validation_rules.specs.Found.{HasSmallNumber, Lead, before_key, first_key, found, steps_there};
ghost use Rattle.gltf_validation_rules.specs.Reports.{document_reports, reports};
ghost use Rattle.gltf_validation_rules.specs.Wider.{AllowsMore, IsSublist};

/// The reports of a value from a base are its reports from no steps, with the base in front of
/// each. This holds for every kind, against every document and by any rules.
pub fn reports_from_a_base_have_it_in_front()
    ensures { (kind : Kind) (t : Tree) (context : Context) (above : Tree) (base : List Step)
        → reports kind t context above base
        ≡ map (behind base) (reports kind t context above []) }
{}

/// Rules that allow more take reports away and add none: those that are left stay in their order.
/// A document without reports by some rules has none by rules that allow more.
pub fn rules_that_allow_more_leave_fewer_reports()
    ensures fewer { (narrow wide : Rules) (kind : Kind) (t root above : Tree) (base : List Step)
        → AllowsMore narrow wide
        → IsSublist (reports kind t (under wide root) above base)
        (reports kind t (under narrow root) above base) }
    ensures clean { (narrow wide : Rules) (root : Tree) → AllowsMore narrow wide
        → document_reports narrow root ≡ [] → document_reports wide root ≡ [] }
{}

/// The steps of a report lead to a value in the JSON that the document was read from. In a plain
/// document they lead to a value in the JSON that it is written as. If something is missing there,
/// the last step is left out. If there is a key of attributes among the steps, those in front of it
/// lead to an object with a member whose name means the key.
pub fn reports_lead_to_places_in_the_json()
    ensures read { (d : Data) (t : Tree) (context : Context) → read root_kind d ≡ Some t
        → All (λ r. Lead (steps_there r) d) (reports root_kind t context absent []) }
    ensures written { (d : Data) (t : Tree) (context : Context) → is_plain root_kind t ≡ true
        → write root_kind t ≡ Some d
        → All (λ r. Lead (steps_there r) d) (reports root_kind t context absent []) }
{}

/// If each name that means a key is spelled as the key's text, steps to the object lead on to the
/// attribute itself.
pub fn attributes_spelled_as_their_keys_are_found()
    ensures { (steps : List Step) (d : Data) (text : List ℕ) (lead : Lead steps d)
        → first_key steps ≡ Some text
        → ((name : List ℕ) (value : Data) → get name lead.place ≡ Some value
        → key_text (key_named name) ≡ text → name ≡ text)
        → (e : Data) × (found (before_key steps ++ key text ∷ []) d ≡ Some e) }
{}

/// The JSON pointer of some steps finds what the steps lead to, as `Value::pointer` of `serde_json`
/// reads it. The numbers of items must have 64 bits.
pub fn pointers_find_what_their_steps_lead_to()
    ensures { (steps : List Step) (d e : Data) → All HasSmallNumber steps
        → found steps d ≡ Some e → pointer (pointer_text steps) d ≡ Some e }
{}
