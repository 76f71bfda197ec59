//! Documents worked by hand, computed on the definitions.

ghost use Rattle.std.specs.Prelude.{◌≡◌, [], ◌∷◌, Some, None, true, false, codes, negsuc};
ghost use Rattle.serde_json.specs.Data.{no_members, member, number, negative, null, object, array, no_items, item as data_item};
ghost use Rattle.gltf_base.specs.Lists.{ListName};
ghost use Rattle.gltf_base.specs.Steps.{field, item, value};
ghost use Rattle.gltf_base.specs.declared.validation.Error.TheVariants.{IndexOutOfBounds, Invalid, Missing, Unsupported};
ghost use Rattle.gltf_validation_rules.specs.Report.{report};
ghost use Rattle.gltf_root.specs.Root.{root_kind};
ghost use Rattle.gltf_schema.specs.Read.{read};
ghost use Rattle.gltf_schema.specs.Plain.{is_plain};
ghost use Rattle.gltf_schema.specs.Tree.{any};
ghost use Rattle.gltf_base.specs.Spelling.{by_number, by_name};
ghost use Rattle.gltf_parts.specs.Accessor.{sparse_indices_kind};
ghost use Rattle.gltf_scene.specs.Scene.{node_extensions_kind};
ghost use Rattle.gltf_root.specs.RootExtension.{root_extensions_kind};
ghost use Rattle.gltf_validation_rules.specs.Context.{enabled_with_empty_textures};
ghost use Rattle.gltf_validation_rules.specs.Worked.{reports_in, reports_ruled, requiring, written_of, pushed_in, reports_pushed, whole, text, one, with_asset, with_accessor, with_view, accessor_of, in_accessor, in_view, with_one, in_one, odd_channel, in_channel, with_attributes, in_attributes, extended, in_extension, point_light, listed_variant, node_of, plain_in, plain_with_extras, indices_of, extensions_beside, node_extensions_beside};

/// Documents that are read, with their reports, and documents that are not.
pub fn worked_documents()
    ensures no_asset { reports_in (object no_members) ≡ None }
    ensures no_object { reports_in (array no_items) ≡ None }
    ensures clean { reports_in (with_asset no_members) ≡ Some [] }
    // An accessor with neither a view nor elements that stand in for zeros.
    ensures no_data { reports_in (with_accessor (accessor_of (whole 1) (whole 5126) no_members))
        ≡ Some (report (in_accessor (codes "bufferView")) Missing ∷ []) }
    // 4294972416 is 5120 in its low 32 bits.
    ensures choice_is_whole { reports_in (with_view no_members
        (member (codes "accessors") (one (accessor_of (whole 1) (whole 4294972416)
        (member (codes "bufferView") (whole 0) no_members))) no_members))
        ≡ Some (report (in_accessor (codes "componentType")) Invalid ∷ []) }
    ensures members_first { reports_in (with_accessor (accessor_of (whole 1) (whole 0) no_members))
        ≡ Some (report (in_accessor (codes "componentType")) Invalid
        ∷ report (in_accessor (codes "bufferView")) Missing ∷ []) }
    ensures count_of_64_bits { reports_in (with_accessor
        (accessor_of (whole 18446744073709551615) (whole 5126) no_members))
        ≡ Some (report (in_accessor (codes "bufferView")) Missing ∷ []) }
    ensures negative_count { reports_in (with_accessor (accessor_of (number (negative (negsuc 0)))
        (whole 5126) no_members)) ≡ None }
    ensures index_of_33_bits { reports_in (with_accessor
        (accessor_of (whole 1) (whole 5126) (member (codes "bufferView")
        (whole 4294967296) no_members))) ≡ None }
    ensures dangling { reports_in (with_accessor (accessor_of (whole 1) (whole 5126)
        (member (codes "bufferView") (whole 0) no_members)))
        ≡ Some (report (in_accessor (codes "bufferView")) IndexOutOfBounds ∷ []) }
    ensures null_is_absent { reports_in (with_accessor (accessor_of (whole 1) (whole 5126)
        (member (codes "bufferView") null no_members)))
        ≡ Some (report (in_accessor (codes "bufferView")) Missing ∷ []) }
    ensures no_stride { reports_in (with_view (member (codes "byteStride") (whole 0) no_members)
        no_members)
        ≡ Some (report (in_view (codes "byteStride")) Invalid ∷ []) }
    ensures stride_below { reports_in (with_view (member (codes "byteStride") (whole 3) no_members)
        no_members)
        ≡ Some (report (in_view (codes "byteStride")) Invalid ∷ []) }
    ensures least_stride { reports_in (with_view (member (codes "byteStride") (whole 4) no_members)
        no_members) ≡ Some [] }
    ensures greatest_stride { reports_in (with_view (member (codes "byteStride")
        (whole 252) no_members) no_members) ≡ Some [] }
    ensures stride_above { reports_in (with_view (member (codes "byteStride")
        (whole 253) no_members) no_members)
        ≡ Some (report (in_view (codes "byteStride")) Invalid ∷ []) }
    ensures no_image { reports_in (with_one (codes "textures") no_members)
        ≡ Some (report (in_one (codes "textures") (field (codes "source") ∷ [])) Missing ∷ []) }
    ensures no_such_image { reports_in (with_one (codes "textures")
        (member (codes "source") (whole 0) no_members))
        ≡ Some (report (in_one (codes "textures") (field (codes "source") ∷ [])) IndexOutOfBounds
        ∷ []) }
    ensures no_projection { reports_in (with_one (codes "cameras")
        (member (codes "type") (text (codes "foo")) no_members))
        ≡ Some (report (in_one (codes "cameras") (field (codes "type") ∷ [])) Invalid
        ∷ report (in_one (codes "cameras") []) Missing ∷ []) }
    ensures channel_by_itself { reports_in (with_one (codes "animations")
        (member (codes "channels") (one odd_channel) no_members))
        ≡ Some (report (in_channel (field (codes "sampler") ∷ [])) IndexOutOfBounds
        ∷ report (in_channel (field (codes "target") ∷ field (codes "node") ∷ [])) IndexOutOfBounds
        ∷ report (in_channel (field (codes "target") ∷ field (codes "path") ∷ [])) Invalid ∷ []) }
    ensures not_enabled { reports_in (with_asset (member (codes "extensionsRequired")
        (array (data_item (text (codes "KHR_lights_punctual"))
        (data_item (text (codes "KHR_mesh_quantization")) no_items))) no_members))
        ≡ Some (report (field (codes "extensionsRequired") ∷ item 1
        ∷ value (codes "KHR_mesh_quantization") ∷ []) Unsupported ∷ []) }
    ensures no_cone { reports_in (with_asset (extended (codes "KHR_lights_punctual")
        (codes "lights") (one (object (member (codes "type") (text (codes "spot")) no_members)))))
        ≡ Some (report (in_extension (codes "KHR_lights_punctual")
        (field (codes "lights") ∷ item 0 ∷ field (codes "spot") ∷ [])) Missing ∷ []) }
    ensures no_such_light { reports_in (with_one (codes "nodes")
        (extended (codes "KHR_lights_punctual") (codes "light") (whole 1)))
        ≡ Some (report (in_one (codes "nodes") (in_extension (codes "KHR_lights_punctual")
        (field (codes "light") ∷ []))) IndexOutOfBounds ∷ []) }
    ensures no_positions { reports_in (with_one (codes "meshes") (with_attributes no_members))
        ≡ Some (report (in_attributes (codes "POSITION") []) Missing ∷ []) }
    // Of an accessor that isn't there no bounds are asked.
    ensures no_such_positions { reports_in (with_one (codes "meshes")
        (with_attributes (member (codes "POSITION") (whole 7) no_members)))
        ≡ Some (report (in_attributes (codes "POSITION") []) IndexOutOfBounds ∷ []) }
    // Keys in their order, each before its index, and the bounds behind them all.
    ensures attributes_in_order { reports_in (with_asset
        (member (codes "accessors") (one (accessor_of (whole 1) (whole 5126)
        (member (codes "max") (array (data_item (whole 1) (data_item (whole 2) no_items)))
        no_members)))
        (member (codes "meshes") (one (object (with_attributes
        (member (codes "FOO") (whole 9) (member (codes "POSITION") (whole 0)
        (member (codes "_x") (whole 9) no_members)))))) no_members)))
        ≡ Some (report (in_accessor (codes "bufferView")) Missing
        ∷ report (in_attributes (codes "_x") []) IndexOutOfBounds
        ∷ report (in_attributes (codes "<invalid semantic name>") []) Invalid
        ∷ report (in_attributes (codes "<invalid semantic name>") []) IndexOutOfBounds
        ∷ report (in_attributes (codes "POSITION") (field (codes "min") ∷ [])) Missing
        ∷ report (in_attributes (codes "POSITION") (field (codes "max") ∷ [])) Invalid ∷ []) }
    ensures unknown_member { reports_in (with_asset (member (codes "zz")
        (text (codes "x")) no_members)) ≡ Some [] }
{}

/// What is wrong in documents by the caller's rules.
#[tactic(auto, unfolding(gltf_root::specs::Root::root_rows, gltf_scene::specs::Asset::asset_rows, gltf_parts::specs::Texture::texture_rows))]
pub fn worked_rules()
    ensures no_image { reports_ruled true enabled_with_empty_textures
        (with_one (codes "textures") no_members) ≡ Some [] }
    ensures no_such_image { reports_ruled true enabled_with_empty_textures
        (with_one (codes "textures") (member (codes "source") (whole 0) no_members))
        ≡ Some (report (in_one (codes "textures") (field (codes "source") ∷ [])) IndexOutOfBounds
        ∷ []) }
    ensures no_image_for_others { reports_ruled false enabled_with_empty_textures
        (with_one (codes "textures") no_members)
        ≡ Some (report (in_one (codes "textures") (field (codes "source") ∷ [])) Missing ∷ []) }
    ensures standard { reports_in (requiring (codes "KHR_texture_basisu"))
        ≡ Some (report (field (codes "extensionsRequired") ∷ item 0
        ∷ value (codes "KHR_texture_basisu") ∷ []) Unsupported ∷ []) }
    ensures enabled { reports_ruled false enabled_with_empty_textures
        (requiring (codes "KHR_texture_basisu")) ≡ Some [] }
    ensures none_enabled { reports_ruled false [] (requiring (codes "KHR_lights_punctual"))
        ≡ Some (report (field (codes "extensionsRequired") ∷ item 0
        ∷ value (codes "KHR_lights_punctual") ∷ []) Unsupported ∷ []) }
{}

/// What documents are written as.
#[tactic(auto, unfolding(gltf_root::specs::Root::root_rows, gltf_scene::specs::Asset::asset_rows, gltf_parts::specs::Accessor::accessor_rows, gltf_parts::specs::Texture::texture_rows, gltf_scene::specs::Scene::node_rows, gltf_scene::specs::Scene::node_extension_rows, gltf_scene::specs::Animation::animation_rows))]
pub fn worked_writings()
    ensures bare { written_of (with_asset no_members) ≡ Some (with_asset no_members) }
    ensures no_image { written_of (with_one (codes "textures") no_members)
        ≡ Some (with_one (codes "textures") no_members) }
    ensures none_is_no_image { written_of (with_one (codes "textures")
        (member (codes "source") (whole 4294967295) no_members))
        ≡ Some (with_one (codes "textures") no_members) }
    ensures first_image { written_of (with_one (codes "textures")
        (member (codes "source") (whole 0) no_members))
        ≡ Some (with_one (codes "textures") (member (codes "source") (whole 0) no_members)) }
    ensures invalid_item { written_of (with_accessor (accessor_of (whole 1) (whole 0) no_members))
        ≡ None }
    ensures empty_lists { written_of (with_asset (member (codes "animations")
        (one (object no_members)) no_members))
        ≡ Some (object (member (codes "animations") (one (object no_members))
        (member (codes "asset") (object (member (codes "version") (text (codes "2.0")) no_members))
        no_members))) }
    ensures null_is_left_out { written_of (with_one (codes "nodes")
        (member (codes "camera") null no_members)) ≡ Some (with_one (codes "nodes") no_members) }
    ensures unknown_extension { written_of (with_one (codes "nodes")
        (member (codes "extensions") (object (member (codes "EXT_x") (whole 1) no_members))
        no_members))
        ≡ Some (with_one (codes "nodes") (member (codes "extensions")
        (object (member (codes "EXT_x") (whole 1) no_members)) no_members)) }
    ensures unknown_member { written_of (with_asset (member (codes "zz")
        (text (codes "x")) no_members)) ≡ Some (with_asset no_members) }
{}

/// Documents with an item pushed onto a list, and their reports.
#[tactic(auto, unfolding(gltf_root::specs::Root::root_rows, gltf_root::specs::RootExtension::root_extension_rows, gltf_root::specs::RootExtension::lights_rows, gltf_root::specs::RootExtension::variants_rows, gltf_scene::specs::Asset::asset_rows, gltf_scene::specs::Light::light_rows, gltf_scene::specs::Light::variant_rows, gltf_parts::specs::Buffer::view_rows, gltf_scene::specs::Scene::node_rows))]
pub fn worked_pushes()
    // A light makes the objects that it is listed in.
    ensures first_light { pushed_in ListName.lights point_light (with_asset no_members)
        ≡ read root_kind (with_asset (extended (codes "KHR_lights_punctual") (codes "lights")
        (one point_light))) }
    ensures light_beside_others { pushed_in ListName.lights point_light
        (with_asset (member (codes "extensions") (object
        (member (codes "EXT_x") (whole 1) (member (codes "KHR_materials_variants") listed_variant
        no_members))) no_members))
        ≡ read root_kind (with_asset (member (codes "extensions")
        (object (member (codes "EXT_x") (whole 1) (member (codes "KHR_lights_punctual")
        (object (member (codes "lights") (one point_light) no_members))
        (member (codes "KHR_materials_variants") listed_variant no_members)))) no_members)) }
    ensures second_light { pushed_in ListName.lights point_light
        (with_asset (extended (codes "KHR_lights_punctual") (codes "lights") (one point_light)))
        ≡ read root_kind (with_asset (extended (codes "KHR_lights_punctual") (codes "lights")
        (array (data_item point_light (data_item point_light no_items))))) }
    ensures view_of_nothing { reports_pushed ListName.buffer_views
        (object (member (codes "buffer") (whole 0) (member (codes "byteLength")
        (whole 4) no_members))) (with_asset no_members)
        ≡ Some (report (in_view (codes "buffer")) IndexOutOfBounds ∷ []) }
    // A node may name itself by the number that it takes.
    ensures node_of_itself { reports_pushed ListName.nodes (node_of 0) (with_asset no_members)
        ≡ Some [] }
    ensures node_of_none { reports_pushed ListName.nodes (node_of 5)
        (with_one (codes "bufferViews") (member (codes "buffer") (whole 3)
        (member (codes "byteLength") (whole 4) no_members)))
        ≡ Some (report (in_view (codes "buffer")) IndexOutOfBounds
        ∷ report (in_one (codes "nodes") (field (codes "children") ∷ item 0 ∷ [])) IndexOutOfBounds
        ∷ []) }
{}

/// Which documents and objects are plain.
#[tactic(auto, unfolding(gltf_root::specs::Root::root_rows, gltf_root::specs::RootExtension::root_extension_rows, gltf_scene::specs::Asset::asset_rows, gltf_parts::specs::Accessor::accessor_rows, gltf_parts::specs::Accessor::sparse_indices_rows, gltf_scene::specs::Scene::node_extension_rows, gltf_scene::specs::Light::light_of_node_rows))]
pub fn worked_plainness()
    ensures what_is_read { plain_in (with_accessor (accessor_of (whole 1) (whole 5126) no_members))
        ≡ Some true }
    // What is read is plain though a choice in it is invalid, or an extension unknown.
    ensures invalid_item { plain_in (with_accessor (accessor_of (whole 1) (whole 0) no_members))
        ≡ Some true }
    ensures unknown_extension { plain_in (with_asset (member (codes "extensions")
        (object (member (codes "EXT_x") (whole 1) no_members)) no_members)) ≡ Some true }
    // A null that is read is no null that is kept.
    ensures null_is_absent { plain_in (with_asset (member (codes "extras") null no_members))
        ≡ Some true }
    ensures null_kept { plain_with_extras (any null) (with_asset no_members) ≡ Some false }
    ensures text_kept { plain_with_extras (any (text (codes "x"))) (with_asset no_members)
        ≡ Some true }
    ensures row_among_others { is_plain root_extensions_kind
        (extensions_beside (member (codes "KHR_lights_punctual") (whole 1) no_members)) ≡ false }
    ensures no_row_among_others { is_plain root_extensions_kind
        (extensions_beside (member (codes "EXT_x") (whole 1) no_members)) ≡ true }
    ensures light_among_others { is_plain node_extensions_kind
        (node_extensions_beside (member (codes "KHR_lights_punctual") (whole 5) no_members))
        ≡ false }
    ensures no_light_among_others { is_plain node_extensions_kind
        (node_extensions_beside (member (codes "EXT_x") (whole 5) no_members)) ≡ true }
    // Where no others are kept, there may be none.
    ensures others_not_kept { is_plain sparse_indices_kind
        (indices_of (by_number 5123) (member (codes "zz") (whole 1) no_members)) ≡ false }
    ensures index_component_type { is_plain sparse_indices_kind
        (indices_of (by_number 5123) no_members) ≡ true }
    // 5126 is the component type of floats, which no index has.
    ensures another_component_type { is_plain sparse_indices_kind
        (indices_of (by_number 5126) no_members) ≡ false }
    ensures component_type_by_name { is_plain sparse_indices_kind
        (indices_of (by_name (codes "5123")) no_members) ≡ false }
{}
