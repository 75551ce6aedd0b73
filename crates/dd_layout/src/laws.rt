//! Laws about the definitions in this crate.

ghost use Rattle.std.specs.Prelude.{◌≡◌, ◌↔◌, true};
ghost use Rattle.forwarding_model.specs.frames.Reading.{IsLayout};
ghost use Rattle.dd_structure.specs.Spelling.{IsWellFormed};
ghost use Rattle.dd_structure.specs.TemplateStructure.{TemplateStructure};
ghost use Rattle.dd_layout.specs.Layouts.{is_same_structure, layout_of};

/// A well-formed structure has at most 32 decode targets and at most 32 chains. If it has chains, each decode target is protected by one of them.
pub fn carried_structures_have_layouts()
    ensures { (s : TemplateStructure) → IsWellFormed s → IsLayout (layout_of s) }
{}

/// `is_same_structure` compares two structures field by field. It is true exactly when the structures are equal.
pub fn same_structures_are_equal()
    ensures { (a b : TemplateStructure) → (is_same_structure a b ≡ true) ↔ (a ≡ b) }
{}
