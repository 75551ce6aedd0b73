//! Laws of reading and writing. A structure is read back from its bits, whatever bits follow them. No other bits are read as this structure.

ghost use Rattle.std.specs.Prelude.{◌≡◌, ◌++◌, List, Bool, Ok};
ghost use Rattle.dd_structure.specs.TemplateStructure.{TemplateStructure};
ghost use Rattle.dd_structure.specs.Spelling.{IsWellFormed, structure_bits};
ghost use Rattle.dd_structure.specs.Reading.{structure_at};

/// A well-formed structure is read back from its bits, whatever bits follow them.
pub fn structure_reads_back()
    ensures { (s : TemplateStructure) (rest : List Bool) → IsWellFormed s → structure_at (structure_bits s ++ rest) ≡ Ok (s, rest) }
{}

/// A structure that was read is well formed. If it is written again, the result is exactly the bits from which it was read.
pub fn structures_are_well_formed()
    ensures well_formed { (bits : List Bool) (s : TemplateStructure) (rest : List Bool) → structure_at bits ≡ Ok (s, rest) → IsWellFormed s }
    ensures spelled { (bits : List Bool) (s : TemplateStructure) (rest : List Bool) → structure_at bits ≡ Ok (s, rest) → bits ≡ structure_bits s ++ rest }
{}
