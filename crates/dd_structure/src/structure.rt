use crate::blank::BLANK;
use crate::columns::Columns;
use crate::equal::same_columns;
use crate::fault::StructureFault;
use crate::reading::fill_whole;
use crate::writing::put_columns;
use dd_bits::{BitReader, BitWriter, NoRoom};
use std::marker::Model;

/// A template structure (RTP Payload Format For AV1 v1.0, Appendix A, template_dependency_structure). Contracts see its template id offset, how
/// many decode targets and chains it has, its templates, the chain that protects each decode target, and the resolutions.
#[derive(Debug, Drop)]
pub struct Structure {
    pub(crate) columns: Columns,
}

impl Model for Structure {
    ghost use Rattle.dd_structure.specs.TemplateStructure.{TemplateStructure};

    ghost Value = { TemplateStructure };

    ghost use Rattle.dd_structure.specs.Columns.{structure_of, IsWhole};

    ghost view = { λ s. structure_of s.columns };

    ghost invariant = { λ s. IsWhole s.columns };
}

ghost use Rattle.std.specs.Prelude.{◌≡◌, None, OnErr};
ghost use Rattle.dd_bits.specs.Reader.{bits_left};
ghost use Rattle.dd_bits.specs.Sequences.{Gives};
ghost use Rattle.dd_structure.specs.Reading.{some_structure_at};

/// The case of [`Structure::read_into`] in which `out` is `None`. Puts a blank structure into `out`, and then reads into this structure.
#[tactic(auto, unfolding(crate::specs::Reading::some_structure_at))]
#[inline(never)]
fn read_anew(bits: &mut BitReader<'_>, out: &mut Option<Structure>) -> Result<(), StructureFault>
    ensures read { Gives (λ _. out.new) result bits.new (some_structure_at (bits_left bits.old)) }
    ensures unchanged { OnErr result (bits.new ≡ bits.old) }
    ensures none { OnErr result (out.new ≡ None) }
{
    let structure = out.insert(Structure { columns: BLANK });
    match fill_whole(bits, &mut structure.columns) {
        Ok(()) => Ok(()),
        Err(fault) => {
            *out = None;
            Err(fault)
        }
    }
}

impl Structure {
    ghost use Rattle.std.specs.Prelude.{◌≡◌, ◌≤◌, ◌↔◌, None, IsTrue, OnErr, length};
    ghost use Rattle.dd_bits.specs.Reader.{bits_left};
    ghost use Rattle.dd_bits.specs.Sequences.{Gives};
    ghost use Rattle.dd_bits.specs.Writer.{capacity, written, Puts};
    ghost use Rattle.dd_structure.specs.Reading.{structure_at, some_structure_at};
    ghost use Rattle.dd_structure.specs.Spelling.{structure_bits, IsWellFormed};

    /// Reads the structure at the start of the bits, or returns the first fault from left to right. After a fault the reader is unchanged.
    pub fn read(bits: &mut BitReader<'_>) -> Result<Structure, StructureFault>
        ensures read { Gives (λ s. s) result bits.new (structure_at (bits_left bits.old)) }
        ensures unchanged { OnErr result (bits.new ≡ bits.old) }
    {
        let mut columns = BLANK;
        fill_whole(bits, &mut columns)?;
        Ok(Structure { columns })
    }

    /// Like [`Structure::read`], but replaces the contents of `out`. After a fault `out` is `None`. A structure takes 5.4 KB. If `out` already has a
    /// structure, the new one overwrites it in place, and nothing is cleared or moved.
    #[tactic(auto, unfolding(crate::specs::Reading::some_structure_at))]
    pub fn read_into(
        bits: &mut BitReader<'_>,
        out: &mut Option<Structure>,
    ) -> Result<(), StructureFault>
        ensures read { Gives (λ _. out.new) result bits.new (some_structure_at (bits_left bits.old)) }
        ensures unchanged { OnErr result (bits.new ≡ bits.old) }
        ensures none { OnErr result (out.new ≡ None) }
    {
        match out {
            Some(structure) => match fill_whole(bits, &mut structure.columns) {
                Ok(()) => Ok(()),
                Err(fault) => {
                    *out = None;
                    Err(fault)
                }
            },
            None => read_anew(bits, out),
        }
    }

    /// Appends the bits of the structure. If the writer would then have more than 2,040 bytes, returns `NoRoom` and leaves the writer unchanged.
    pub fn write(&self, out: &mut BitWriter) -> Result<(), NoRoom>
        ensures put { Puts result out.old out.new (structure_bits self.now) }
        ensures unchanged { OnErr result (out.new ≡ out.old) }
        ensures within { length (written out.new) ≤ capacity }
    {
        let before = *out;
        match put_columns(out, &self.columns) {
            Ok(()) => Ok(()),
            Err(full) => {
                *out = before;
                Err(full)
            }
        }
    }

    /// Whether two structures are equal in everything that contracts see.
    pub fn same(&self, other: &Structure) -> bool
        ensures { IsTrue result ↔ (self.now ≡ other.now) }
    {
        same_columns(&self.columns, &other.columns)
    }

    /// A copy of the structure.
    pub fn copied(&self) -> Structure
        ensures { result ≡ self.now }
    {
        Structure {
            columns: self.columns,
        }
    }

    /// A lemma: each number of a structure is in the range of its field, and the counts agree with the lengths of the lists. The function does
    /// nothing at run time.
    pub fn is_well_formed(&self)
        ensures { IsWellFormed self.now }
    {
        let _ = &self.columns;
    }
}
