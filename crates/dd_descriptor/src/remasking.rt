//! Replaces the mask of a descriptor, and changes nothing else.

ghost use Rattle.std.specs.Prelude.{◌≡◌, ◌<◌, ◌≤◌, ◌*◌, ◌%◌, ◌^◌, ◌↔◌, Some, Ok, IsErr, OnOk, OnErr, length};
ghost use Rattle.std.specs.Option.{option_copied};
ghost use Rattle.dd_bits.specs.Bits.{bits_of};
ghost use Rattle.dd_bits.specs.Reader.{bits_left};
ghost use Rattle.dd_bits.specs.Sequences.{Gives};
ghost use Rattle.dd_bits.specs.Writer.{Puts, IsPadded};
ghost use Rattle.dd_descriptor.specs.Content.{Content, holding};
ghost use Rattle.dd_descriptor.specs.Laid.{IsDescriptor};
ghost use Rattle.dd_descriptor.specs.Parts.{body_parts_at, held_parts_at, parts_at, part_bits, parts_of, GivesParts, MakesBytes, MakesNone, with_mask};
ghost use Rattle.dd_descriptor.specs.Reading.{descriptor_at};
ghost use Rattle.dd_descriptor.specs.Remasking.{remasked, with_new_mask, TakesMask};

use crate::descriptor::Custom;
use crate::fault::DdFault;
use crate::parts::Flags;
use crate::reading::fields::{flags, head};
use crate::reading::frame::{fill_frame, index};
use crate::reading::{lemma_force_is_well_formed, mask, put_carried};
use crate::writing::MOST;
use crate::writing::fields::put_flags;
use dd_bits::{BitReader, BitWriter, NoRoom};
use dd_structure::Structure;
use sfu_base::{Dti, NoFit, PacketBuf};

/// Some bits of a descriptor, between the two reader positions `from` and `to`.
#[derive(Clone, Copy)]
pub struct Part<'a> {
    pub from: BitReader<'a>,
    pub to: BitReader<'a>,
}

/// The parts of a descriptor that stay the same when its mask is replaced.
#[derive(Clone, Copy)]
pub struct Parts<'a> {
    pub head: Part<'a>,
    pub flags: Flags,
    pub structure: Part<'a>,
    pub targets: u8,
    pub frame: Part<'a>,
}

/// Returns the number of decode targets, and the bits of the frame's definition.
#[tactic(auto, unfolding(crate::specs::Parts::body_parts_at))]
fn body_parts<'a>(
    bits: &mut BitReader<'a>,
    template: u8,
    flags: Flags,
    carries: bool,
    structure: &Structure,
) -> Result<(u8, Part<'a>), DdFault>
    requires { template < 64 }
    ensures { Gives (λ x. (x.0, part_bits x.1)) result bits.new (body_parts_at template flags carries structure.now (bits_left bits.old)) }
{
    mask(bits, flags.mask, carries, structure.target_count())?;
    let from = *bits;
    let index = index(template, structure)?;
    let mut dtis = [Dti::NotPresent; 32];
    let mut refs = [0; 16];
    let mut links = [0; 32];
    fill_frame(
        bits, flags, structure, index, &mut dtis, &mut refs, &mut links,
    )?;
    Ok((structure.target_count(), Part { from, to: *bits }))
}

/// Does what `body_parts` does, with the carried structure. If there is none, uses the structure in force.
#[tactic(auto, unfolding(crate::specs::Parts::held_parts_at))]
fn held_parts<'a>(
    bits: &mut BitReader<'a>,
    template: u8,
    flags: Flags,
    carried: &Option<Structure>,
    force: Option<&Structure>,
) -> Result<(u8, Part<'a>), DdFault>
    requires { template < 64 }
    ensures { Gives (λ x. (x.0, part_bits x.1)) result bits.new (held_parts_at template flags carried.now (option_copied force.entry) (bits_left bits.old)) }
{
    match carried {
        Some(structure) => body_parts(bits, template, flags, true, structure),
        None => match force {
            Some(structure) => body_parts(bits, template, flags, false, structure),
            None => Err(DdFault::NoStructure),
        },
    }
}

/// Finds these parts of a descriptor in its bytes. A structure that the descriptor carries is read into `carried`.
#[tactic(auto, unfolding(crate::specs::Parts::parts_at))]
fn parts_in<'a>(
    bytes: &'a [u8],
    force: Option<&Structure>,
    carried: &mut Option<Structure>,
) -> Result<Parts<'a>, DdFault>
    ensures { GivesParts result (parts_at bytes.now (option_copied force.entry)) }
{
    let (fields, mut bits) = head(bytes)?;
    let head = Part {
        from: BitReader::new(bytes),
        to: bits,
    };
    let flags = flags(&mut bits, bytes.len())?;
    let from = bits;
    put_carried(&mut bits, flags.structure, carried)?;
    let structure = Part { from, to: bits };
    let (targets, frame) = held_parts(&mut bits, fields.template, flags, carried, force)?;
    Ok(Parts {
        head,
        flags,
        structure,
        targets,
        frame,
    })
}

/// Returns the lowest `count` bits of a mask. If `count` is 32 or more, returns all bits.
fn lowest(mask: u32, count: u8) -> u32
    ensures { result ≡ mask % 2 ^ count }
{
    if count < 32 {
        mask % (1 << count)
    } else {
        mask
    }
}

/// Appends a descriptor made of these parts, with `mask` as its mask.
fn put_parts(out: &mut BitWriter, parts: &Parts<'_>, mask: u32) -> Result<(), NoRoom>
    ensures { Puts result out.old out.new (with_mask (parts_of parts.now) mask) }
{
    let custom = Custom {
        dtis: parts.flags.dtis,
        fdiffs: parts.flags.fdiffs,
        chains: parts.flags.chains,
    };
    out.put_read(parts.head.from, parts.head.to)?;
    put_flags(out, parts.flags.structure, true, custom)?;
    out.put_read(parts.structure.from, parts.structure.to)?;
    put_mask(out, parts.targets, mask)?;
    out.put_read(parts.frame.from, parts.frame.to)
}

/// Appends the lowest `targets` bits of a mask.
fn put_mask(out: &mut BitWriter, targets: u8, mask: u32) -> Result<(), NoRoom>
    ensures { Puts result out.old out.new (bits_of targets mask) }
{
    out.put(targets, lowest(mask, targets))
}

/// Working memory of 7 KB for [`remask_lowest`]. Its contents don't matter. It can be reused for many calls, and needn't be cleared between them.
#[derive(Debug, Drop)]
pub struct RemaskBuf {
    structure: Option<Structure>,
    bits: BitWriter,
}

impl RemaskBuf {
    /// Returns working memory that can be used for any descriptor.
    pub fn new() -> RemaskBuf {
        RemaskBuf {
            structure: None,
            bits: BitWriter::new(),
        }
    }
}

impl Default for RemaskBuf {
    fn default() -> RemaskBuf {
        RemaskBuf::new()
    }
}

/// Like [`remask`], but for any bytes and any mask. Only the lowest bits of the mask are written, one for each decode target. Bytes that can't be
/// read with the structure in force also give `NoFit`. After `NoFit`, `out` is unchanged. The bytes are read once.
pub fn remask_lowest(
    bytes: &[u8],
    force: Option<&Structure>,
    mask: u32,
    buf: &mut RemaskBuf,
    out: &mut PacketBuf,
) -> Result<(), NoFit>
    ensures ok { OnOk result (MakesBytes (parts_at bytes.now (option_copied force.entry)) mask out.new) }
    ensures err { OnErr result (MakesNone (parts_at bytes.now (option_copied force.entry)) mask) }
    ensures unchanged { OnErr result (out.new ≡ out.old) }
{
    let Ok(parts) = parts_in(bytes, force, &mut buf.structure) else {
        return Err(NoFit);
    };
    buf.bits.clear();
    match put_parts(&mut buf.bits, &parts, mask) {
        Err(_) => Err(NoFit),
        Ok(()) => {
            let bytes = buf.bits.bytes();
            if bytes.len() > MOST {
                return Err(NoFit);
            }
            out.fill(bytes);
            Ok(())
        }
    }
}

/// Replaces the contents of `out` with a copy of the descriptor in `bytes`. The copy has `mask` as its mask. Bit i of the mask says whether decode
/// target i is active. Bit 0 is the lowest bit. All parts except the mask are copied bit by bit. Bits after the frame's definition are dropped. The
/// last byte is padded with zero bits. Returns `NoFit` and leaves `out` unchanged if the result would be longer than 255 bytes.
///
/// The bytes must be a descriptor that can be read with the structure in force. If there are n decode targets, only the lowest n bits of the mask
/// may be set.
pub fn remask(
    bytes: &[u8],
    force: Option<&Structure>,
    mask: u32,
    out: &mut PacketBuf,
) -> Result<(), NoFit>
    requires { TakesMask bytes.now (option_copied force) mask }
    ensures remasked { (c : Content) (d : IsDescriptor bytes.now (option_copied force.entry) c) → OnOk result (IsPadded (remasked d mask) out.new) }
    ensures full { (c : Content) (d : IsDescriptor bytes.now (option_copied force.entry) c) → IsErr result ↔ (8 * 255 < length (remasked d mask)) }
    ensures reads { (c : Content) → descriptor_at bytes.now (option_copied force.entry) ≡ Ok c
        → OnOk result (descriptor_at out.new (option_copied force.entry) ≡ Ok (with_new_mask c mask)) }
    ensures unchanged { OnErr result (out.new ≡ out.old) }
{
    lemma_force_is_well_formed(force);
    remask_lowest(bytes, force, mask, &mut RemaskBuf::new(), out)
}
