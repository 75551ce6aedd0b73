//! Reads a descriptor field by field, in the order of the bits.

mod distances;
pub mod fields;
pub mod frame;
mod template;

ghost use Rattle.std.specs.Prelude.{◌≡◌, ◌<◌, ◌≤◌, true, IfOk, IfSome, None, OnOk};
ghost use Rattle.std.specs.Option.{option_copied};
ghost use Rattle.dd_bits.specs.Reader.{bits_left};
ghost use Rattle.dd_bits.specs.Sequences.{Gives};
ghost use Rattle.dd_structure.specs.Spelling.{IsWellFormed};
ghost use Rattle.dd_descriptor.specs.Content.{holding};
ghost use Rattle.dd_descriptor.specs.Reading.{carried_at, mask_at, body_at, held_body_at, descriptor_at};
ghost use Rattle.dd_descriptor.specs.Seen.{frame_of, targets_in, chains_in, content_of, Answers, AnswersIn};
ghost use Rattle.dd_descriptor.specs.Spelling.{IsWritableBy};

use crate::descriptor::{Custom, Descriptor};
use crate::fault::DdFault;
use crate::mask::all_active;
use crate::parts::{Flags, FrameHead};
use crate::reading::fields::{flags, head, number};
use crate::reading::frame::{fill_frame, index};
use dd_bits::BitReader;
use dd_structure::Structure;
use sfu_base::Dti;

/// Reads the carried structure into `out`, which is overwritten. Out of line: few descriptors carry a structure.
#[tactic(auto, unfolding(crate::specs::Reading::carried_at, dd_structure::specs::Reading::some_structure_at))]
#[inline(never)]
fn put_structure(bits: &mut BitReader<'_>, out: &mut Option<Structure>) -> Result<(), DdFault>
    ensures { Gives (λ _. out.new) result bits.new (carried_at true (bits_left bits.old)) }
{
    match Structure::read_into(bits, out) {
        Ok(()) => Ok(()),
        Err(fault) => Err(DdFault::Bad(fault)),
    }
}

// Removes the structure. Out of line: this happens rarely, and clears much memory.
#[cold]
#[inline(never)]
fn clear(out: &mut Option<Structure>)
    ensures { out.new ≡ None }
{
    *out = None;
}

/// If the descriptor carries a structure, reads it into `out`, which is overwritten. If it carries none, `out` becomes `None`.
#[tactic(auto, unfolding(crate::specs::Reading::carried_at))]
#[inline(always)]
pub fn put_carried(
    bits: &mut BitReader<'_>,
    is_present: bool,
    out: &mut Option<Structure>,
) -> Result<(), DdFault>
    ensures { Gives (λ _. out.new) result bits.new (carried_at is_present (bits_left bits.old)) }
{
    if is_present {
        return put_structure(bits, out);
    }
    // A structure is long, so `out` isn't written if it is `None` already.
    if out.is_some() {
        clear(out);
    }
    Ok(())
}

/// Returns the mask of active decode targets. If the descriptor has a mask, reads and returns it. If the descriptor carries a structure but no
/// mask, returns the mask in which all decode targets are active. Otherwise returns `None`.
#[tactic(auto, unfolding(crate::specs::Reading::mask_at))]
#[inline(always)]
pub fn mask(
    bits: &mut BitReader<'_>,
    is_present: bool,
    carries: bool,
    targets: u8,
) -> Result<Option<u32>, DdFault>
    requires { targets ≤ 32 }
    ensures { Gives (λ m. m) result bits.new (mask_at is_present carries targets (bits_left bits.old)) }
{
    if is_present {
        let mask = number(bits, targets)?;
        Ok(Some(mask))
    } else if carries {
        Ok(Some(all_active(targets)))
    } else {
        Ok(None)
    }
}

/// Reads the fields that follow the structure: the mask and the frame's definition.
#[tactic(auto, unfolding(crate::specs::Reading::body_at))]
#[inline(always)]
fn body(
    bits: &mut BitReader<'_>,
    template: u8,
    flags: Flags,
    carries: bool,
    structure: &Structure,
    dtis: &mut [Dti; 32],
    refs: &mut [u16; 16],
    links: &mut [u8; 32],
) -> Result<(Option<u32>, FrameHead), DdFault>
    requires { template < 64 }
    ensures { Gives (λ x. (x.0, frame_of structure.now.target_count structure.now.chain_count x.1 dtis.new refs.new links.new)) result bits.new
        (body_at template flags carries structure.now (bits_left bits.old)) }
{
    let mask = mask(bits, flags.mask, carries, structure.target_count())?;
    let index = index(template, structure)?;
    let frame = fill_frame(bits, flags, structure, index, dtis, refs, links)?;
    Ok((mask, frame))
}

/// Returns the carried structure. If there is none, returns the structure in force.
#[inline(always)]
fn held<'a>(carried: &'a Option<Structure>, force: Option<&'a Structure>) -> Option<&'a Structure>
    ensures { option_copied result ≡ holding carried.now (option_copied force.entry) }
{
    match carried {
        Some(structure) => Some(structure),
        None => force,
    }
}

/// Does what `body` does, with the carried structure. If there is none, uses the structure in force.
#[tactic(auto, unfolding(crate::specs::Reading::held_body_at))]
#[inline(always)]
fn held_body(
    bits: &mut BitReader<'_>,
    template: u8,
    flags: Flags,
    carried: &Option<Structure>,
    force: Option<&Structure>,
    dtis: &mut [Dti; 32],
    refs: &mut [u16; 16],
    links: &mut [u8; 32],
) -> Result<(Option<u32>, FrameHead), DdFault>
    requires { template < 64 }
    ensures { Gives (λ x. (
      x.0,
      frame_of (targets_in (holding carried.now (option_copied force.entry)))
          (chains_in (holding carried.now (option_copied force.entry))) x.1 dtis.new refs.new links.new,
    ))
        result bits.new (held_body_at template flags carried.now (option_copied force.entry) (bits_left bits.old)) }
{
    match held(carried, force) {
        Some(structure) => body(
            bits,
            template,
            flags,
            carried.is_some(),
            structure,
            dtis,
            refs,
            links,
        ),
        None => Err(DdFault::NoStructure),
    }
}

/// A lemma: a structure in force is well formed. The function does nothing at run time.
pub fn lemma_force_is_well_formed(force: Option<&Structure>)
    ensures { IfSome (option_copied force.entry) IsWellFormed }
{
    if let Some(structure) = force {
        structure.is_well_formed();
    }
}

/// Reads each field of a descriptor into `out`, which is overwritten.
#[tactic(auto, unfolding(crate::specs::Reading::descriptor_at))]
#[inline(always)]
fn fill_fields(bytes: &[u8], force: Option<&Structure>, out: &mut Descriptor) -> Result<(), DdFault>
    ensures read { AnswersIn (option_copied force.entry) out.new result (descriptor_at bytes.now (option_copied force.entry)) }
    ensures few { OnOk result (out.new.ref_count ≤ 16) }
{
    let (head, mut bits) = head(bytes)?;
    let flags = flags(&mut bits, bytes.len())?;
    put_carried(&mut bits, flags.structure, &mut out.structure)?;
    let (mask, frame) = held_body(
        &mut bits,
        head.template,
        flags,
        &out.structure,
        force,
        &mut out.dtis,
        &mut out.refs,
        &mut out.links,
    )?;
    out.start = head.start;
    out.end = head.end;
    out.template = head.template;
    out.number = head.number;
    out.mask = mask;
    out.spatial = frame.layer.spatial;
    out.temporal = frame.layer.temporal;
    out.custom = Custom {
        dtis: flags.dtis,
        fdiffs: flags.fdiffs,
        chains: flags.chains,
    };
    out.ref_count = frame.ref_count;
    Ok(())
}

/// Does what `fill_fields` does. Called for descriptors with flags. Out of line, to keep the code for descriptors without flags fast.
#[inline(never)]
fn fill_flagged(
    bytes: &[u8],
    force: Option<&Structure>,
    out: &mut Descriptor,
) -> Result<(), DdFault>
    ensures read { AnswersIn (option_copied force.entry) out.new result (descriptor_at bytes.now (option_copied force.entry)) }
    ensures few { OnOk result (out.new.ref_count ≤ 16) }
{
    fill_fields(bytes, force, out)
}

/// Does what `fill_fields` does. Descriptors of three bytes have a code path of their own, because most descriptors have three bytes.
#[inline(always)]
fn fill(bytes: &[u8], force: Option<&Structure>, out: &mut Descriptor) -> Result<(), DdFault>
    ensures read { AnswersIn (option_copied force.entry) out.new result (descriptor_at bytes.now (option_copied force.entry)) }
    ensures few { OnOk result (out.new.ref_count ≤ 16) }
{
    if bytes.len() == 3 {
        fill_fields(bytes, force, out)
    } else {
        fill_flagged(bytes, force, out)
    }
}

/// Reads a descriptor (RTP Payload Format For AV1 v1.0, Appendix A) into `out`, which is overwritten. A descriptor that carries no structure is
/// read with `force`, the structure in force. Bits after the frame's definition are ignored. If there are several faults, the first one from the
/// left is returned. After an error, `out` may have any contents. A descriptor that was read without an error can be written.
#[inline(always)]
pub fn read_into(
    bytes: &[u8],
    force: Option<&Structure>,
    out: &mut Descriptor,
) -> Result<(), DdFault>
    ensures read { AnswersIn (option_copied force.entry) out.new result (descriptor_at bytes.now (option_copied force.entry)) }
    ensures writable { OnOk result (IsWritableBy (holding out.new.structure (option_copied force.entry)) (content_of (option_copied force.entry) out.new)) }
    ensures few { OnOk result (out.new.ref_count ≤ 16) }
{
    lemma_force_is_well_formed(force);
    fill(bytes, force, out)
}

/// Like [`read_into`], but returns a new descriptor. A descriptor takes 5 KB. To read many descriptors, it costs less to reuse one with
/// [`read_into`].
pub fn read(bytes: &[u8], force: Option<&Structure>) -> Result<Descriptor, DdFault>
    ensures read { Answers (option_copied force.entry) result (descriptor_at bytes.now (option_copied force.entry)) }
    ensures writable { IfOk result (λ d. IsWritableBy (holding d.structure (option_copied force.entry)) (content_of (option_copied force.entry) d)) }
    ensures few { IfOk result (λ d. d.ref_count ≤ 16) }
{
    let mut descriptor = Descriptor::new();
    read_into(bytes, force, &mut descriptor)?;
    Ok(descriptor)
}
