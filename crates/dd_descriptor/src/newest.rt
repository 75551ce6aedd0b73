//! Reads the descriptors of consecutive packets, and keeps the newest.

ghost use Rattle.std.specs.Prelude.{◌≡◌, ◌≤◌, OnOk};
ghost use Rattle.std.specs.Option.{option_copied};
ghost use Rattle.dd_descriptor.specs.Content.{holding};
ghost use Rattle.dd_descriptor.specs.Reading.{descriptor_at};
ghost use Rattle.dd_descriptor.specs.Seen.{content_of, AnswersIn, IsBlank};
ghost use Rattle.dd_descriptor.specs.Spelling.{IsWritableBy};

use crate::descriptor::Descriptor;
use crate::fault::DdFault;
use crate::reading::read_into;
use dd_structure::Structure;
use std::marker::Model;

/// Reads descriptors one after another, and keeps the newest. Contracts see only the newest descriptor. There are two buffers, because a structure
/// is long. Descriptors that carry a structure are read into the first buffer, and all others into the second. Most descriptors carry no structure.
/// Reading one of these leaves the first buffer unchanged. The next descriptor with a structure overwrites the first buffer.
#[derive(Debug, Drop)]
pub struct NewestDescriptor {
    carrying: Descriptor,
    plain: Descriptor,
    // Whether the newest descriptor is in `carrying`, and not in `plain`.
    carries: bool,
}

impl Model for NewestDescriptor {
    ghost use Rattle.std.specs.Prelude.{if◌then◌else◌};
    ghost use Rattle.dd_descriptor.specs.declared.descriptor.Descriptor.{Descriptor};

    ghost Value = { Descriptor };

    ghost view = { λ n. if n.carries then n.carrying else n.plain };
}

impl NewestDescriptor {
    /// Returns a `NewestDescriptor` that has read nothing yet. Its newest descriptor is blank.
    pub fn new() -> NewestDescriptor
        ensures { IsBlank result }
    {
        NewestDescriptor {
            carrying: Descriptor::new(),
            plain: Descriptor::new(),
            carries: false,
        }
    }

    /// Reads the next descriptor, as [`read_into`] does. After a fault, the newest descriptor may have any contents.
    pub fn read(&mut self, bytes: &[u8], force: Option<&Structure>) -> Result<(), DdFault>
        ensures read { AnswersIn (option_copied force.entry) self.new result (descriptor_at bytes.now (option_copied force.entry)) }
        ensures writable { OnOk result (IsWritableBy (holding self.new.structure (option_copied force.entry))
            (content_of (option_copied force.entry) self.new)) }
        ensures few { OnOk result (self.new.ref_count ≤ 16) }
    {
        if is_flagged(bytes) {
            self.carries = true;
            read_into(bytes, force, &mut self.carrying)
        } else {
            self.carries = false;
            read_into(bytes, force, &mut self.plain)
        }
    }

    /// Returns the newest descriptor.
    pub fn get(&self) -> &Descriptor
        ensures { result.now ≡ self.now }
    {
        if self.carries {
            &self.carrying
        } else {
            &self.plain
        }
    }
}

// Whether the flag of a carried structure is set, which is the first bit after the first three bytes. A wrong result does no harm, since either
// buffer can have any descriptor.
fn is_flagged(bytes: &[u8]) -> bool {
    match bytes {
        [_, _, _, flags, ..] => *flags >= 0x80,
        _ => false,
    }
}
