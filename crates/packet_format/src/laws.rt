// Laws of the definitions.

ghost use Rattle.std.specs.Prelude.{◌≡◌, ℕ, List, Ok, Option, Some, is_some};
ghost use Rattle.sfu_base.specs.Bytes.{AreBytes};
ghost use Rattle.forwarding_model.specs.frames.Reading.{IsFormat};
ghost use Rattle.dd_structure.specs.TemplateStructure.{TemplateStructure};
ghost use Rattle.dd_descriptor.specs.Content.{Content};
ghost use Rattle.dd_descriptor.specs.Laid.{IsDescriptor};
ghost use Rattle.dd_descriptor.specs.Reading.{descriptor_at};
ghost use Rattle.dd_descriptor.specs.Remasking.{remasked as remasked_bits};
ghost use Rattle.packet_format.specs.Formats.{format_of};
ghost use Rattle.packet_format.specs.Packets.{PacketsAreSent, RestsSayTheSame};
ghost use Rattle.packet_format.specs.Remasked.{new_value};
ghost use Rattle.packet_format.specs.WholeBytes.{whole_bytes};
ghost use Rattle.packet_format.specs.CarriedMask.{carries_mask_in};
ghost use Rattle.packet_format.specs.RemaskedReads.{CarriedStructuresDecide, FirstPacketsShow, PacketsAreRemasked, RemaskedPacketsShow, RestsAreRemasked, RestsCarryMask};

/// For every header extension id, the format that reads packets with this id satisfies `IsFormat`. The laws of forwarding require this of a format.
pub fn formats_have_the_facts()
    ensures { (id : ℕ) → IsFormat (format_of id) }
{}

/// A packet is sent with the bytes with which it arrived. Only its sequence number, SSRC and marker may change. The `rest` of a packet is the packet
/// with these three fields set to 0. `rest` has the same header extension, payload and faults as the packet.
pub fn packets_are_sent_as_they_came()
    ensures sent { PacketsAreSent }
    ensures rests { RestsSayTheSame }
{}

/// A packet with a new mask differs from the old packet only in its header extension. Header extension elements other than the descriptor keep their
/// values. When the new packet is read, its payload is the same, and its descriptor is the same except for the mask.
pub fn remasked_packets_show_the_new_mask()
    ensures packets { PacketsAreRemasked }
    ensures shown { RemaskedPacketsShow }
    ensures first { FirstPacketsShow }
    ensures carried { CarriedStructuresDecide }
    ensures rests { RestsAreRemasked }
    ensures carries_mask { RestsCarryMask }
{}

/// A law: suppose that a descriptor can be parsed. It says which decode targets are active if and only if it carries a mask or a structure. If it
/// carries a mask, the mask says which targets are active. If it carries only a structure, all decode targets of that structure are active.
pub fn descriptors_carry_their_mask()
    ensures { (bytes : List ℕ) (force : Option TemplateStructure) (c : Content) → AreBytes bytes → descriptor_at bytes force ≡ Ok c
        → carries_mask_in (Some bytes) ≡ is_some c.mask }
{}

/// A law: if a packet gets a new mask, the new value of its descriptor element is the descriptor with this mask. The new value consists of the bits of
/// the descriptor's parts, concatenated, and of zero bits that fill up the last byte.
pub fn new_values_are_remasked_descriptors()
    ensures { (bytes : List ℕ) (force : Option TemplateStructure) (c : Content) (mask : ℕ) → (d : IsDescriptor bytes force c)
        → new_value force mask (Some bytes) ≡ Some (whole_bytes (remasked_bits d mask)) }
{}
