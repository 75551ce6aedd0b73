// Appends elements to a buffer.

ghost use Rattle.std.specs.Prelude.{◌≡◌, ◌+◌, ◌++◌, ◌≤◌, ◌↔◌, IsOk, OnErr, OnOk, length};
ghost use Rattle.rtp_extension.specs.Forms.{Fits, element_bytes};
ghost use Rattle.rtp_extension.specs.Writing.{AddsElement, CanAppend};

use crate::form::{Form, LONGEST_ONE_BYTE, LONGEST_TWO_BYTE};
use sfu_base::{NoFit, PacketBuf};

/// The capacity of a buffer, in bytes.
pub(crate) const CAPACITY: usize = 2048;

/// Appends an element in the one-byte form (RFC 8285, section 4.2). The id must be 1 to 14, the value must have 1 to 16 bytes, and the buffer must
/// not exceed 2,048 bytes afterwards. Otherwise returns `NoFit` and leaves the buffer unchanged.
pub fn write_one(out: &mut PacketBuf, id: u8, value: &[u8]) -> Result<(), NoFit>
    ensures fits { IsOk result ↔ CanAppend Form.OneByte out.old (record { id = id; value = value.now }) }
    ensures ok { OnOk result (out.new ≡ out.old ++ element_bytes Form.OneByte (record { id = id; value = value.now })) }
    ensures reads { OnOk result (AddsElement Form.OneByte out.old out.new (record { id = id; value = value.now })) }
    ensures err { OnErr result (out.new ≡ out.old) }
{
    if !(1..=14).contains(&id) || !(1..=LONGEST_ONE_BYTE).contains(&value.len()) {
        return Err(NoFit);
    }
    if out.bytes().len() + 1 + value.len() > CAPACITY {
        return Err(NoFit);
    }
    append_element(out, Form::OneByte, id, value);
    Ok(())
}

/// Appends an element in the two-byte form (RFC 8285, section 4.3). Returns `NoFit` if the id is 0, if the value has more than 255 bytes, or if the
/// buffer would exceed 2,048 bytes. After `NoFit` the buffer is unchanged.
pub fn write_two(out: &mut PacketBuf, id: u8, value: &[u8]) -> Result<(), NoFit>
    ensures fits { IsOk result ↔ CanAppend Form.TwoByte out.old (record { id = id; value = value.now }) }
    ensures ok { OnOk result (out.new ≡ out.old ++ element_bytes Form.TwoByte (record { id = id; value = value.now })) }
    ensures reads { OnOk result (AddsElement Form.TwoByte out.old out.new (record { id = id; value = value.now })) }
    ensures err { OnErr result (out.new ≡ out.old) }
{
    if id == 0 || value.len() > LONGEST_TWO_BYTE {
        return Err(NoFit);
    }
    if out.bytes().len() + 2 + value.len() > CAPACITY {
        return Err(NoFit);
    }
    append_element(out, Form::TwoByte, id, value);
    Ok(())
}

/// Appends an element. The form must be able to encode this element, and the element must fit in the buffer.
pub(crate) fn append_element(out: &mut PacketBuf, form: Form, id: u8, value: &[u8])
    requires fits { Fits form (record { id = id; value = value.now }) }
    requires capacity { length out.old + length (element_bytes form (record { id = id; value = value.now })) ≤ 2048 }
    ensures { out.new ≡ out.old ++ element_bytes form (record { id = id; value = value.now }) }
{
    match form {
        Form::OneByte => out.append(&[id * 16 + (value.len() - 1) as u8]),
        Form::TwoByte => out.append(&[id, value.len() as u8]),
    }
    out.append(value);
}
