// The values of a body to write, and one writer for all lists of values.
ghost use Rattle.std.specs.Prelude.{◌≡◌, ◌<◌, ◌^◌, ◌++◌, length, OnOk};
ghost use Rattle.script_texts.specs.Texts.{GoesOn};
ghost use Rattle.script_records.specs.Values.{value_bytes, values_bytes};

use sfu_base::{Blob, NoMemory};

/// One of the values that follow the kind in the body of a record.
#[derive(Clone, Copy, Debug, PartialEq, Eq)]
pub enum Value<'a> {
    /// A number of 8 bits.
    Of8(u8),
    /// A number of 16 bits.
    Of16(u16),
    /// A number of 32 bits.
    Of32(u32),
    /// A number of 64 bits.
    Of64(u64),
    /// The bytes of a packet.
    Bytes(&'a [u8]),
}

impl Value<'_> {
    // Returns the number of bytes of the value.
    fn size(&self) -> usize
        ensures { result ≡ length (value_bytes self.now) }
    {
        match self {
            Value::Of8(_) => 1,
            Value::Of16(_) => 2,
            Value::Of32(_) => 4,
            Value::Of64(_) => 8,
            Value::Bytes(bytes) => bytes.len(),
        }
    }
}

/// Returns the number of bytes of all values together.
pub fn size(values: &[Value]) -> usize
    requires { length (values_bytes values.now) < 2 ^ 16 }
    ensures { result ≡ length (values_bytes values.now) }
{
    let mut count = 0;
    for value in values {
        count += value.size();
    }
    count
}

fn append_value(value: &Value, out: &mut Blob) -> Result<(), NoMemory>
    ensures ok { OnOk result (out.new ≡ out.old ++ value_bytes value.now) }
    ensures begun { GoesOn out.old out.new }
{
    match value {
        Value::Of8(number) => out.append(&number.to_be_bytes()),
        Value::Of16(number) => out.append(&number.to_be_bytes()),
        Value::Of32(number) => out.append(&number.to_be_bytes()),
        Value::Of64(number) => out.append(&number.to_be_bytes()),
        Value::Bytes(bytes) => out.append(bytes),
    }
}

/// Appends values one after another. On `NoMemory` a prefix of their bytes may have been appended.
pub fn append_values(values: &[Value], out: &mut Blob) -> Result<(), NoMemory>
    ensures ok { OnOk result (out.new ≡ out.old ++ values_bytes values.now) }
    ensures begun { GoesOn out.old out.new }
{
    for value in values {
        append_value(value, out)?;
    }
    Ok(())
}
