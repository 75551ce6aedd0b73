// The numbers of a body: the type of each field, and one reader for all lists of fields.
ghost use Rattle.std.specs.Prelude.{◌≡◌, ◌≤◌, length};
ghost use Rattle.sfu_script.specs.Fields.{AreWithin};
ghost use Rattle.script_records.specs.ReadRecords.{numbers_at, size_of, width_of};

use byteorder::{BigEndian, ByteOrder};
use sfu_script::Field;

fn width(field: Field) -> usize
    ensures { result ≡ width_of field }
{
    match field {
        Field::Number8 => 1,
        Field::Number16 => 2,
        Field::Number32 | Field::Ssrc => 4,
        Field::Number64 => 8,
    }
}

/// Reads one number for each field. The first number begins at the start of `bytes`, and each number is in network byte order.
pub fn read_numbers<const N: usize>(fields: &[Field; N], bytes: &[u8]) -> [u64; N]
    requires { size_of fields.now ≤ length bytes.now }
    ensures value { result ≡ numbers_at fields.now bytes.now }
    ensures within { AreWithin fields.now result }
{
    let mut numbers = [0; N];
    let mut rest = bytes;
    for (i, field) in fields.iter().enumerate() {
        let count = width(*field);
        numbers[i] = BigEndian::read_uint(rest, count);
        rest = &rest[count..];
    }
    numbers
}
