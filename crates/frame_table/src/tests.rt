// Tests of what is in force after some descriptors.

ghost use Rattle.std.specs.Prelude.{◌+◌, ◌<◌, ◌≤◌, ◌^◌};

use crate::{FrameTable, Reading};

// A key descriptor with one target; a later descriptor with the same structure; and a later descriptor with another structure.
const KEY: [u8; 9] = [0xc0, 0xff, 0xff, 0x80, 0x00, 0x3a, 0x41, 0x01, 0x00];

const REPEATED: [u8; 9] = [0x40, 0xff, 0xff, 0x80, 0x00, 0x3a, 0x41, 0x01, 0x00];

const OTHER: [u8; 9] = [0x40, 0xff, 0xff, 0x80, 0x00, 0x3b, 0x41, 0x01, 0x00];

// What a table returns for the second descriptor after the first, or `None` if one of them can't be read.
fn seen_after(first: &[u8], second: &[u8]) -> Option<Reading> {
    let mut table = FrameTable::new();
    see(&mut table, first)?;
    see(&mut table, second)
}

// What a table returns for a descriptor, or `None` if the descriptor can't be read.
fn see(table: &mut FrameTable, bytes: &[u8]) -> Option<Reading>
    requires { table.old.newest < 2 ^ 62 }
    ensures { table.new.newest ≤ table.old.newest + 65536 }
{
    match dd_descriptor::read(bytes, table.force()) {
        Ok(descriptor) => Some(table.see(&descriptor)),
        Err(_) => None,
    }
}

#[test]
fn a_key_start_puts_its_structure_in_force(rt: HostRuntime) {
    let part = [0xc1, 0x00, 0x00];
    assert_eq!(rt; seen_after(&part, &KEY), None);
    assert_eq!(rt; seen_after(&KEY, &KEY), Some(Reading::Key));
    assert_eq!(rt; seen_after(&KEY, &part), Some(Reading::Part));
    assert_eq!(rt; seen_after(&KEY, &REPEATED), Some(Reading::Part));
    assert_eq!(rt; seen_after(&KEY, &OTHER), Some(Reading::Unread));
}
