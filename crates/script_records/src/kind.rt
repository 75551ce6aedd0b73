// The kinds of records, with their numbers and lengths.
ghost use Rattle.std.specs.Prelude.{◌≡◌};
ghost use Rattle.script_records.specs.Kinds.{code_of, has_length, kind_named, may_have};

/// The kind of a record. The number of the kind is the first byte of the record's body.
#[derive(Clone, Copy, Debug, PartialEq, Eq)]
pub enum RecordKind {
    PublishPlain = 1,
    PublishLayered = 2,
    Unpublish = 3,
    Packet = 4,
    Tick = 5,
    Join = 6,
    Leave = 7,
    Aim = 8,
    Take = 9,
    Resend = 10,
    Missing = 11,
    KeyWanted = 12,
    Plead = 13,
    Why = 14,
}

impl RecordKind {
    /// Returns the kind with this number, or `None` if no kind has this number.
    pub fn named(code: u8) -> Option<RecordKind>
        ensures { result ≡ kind_named code }
    {
        match code {
            1 => Some(RecordKind::PublishPlain),
            2 => Some(RecordKind::PublishLayered),
            3 => Some(RecordKind::Unpublish),
            4 => Some(RecordKind::Packet),
            5 => Some(RecordKind::Tick),
            6 => Some(RecordKind::Join),
            7 => Some(RecordKind::Leave),
            8 => Some(RecordKind::Aim),
            9 => Some(RecordKind::Take),
            10 => Some(RecordKind::Resend),
            11 => Some(RecordKind::Missing),
            12 => Some(RecordKind::KeyWanted),
            13 => Some(RecordKind::Plead),
            14 => Some(RecordKind::Why),
            _ => None,
        }
    }

    /// Returns the number of this kind.
    pub fn code(self) -> u8
        ensures { result ≡ code_of self }
    {
        self as u8
    }

    /// Returns whether a body of this kind may have `length` bytes. These include the first byte, which is the kind's number.
    pub fn has_length(self, length: usize) -> bool
        ensures { result ≡ has_length self length }
    {
        match self {
            RecordKind::Unpublish
            | RecordKind::Leave
            | RecordKind::Take
            | RecordKind::Missing
            | RecordKind::KeyWanted
            | RecordKind::Plead => length == 5,
            RecordKind::Aim | RecordKind::Resend => length == 7,
            RecordKind::PublishPlain | RecordKind::Tick | RecordKind::Why => length == 13,
            RecordKind::PublishLayered => length == 14,
            RecordKind::Join => length == 17,
            RecordKind::Packet => length >= 14 && length <= 2061,
        }
    }
}

/// Returns whether the body of a record may begin with the byte `code` and have `length` bytes, including this first byte. If it may, all bytes with this
/// first byte and this length are the body of a call. Allocates no memory.
pub fn may_have_length(code: u8, length: usize) -> bool
    ensures { result ≡ may_have code length }
{
    match RecordKind::named(code) {
        Some(kind) => kind.has_length(length),
        None => false,
    }
}
