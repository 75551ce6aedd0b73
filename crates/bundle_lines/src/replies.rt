// The replies that occur only in scripts with bundles.
ghost use Rattle.std.specs.Prelude.{◌≡◌, ◌++◌, ◌∷◌, [], OnErr, OnOk, decimal};
ghost use Rattle.script_texts.specs.Texts.{GoesOn};
ghost use Rattle.bundle_lines.specs.Replies.{bundle_reply_text};

use itoa::Buffer;
use script_texts::end_line;
use sfu_base::{Blob, NoMemory};

/// A reply that occurs only in scripts with bundles. Own rule.
#[derive(Clone, Copy, Debug, PartialEq, Eq)]
pub enum BundleReply {
    /// The pump took packets: `forwarded` of them were forwarded, and `dropped` were dropped.
    Pumped { forwarded: u32, dropped: u32 },
    /// There is no bundle with this number.
    NoBundle,
    /// The bundle doesn't have the leg that the line names. The bundle's legs are numbered 1 to `legs`.
    NoLeg { legs: u8 },
    /// A leg's track isn't layered, or the track's header extension id differs from the id in the line.
    WrongKind,
    /// A subscriber that the line names is already a leg of bundle `bundle`. Or `bundle` is the new bundle, and the line lists the same subscriber twice as a
    /// leg.
    Bound { bundle: u32 },
}

fn append_numbered(words: &[u8], number: u32, out: &mut Blob) -> Result<(), NoMemory>
    ensures ok { OnOk result (out.new ≡ out.old ++ (words.now ++ decimal number)) }
    ensures begun { GoesOn out.old out.new }
{
    let mut digits = Buffer::new();
    out.append(words)?;
    out.append(digits.format(number).as_bytes())
}

fn append_bundle_reply(reply: BundleReply, out: &mut Blob) -> Result<(), NoMemory>
    ensures ok { OnOk result (out.new ≡ out.old ++ bundle_reply_text reply) }
    ensures begun { GoesOn out.old out.new }
{
    match reply {
        BundleReply::Pumped { forwarded, dropped } => {
            append_numbered(b"pumped ", forwarded, out)?;
            append_numbered(b" ", dropped, out)
        }
        BundleReply::NoBundle => out.append(b"refused nobundle"),
        BundleReply::NoLeg { legs } => append_numbered(b"refused noleg ", u32::from(legs), out),
        BundleReply::WrongKind => out.append(b"refused wrongkind"),
        BundleReply::Bound { bundle } => append_numbered(b"refused bound ", bundle, out),
    }
}

/// Appends a reply to `ready` as a line with its line end. On `NoMemory`, `ready` is unchanged.
pub fn add_bundle_reply(reply: BundleReply, ready: &mut Blob) -> Result<(), NoMemory>
    ensures ok { OnOk result (ready.new ≡ ready.old ++ (bundle_reply_text reply ++ 10 ∷ [])) }
    ensures err { OnErr result (ready.new ≡ ready.old) }
{
    let start = ready.bytes().len();
    if append_bundle_reply(reply, ready).is_err() {
        ready.truncate(start);
        return Err(NoMemory);
    }
    end_line(start, ready)
}
