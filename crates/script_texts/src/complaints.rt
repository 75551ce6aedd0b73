// The line for a complaint of the strict receiver.
ghost use Rattle.std.specs.Prelude.{◌≡◌, ◌++◌, OnErr, OnOk};
ghost use Rattle.script_texts.specs.Complaints.{complaint_text};
ghost use Rattle.script_texts.specs.Texts.{GoesOn};

use crate::pieces::Piece::{Number, Ssrc, Text};
use crate::pieces::append_pieces;
use crate::undo::whole_or_nothing;
use forwarding_model::Complaint;
use sfu_base::{Blob, NoMemory};

fn append_complaint(line: u32, complaint: &Complaint, out: &mut Blob) -> Result<(), NoMemory>
    ensures ok { OnOk result (out.new ≡ out.old ++ complaint_text line complaint.now) }
    ensures begun { GoesOn out.old out.new }
{
    let name = Text(b"line");
    let line = Number(u64::from(line));
    match complaint {
        Complaint::Unread => append_pieces(&[name, line, Text(b"unread")], out),
        Complaint::OtherSource { had, got } => append_pieces(
            &[name, line, Text(b"othersource"), Ssrc(*had), Ssrc(*got)],
            out,
        ),
        Complaint::Sequence { had, got } => append_pieces(
            &[
                name,
                line,
                Text(b"sequence"),
                Number(u64::from(*had)),
                Number(u64::from(*got)),
            ],
            out,
        ),
        Complaint::NoStructure => append_pieces(&[name, line, Text(b"nostructure")], out),
        Complaint::NotWhole => append_pieces(&[name, line, Text(b"notwhole")], out),
        Complaint::MissingReference { frame, fdiff } => append_pieces(
            &[
                name,
                line,
                Text(b"missingreference"),
                Number(u64::from(*frame)),
                Number(u64::from(*fdiff)),
            ],
            out,
        ),
    }
}

/// Appends `line N`, a space and the complaint. N is the number `line`. Appends no line end. On `NoMemory`, `out` is unchanged.
pub fn write_complaint(line: u32, complaint: &Complaint, out: &mut Blob) -> Result<(), NoMemory>
    ensures ok { OnOk result (out.new ≡ out.old ++ complaint_text line complaint.now) }
    ensures err { OnErr result (out.new ≡ out.old) }
{
    let start = out.bytes().len();
    let written = append_complaint(line, complaint, out);
    whole_or_nothing(written, start, out)
}
