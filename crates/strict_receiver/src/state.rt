// The state of a receiver between packets, and how the next packet changes it.

ghost use Rattle.std.specs.Prelude.{◌≡◌, ◌∷◌, ℕ, List, Option, Some, if◌then◌else◌, is_some, true};
ghost use Rattle.std.specs.Option.{option_map};
ghost use Rattle.forwarding_model.specs.declared.complaint.Complaint.{Complaint};
ghost use Rattle.forwarding_model.specs.Receiver.{OpenFrame as ModelFrame, Receiver, Reception, accepted, ends_frame, is_content, receive, with_frame};
ghost use Rattle.forwarding_model.specs.Receiver.Receiver.{Waiting};
ghost use Rattle.dd_structure.specs.TemplateStructure.{TemplateStructure};
ghost use Rattle.packet_format.specs.Formats.{format_of};
ghost use Rattle.packet_format.specs.Packets.{packet_of, read_packet};
ghost use Rattle.packet_format.specs.Shown.{HasDistances, IsOf};
ghost use Rattle.strict_receiver.specs.Frames.{frame_said, joined_as, said_by};
ghost use Rattle.strict_receiver.specs.Numbers.{AreKeptOf};
ghost use Rattle.strict_receiver.specs.States.{Answers, Expects, Fed, Finishes, IsExpected, IsStateOf, Joined, part_as, reception_for};

use crate::frame::OpenFrame;
use crate::joining::{begins, begun, goes_on};
use crate::received::ReceivedFrames;
use dd_descriptor::NewestDescriptor;
use dd_structure::Structure;
use forwarding_model::Complaint;
use packet_format::{PayloadFlags, Shown, begins_epoch, show};
use rtp_packet::Rtp;

/// The progress of a receiver.
#[derive(Clone, Copy, Debug)]
pub enum Stage {
    /// No packet has arrived yet.
    Waiting,
    /// All packets so far were accepted.
    Receiving(Last),
    /// The receiver had this complaint about a packet, and keeps it.
    Complaining(Complaint),
}

/// The last packet's SSRC and sequence number.
#[derive(Clone, Copy, Debug)]
pub struct Last {
    pub ssrc: u32,
    pub sequence: u16,
}

/// The state of a receiver. `id` is the header extension id of the descriptors. `newest` is working memory of the parser.
#[derive(Drop)]
pub struct State {
    pub id: u8,
    pub stage: Stage,
    /// The frame that has begun and hasn't ended yet.
    pub frame: Option<OpenFrame>,
    /// The structure in force.
    pub structure: Option<Structure>,
    pub received: ReceivedFrames,
    pub newest: NewestDescriptor,
}

impl State {
    /// The state before the first packet.
    pub fn new(id: u8) -> State
        ensures id { result.id ≡ id }
        ensures stands { IsStateOf result Waiting }
    {
        State {
            id,
            stage: Stage::Waiting,
            frame: None,
            structure: None,
            received: ReceivedFrames::new(),
            newest: NewestDescriptor::new(),
        }
    }

    /// Processes the next packet. If there is a complaint, it is kept, and every later call returns it.
    pub fn next(&mut self, packet: &[u8]) -> Result<(), Complaint>
        ensures id { self.new.id ≡ self.old.id }
        ensures again { (complaint : Complaint) → self.old.stage ≡ Stage.Complaining complaint → result ≡ Err complaint }
        ensures unchanged { (complaint : Complaint) → self.old.stage ≡ Stage.Complaining complaint → self.new ≡ self.old }
        ensures fed { (m : Receiver TemplateStructure) → IsStateOf self.old m
            → Fed self.new result (receive (format_of self.old.id) m (read_packet packet.now)) }
    {
        if let Stage::Complaining(complaint) = self.stage {
            return Err(complaint);
        }
        match self.accept(packet) {
            Ok(()) => Ok(()),
            Err(complaint) => {
                self.stage = Stage::Complaining(complaint);
                Err(complaint)
            }
        }
    }

    /// Whether the last packet was accepted and ended a frame.
    pub fn has_ended_a_frame(&self) -> bool
        ensures { (m : Receiver TemplateStructure) → IsStateOf self.now m → (if result then 1 else 0) ≡ ends_frame m }
    {
        match &self.stage {
            Stage::Receiving(_) => self.frame.is_none(),
            _ => false,
        }
    }

    // Processes the next packet of a receiver that has no complaint.
    fn accept(&mut self, bytes: &[u8]) -> Result<(), Complaint>
        ensures id { self.new.id ≡ self.old.id }
        ensures accepted { (m : Receiver TemplateStructure) → IsStateOf self.old m → is_content m ≡ true
            → Answers self.new result (receive (format_of self.old.id) m (read_packet bytes.now)) }
    {
        let Ok(rtp) = rtp_packet::read(bytes) else {
            return Err(Complaint::Unread);
        };
        match self.expect(rtp.ssrc, rtp.seq) {
            Ok(()) => self.take(&rtp),
            Err(complaint) => Err(complaint),
        }
    }

    // Checks that a packet has the last packet's SSRC and the next sequence number, or that it is the first packet.
    fn expect(&self, ssrc: u32, sequence: u16) -> Result<(), Complaint>
        ensures { (m : Receiver TemplateStructure) → IsStateOf self.now m → Expects self.now ssrc result (reception_for m ssrc sequence) }
    {
        match self.stage {
            Stage::Waiting => Ok(()),
            Stage::Receiving(last) => {
                if ssrc != last.ssrc {
                    return Err(Complaint::OtherSource {
                        had: last.ssrc,
                        got: ssrc,
                    });
                }
                if sequence != last.sequence.wrapping_add(1) {
                    return Err(Complaint::Sequence {
                        had: last.sequence,
                        got: sequence,
                    });
                }
                Ok(())
            }
            Stage::Complaining(complaint) => Err(complaint),
        }
    }

    // Processes a packet with the expected SSRC and sequence number.
    fn take(&mut self, rtp: &Rtp<'_>) -> Result<(), Complaint>
        ensures id { self.new.id ≡ self.old.id }
        ensures taken { (bytes : List ℕ) (r : Reception TemplateStructure) → IsOf bytes rtp.now → IsExpected self.old rtp.now.ssrc r
            → Answers self.new result (accepted (format_of self.old.id) r (packet_of bytes)) }
    {
        match show(rtp, self.id, self.structure.as_ref(), &mut self.newest) {
            Shown::LacksStructure => Err(Complaint::NoStructure),
            Shown::Unread => Err(Complaint::Unread),
            Shown::Shows(flags) => match flags {
                PayloadFlags::Elements { continues, carries } => {
                    let last = Last {
                        ssrc: rtp.ssrc,
                        sequence: rtp.seq,
                    };
                    self.part(last, continues, carries)
                }
                _ => Err(Complaint::Unread),
            },
        }
    }

    // Processes a packet whose payload was read, and whose descriptor was read into `newest`.
    fn part(&mut self, last: Last, continues: bool, carries: bool) -> Result<(), Complaint>
        requires { HasDistances self.old.newest }
        ensures id { self.new.id ≡ self.old.id }
        ensures joined { (r : Reception TemplateStructure) → IsExpected self.old last.ssrc r
            → Answers self.new result (part_as r last.sequence (said_by self.old.structure self.old.newest)
            (record { continues = continues; carries = carries })) }
    {
        let key = begins_epoch(self.newest.get());
        self.keep_structure(key);
        if !self.join(continues, carries) {
            return Err(Complaint::NotWhole);
        }
        match self.finish() {
            Ok(()) => {
                self.stage = Stage::Receiving(last);
                Ok(())
            }
            Err(complaint) => Err(complaint),
        }
    }

    // At the start of a key frame, puts its structure in force.
    fn keep_structure(&mut self, key: bool)
        ensures structure { self.new.structure ≡ (if key then self.old.newest.structure else self.old.structure) }
        ensures rest { self.new ≡ record self.old { structure = self.new.structure } }
    {
        if key {
            self.structure = match &self.newest.get().structure {
                Some(structure) => Some(structure.copied()),
                None => None,
            };
        }
    }

    // Adds the newest packet to the open frame or, if none is open, begins a frame with it. Returns false if neither is possible. The frame
    // isn't complete then.
    fn join(&mut self, continues: bool, carries: bool) -> bool
        requires { HasDistances self.old.newest }
        ensures rest { self.new ≡ record self.old { frame = self.new.frame } }
        ensures some { result ≡ true → is_some self.new.frame ≡ true }
        ensures joined { (force : Option TemplateStructure)
            → Joined self.new.frame result (joined_as (option_map frame_said self.old.frame) (said_by force self.old.newest)
            (record { continues = continues; carries = carries })) }
    {
        let newest = self.newest.get();
        match &mut self.frame {
            None => {
                if !begins(newest, continues) {
                    return false;
                }
                self.frame = Some(begun(newest, carries));
                true
            }
            Some(frame) => {
                if !goes_on(frame, newest, continues) {
                    return false;
                }
                frame.packets += 1;
                frame.carries = carries;
                true
            }
        }
    }

    // Ends the open frame if the newest packet has the end bit. The complaint is `NotWhole` if the frame then has an unfinished element, and
    // `MissingReference` if a frame that it refers to wasn't received.
    fn finish(&mut self) -> Result<(), Complaint>
        requires { is_some self.old.frame ≡ true }
        ensures rest { self.new ≡ record self.old { frame = self.new.frame; received = self.new.received } }
        ensures finished { (r : Reception TemplateStructure) (frame : ModelFrame) → AreKeptOf self.old.received r.received
            → option_map frame_said self.old.frame ≡ Some frame
            → Finishes self.new result r (with_frame r frame self.old.newest.end) }
    {
        let Some(frame) = &self.frame else {
            unreachable!()
        };
        if !self.newest.get().end {
            return Ok(());
        }
        if frame.carries {
            return Err(Complaint::NotWhole);
        }
        match self.received.judge(&frame.start) {
            None => {
                self.frame = None;
                Ok(())
            }
            Some(fdiff) => Err(Complaint::MissingReference {
                frame: frame.start.number,
                fdiff,
            }),
        }
    }
}
