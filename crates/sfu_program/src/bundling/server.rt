// Serving the lines of a script on a room with bundles.
ghost use Rattle.std.specs.Prelude.{◌≡◌, ◌≤◌, ◌++◌, ◌∷◌, [], Err, OnErr, OnOk, length, true};
ghost use Rattle.sfu_base.specs.Answer.{answer_of, is_starved};
ghost use Rattle.script_texts.specs.Replies.{answer_text};
ghost use Rattle.script_texts.specs.WholeLines.{fault_line};
ghost use Rattle.sfu_driver.specs.declared.halt.Halt.TheVariants.{Starved};
ghost use Rattle.script_run.specs.Run.{unrecorded};
ghost use Rattle.simulcast.specs.Answers.{bundle_made, bundle_pumped, leg_chosen, packet_drawn, packet_redrawn, room_called};
ghost use Rattle.simulcast.specs.Bundles.{Simulcast, StandsFor, nothing_made};
ghost use Rattle.simulcast.specs.Made.{just_made};
ghost use Rattle.bundle_lines.specs.Lines.{HasLegs};
ghost use Rattle.bundle_lines.specs.Replies.{bundle_reply_text};
ghost use Rattle.sfu_program.specs.Simulcast.{bundle_served};
ghost use Rattle.sfu_program.specs.SimulcastServing.{ServesLine};
ghost use Rattle.sfu_program.specs.SimulcastTexts.{done_text, fault_text, line_replied, packet_text, pumped_text, replied};

use bundle_lines::{BundleLine, BundleReply, add_bundle_reply, read_bundle_line};
use room_core::{KeepNone, Room};
use script_texts::{add_fault, add_reply, wants_memory};
use sfu_base::{Blob, Call, NoMemory, Refusal, Reply, Scratch};
use sfu_driver::{Ending, Halt, Judge};
use sfu_script::is_skipped;
use simulcast::{BundleFault, Bundles};
use std::alloc::Global;

/// Serves the lines of a script, each as a call from seat 0. The server's room has bundles, and the room's recorder stores nothing.
#[derive(Drop)]
pub struct BundleServer {
    pub bundles: Bundles<KeepNone>,
    pub scratch: Scratch,
}

impl BundleServer {
    /// Returns a server that has served nothing.
    pub fn new(alloc: Global) -> BundleServer
        ensures { StandsFor unrecorded result.bundles (nothing_made []) }
    {
        BundleServer {
            bundles: Bundles::new(alloc, Room::new(alloc, KeepNone::new())),
            scratch: Scratch::new(),
        }
    }

    // Appends the line of a room's reply to `ready`, the output so far.
    fn answer(&mut self, reply: &Reply, ready: &mut Blob) -> Result<(), Halt>
        ensures starved { is_starved reply.now ≡ true → result ≡ Err Starved }
        ensures ok { OnOk result (ready.new ≡ ready.old ++ (answer_text (answer_of reply.now self.old.scratch.packet self.old.scratch.names) ++ 10 ∷ [])) }
        ensures err { OnErr result (ready.new ≡ ready.old) }
        ensures only { OnErr result (result ≡ Err Starved) }
        ensures same { self.new.bundles ≡ self.old.bundles }
    {
        if wants_memory(reply) {
            return Err(Halt::Starved);
        }
        add_reply(reply, &self.scratch, ready)?;
        Ok(())
    }

    // Appends the line of a refusal to `ready`, the output so far.
    fn refuse(&mut self, why: BundleFault, ready: &mut Blob) -> Result<(), Halt>
        ensures starved { why ≡ BundleFault.NoMemory → result ≡ Err Starved }
        ensures ok { OnOk result (ready.new ≡ ready.old ++ (fault_text why ++ 10 ∷ [])) }
        ensures err { OnErr result (ready.new ≡ ready.old) }
        ensures only { OnErr result (result ≡ Err Starved) }
        ensures same { self.new.bundles ≡ self.old.bundles }
    {
        match why {
            BundleFault::NumberUsed { highest } => {
                self.answer(&Reply::Refused(Refusal::NumberUsed { highest }), ready)
            }
            BundleFault::TooMany { live } => {
                self.answer(&Reply::Refused(Refusal::TooMany { live }), ready)
            }
            BundleFault::Room(why) => self.answer(&Reply::Refused(why), ready),
            BundleFault::NoBundle => reply_with(BundleReply::NoBundle, ready),
            BundleFault::NoLeg { legs } => reply_with(BundleReply::NoLeg { legs }, ready),
            BundleFault::WrongKind => reply_with(BundleReply::WrongKind, ready),
            BundleFault::Bound { bundle } => reply_with(BundleReply::Bound { bundle }, ready),
            BundleFault::NoMemory => Err(Halt::Starved),
        }
    }

    fn call(&mut self, call: &Call, ready: &mut Blob) -> Result<(), Halt>
        ensures { ServesLine (λ h. replied answer_text (room_called call.now h)) self.old self.new ready.old ready.new result }
    {
        match self.bundles.call(0, call, &mut self.scratch) {
            Ok(reply) => self.answer(&reply, ready),
            Err(why) => self.refuse(why, ready),
        }
    }

    fn bundle(
        &mut self,
        number: u32,
        id: u8,
        ssrc: u32,
        first: u16,
        legs: &[u32],
        ready: &mut Blob,
    ) -> Result<(), Halt>
        requires two { 2 ≤ length legs.now }
        requires three { length legs.now ≤ 3 }
        ensures { ServesLine (λ h. replied done_text (bundle_made (just_made number id ssrc first legs.now) h)) self.old self.new ready.old ready.new result }
    {
        match self.bundles.bundle(number, id, ssrc, first, legs) {
            Ok(()) => self.answer(&Reply::Done, ready),
            Err(why) => self.refuse(why, ready),
        }
    }

    fn choose(&mut self, number: u32, leg: u8, ready: &mut Blob) -> Result<(), Halt>
        ensures { ServesLine (λ h. replied done_text (leg_chosen number leg h)) self.old self.new ready.old ready.new result }
    {
        match self.bundles.choose(number, leg, &mut self.scratch) {
            Ok(()) => self.answer(&Reply::Done, ready),
            Err(why) => self.refuse(why, ready),
        }
    }

    fn pump(&mut self, number: u32, ready: &mut Blob) -> Result<(), Halt>
        ensures { ServesLine (λ h. replied pumped_text (bundle_pumped number h)) self.old self.new ready.old ready.new result }
    {
        match self.bundles.pump(number, &mut self.scratch) {
            Ok(counts) => reply_with(
                BundleReply::Pumped {
                    forwarded: counts.forwarded,
                    dropped: counts.dropped,
                },
                ready,
            ),
            Err(why) => self.refuse(why, ready),
        }
    }

    fn draw(&mut self, number: u32, ready: &mut Blob) -> Result<(), Halt>
        ensures { ServesLine (λ h. replied packet_text (packet_drawn number h)) self.old self.new ready.old ready.new result }
    {
        match self.bundles.draw(number, &mut self.scratch.packet) {
            Ok(_) => self.answer(&Reply::Packet, ready),
            Err(why) => self.refuse(why, ready),
        }
    }

    fn redraw(&mut self, number: u32, seq: u16, ready: &mut Blob) -> Result<(), Halt>
        ensures { ServesLine (λ h. replied packet_text (packet_redrawn number seq h)) self.old self.new ready.old ready.new result }
    {
        match self.bundles.redraw(number, seq, &mut self.scratch.packet) {
            Ok(()) => self.answer(&Reply::Packet, ready),
            Err(why) => self.refuse(why, ready),
        }
    }

    // Serves the call of a line.
    fn serve(&mut self, line: &BundleLine, ready: &mut Blob) -> Result<(), Halt>
        requires { HasLegs line.now }
        ensures { ServesLine (λ h. line_replied line.now h) self.old self.new ready.old ready.new result }
    {
        match line {
            BundleLine::Room(call) => self.call(call, ready),
            BundleLine::Bundle {
                bundle,
                id,
                ssrc,
                first,
                legs,
                count,
            } => self.bundle(
                *bundle,
                *id,
                *ssrc,
                *first,
                &legs[..usize::from(*count)],
                ready,
            ),
            BundleLine::Choose { bundle, leg } => self.choose(*bundle, *leg, ready),
            BundleLine::Pump { bundle } => self.pump(*bundle, ready),
            BundleLine::Draw { bundle } => self.draw(*bundle, ready),
            BundleLine::Redraw { bundle, seq } => self.redraw(*bundle, *seq, ready),
        }
    }
}

// Appends the line of a bundle's reply to `ready`, the output so far. Only calls on bundles have such replies.
fn reply_with(reply: BundleReply, ready: &mut Blob) -> Result<(), Halt>
    ensures ok { OnOk result (ready.new ≡ ready.old ++ (bundle_reply_text reply ++ 10 ∷ [])) }
    ensures err { OnErr result (ready.new ≡ ready.old) }
    ensures only { OnErr result (result ≡ Err Starved) }
{
    add_bundle_reply(reply, ready)?;
    Ok(())
}

impl Judge for BundleServer {
    ghost State = { Simulcast };

    ghost stands = { λ server h. StandsFor unrecorded server.bundles h };

    ghost step = { bundle_served };

    ghost outside = { fault_line };

    ghost closing = { λ _. [] };

    fn judge(&mut self, number: u32, line: &[u8], ready: &mut Blob) -> Result<(), Halt> {
        if is_skipped(line) {
            return Ok(());
        }
        let Ok(said) = read_bundle_line(line) else {
            add_fault(u64::from(number), ready)?;
            return Err(Halt::Ended(Ending::Outside));
        };
        self.serve(&said, ready)
    }

    fn refuse(&self, number: u64, ready: &mut Blob) -> Result<(), NoMemory> {
        add_fault(number, ready)
    }

    fn close(&mut self, _ready: &mut Blob) -> Result<(), NoMemory> {
        Ok(())
    }
}
