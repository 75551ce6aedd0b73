// Theorems about converted scripts, the packets of a trial, and the recorded packets of a subscriber's takes. Each is the contract of a function that
// does nothing.
ghost use Rattle.std.specs.Prelude.{◌≡◌, List, None, Some, ℕ};
ghost use Rattle.stream_maker.specs.declared.place.Place.{Place};
ghost use Rattle.stream_maker.specs.Bytes.{packet_bytes};
ghost use Rattle.sfu_commands.specs.Convert.{convert_due, silent_end};
ghost use Rattle.command_laws.specs.MadePackets.{SaysPlace};
ghost use Rattle.command_laws.specs.Recorded.{TakenPacketsArentComplainedOf, TakenPacketsDontEndWith8};
ghost use Rattle.script_records.specs.RecordCut.{header};
ghost use Rattle.script_run.specs.Run.{run_due};
ghost use Rattle.script_records.specs.Script.{form_of, script_in, script_of, stops_at};
ghost use Rattle.script_records.specs.declared.form.Form.TheVariants.{Lines, Records};

/// Suppose that `convert` converts a whole script. Then the script of records that it writes has the same calls, and `run` writes the same output for
/// both scripts. A script of records isn't converted: for `convert` its line 1 is outside the grammar, and only the header is written.
pub fn converted_scripts_run_alike()
    ensures calls { (bytes : List ℕ) → (convert_due bytes).end ≡ None → script_of (convert_due bytes).text ≡ script_of bytes }
    ensures replies { (bytes : List ℕ) → (convert_due bytes).end ≡ None → run_due (convert_due bytes).text ≡ run_due bytes }
    ensures records { (bytes : List ℕ) → form_of bytes ≡ Records → (script_in Lines bytes ≡ stops_at 1)
        × (convert_due bytes ≡ record { text = header; end = silent_end (Some 1) }) }
{}

/// The project's own readers accept the packets of a trial's stream. Each packet is a valid RTP packet (RFC 3550, section 5.1). The packet's header
/// extension element with id 4 (RFC 8285) is a dependency descriptor. The descriptor's start_of_frame, end_of_frame, template and frame number match
/// the packet's place in the stream (RTP Payload Format For AV1 v1.0, Appendix A).
pub fn made_packets_say_their_places()
    ensures { (p : Place) → SaysPlace p (packet_bytes p) }
{}

/// Take the packets forwarded to a subscriber of a layered track, or only those of them that the subscriber took. A recorder with the track's header
/// extension id has no complaint about these packets. So `record` doesn't end with status 8.
pub fn taken_packets_arent_complained_of()
    ensures complaint { TakenPacketsArentComplainedOf }
    ensures status { TakenPacketsDontEndWith8 }
{}
