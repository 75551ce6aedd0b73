// Laws of the definitions.
ghost use Rattle.std.specs.Prelude.{◌≡◌, ◌<◌, ◌^◌, [], List, length, ℕ};
ghost use Rattle.std.specs.List.{AllByRecursion};
ghost use Rattle.strict_receiver.specs.Receivers.{frames_over};
ghost use Rattle.ivf_recorder.specs.FirstStructure.{IsFirstSize};
ghost use Rattle.ivf_recorder.specs.Frames.{AreShort, contents_over, gathered_over, ivf_over, obus_over, size_over};
ghost use Rattle.ivf_recorder.specs.Obus.{Obu};
ghost use Rattle.ivf_recorder.specs.ReadFiles.{IsFileWith};
ghost use Rattle.ivf_recorder.specs.Units.{no_size, units_of};

/// A law: no file can be read as two different lists of OBUs. Temporal delimiters and size fields aren't part of such a list.
pub fn files_have_one_reading()
    ensures one { (bytes : List ℕ) (obus others : List Obu) → IsFileWith bytes obus → IsFileWith bytes others → obus ≡ others }
{}

/// A law about packets of at most 2,048 bytes each. The file that is recorded from them is read as the OBUs of the recorded frames. Each OBU is read once,
/// and the OBUs are in order. The size of each unit fits into its field of four bytes.
pub fn files_read_back()
    ensures read { (id : ℕ) (history : List (List ℕ)) → AreShort history → IsFileWith (ivf_over id history) (obus_over id history) }
    ensures sizes { (id : ℕ) (history : List (List ℕ)) → AreShort history
        → AllByRecursion (λ unit. length unit.bytes < 2 ^ 32) (units_of (contents_over id history)) }
{}

/// A law about any packets: the number of frames that the recorder gathers equals the number of frames that a strict receiver of these packets counts.
pub fn frames_are_those_that_are_accepted()
    ensures count { (id : ℕ) (history : List (List ℕ)) → length (gathered_over id history).frames ≡ frames_over id history }
{}

/// A law: if a frame is recorded, the first packet begins a key frame. The file's width and height are those of the template dependency
/// structure in that packet. If no frame is recorded, width and height are 0.
pub fn sizes_are_of_the_first_structure()
    ensures none { (id : ℕ) (history : List (List ℕ)) → contents_over id history ≡ [] → size_over id history ≡ no_size }
    ensures first { (id : ℕ) (history : List (List ℕ)) → (contents_over id history ≡ [] → ⊥) → IsFirstSize id history }
{}
