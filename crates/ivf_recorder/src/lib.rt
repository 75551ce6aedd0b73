//! Records the packets of one layered AV1 track as an IVF file. The file has the OBUs of the frames that a strict receiver of these packets accepts.
//! Sources: RTP Payload Format For AV1, sections 4.4 (elements) and 5 (temporal units), and AV1 Bitstream Specification, sections 5.3.1 to 5.3.3 (OBUs)
//! and 4.10.5 (leb128). There is no standard for IVF; the recorder writes the format that `dav1d` and `ffmpeg` read.
#![tactic(auto)]

mod fault;
mod file;
mod frame;
mod laws;
mod leb;
mod obu;
mod recorder;
mod recording;
#[cfg(test)]
mod tests;

pub use fault::RecordFault;
pub use laws::{
    files_have_one_reading, files_read_back, frames_are_those_that_are_accepted,
    sizes_are_of_the_first_structure,
};
pub use recorder::IvfRecorder;
