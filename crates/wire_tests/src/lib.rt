#![tactic(auto)]
//! Tests of the crates that read and write RTP, header extensions, RTX, AV1 payloads and dependency descriptors. There are also tests of whole packets that
//! carry a descriptor. The tests aren't in those crates themselves, because a crate with tests is proved twice.

#[cfg(test)]
mod av1_payload_tests;
#[cfg(test)]
mod dd_bits_tests;
#[cfg(test)]
mod dd_descriptor_tests;
#[cfg(test)]
mod dd_structure_tests;
#[cfg(test)]
mod obu_element_tests;
#[cfg(test)]
mod packet_format_tests;
#[cfg(test)]
mod rtp_extension_tests;
#[cfg(test)]
mod rtp_packet_tests;
#[cfg(test)]
mod rtx_stream_tests;
