//! Caches the packets of a track's current frame, so that subscribers share these packets. Owns the store of shared packets. Sharing doesn't change what is
//! sent.
#![tactic(auto)]

mod cache;

pub use cache::FrameCache;
