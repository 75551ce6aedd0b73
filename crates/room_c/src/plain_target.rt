// A decode target in the form that C reads.
ghost use Rattle.std.specs.Prelude.{◌≡◌};
ghost use Rattle.room_c.specs.Reading.{layers_in};
ghost use Rattle.room_c.specs.Numbers.{plain_target};

use room_core::DecodeTarget;
use sfu_base::Wish;

/// A decode target as numbers: its index and, if the layers are known, its highest spatial layer and its highest temporal layer.
#[repr(C)]
#[derive(Clone, Copy, Debug)]
pub struct PlainTarget {
    /// The target's index, 0 to 31.
    pub index: u8,
    /// Whether the layers are known.
    pub known: bool,
    /// The highest spatial layer, 0 to 3. If the layers aren't known, it is 0.
    pub spatial: u8,
    /// The highest temporal layer, 0 to 7. If the layers aren't known, it is 0.
    pub temporal: u8,
    /// Reserved for later use. The bytes are 0.
    pub spare: [u8; 4],
}

impl PlainTarget {
    /// Returns a decode target as numbers. Different decode targets have different results.
    pub fn of(target: &DecodeTarget) -> PlainTarget
        ensures index { result.index ≡ target.now.index }
        ensures layers { layers_in result ≡ target.now.layers }
        ensures exact { result ≡ plain_target target.now }
    {
        match target.layers {
            Some(Wish { spatial, temporal }) => PlainTarget {
                index: target.index,
                known: true,
                spatial,
                temporal,
                spare: [0; 4],
            },
            None => PlainTarget {
                index: target.index,
                known: false,
                spatial: 0,
                temporal: 0,
                spare: [0; 4],
            },
        }
    }
}
