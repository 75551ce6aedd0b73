ghost use Rattle.std.specs.Prelude.{◌≡◌, ◌<◌, ◌≤◌, length};
ghost use Rattle.dd_bits.specs.Bits.{bits_of};
ghost use Rattle.dd_bits.specs.Sequences.{until_spelled};
ghost use Rattle.dd_bits.specs.Writer.{Puts};
ghost use Rattle.dd_structure.specs.Spelling.{layer_code, layer_bits, layers_bits};

use crate::layer::Layer;
use dd_bits::{BitWriter, NoRoom};

/// The next_layer_idc after a template of layer `before` if the next template has layer `layer`.
fn code_of(before: Layer, layer: Layer) -> u32
    ensures value { result ≡ layer_code before layer }
    ensures small { result < 3 }
{
    if before.spatial < layer.spatial {
        2
    } else if before.temporal < layer.temporal {
        1
    } else {
        0
    }
}

fn put_layers_after(out: &mut BitWriter, first: Layer, layers: &[Layer]) -> Result<(), NoRoom>
    ensures { Puts result out.old out.new (until_spelled layer_bits (bits_of 2 3) first layers.now) }
{
    let mut before = first;
    for layer in layers {
        out.put(2, code_of(before, *layer))?;
        before = *layer;
    }
    out.put(2, 3)
}

/// Appends the layers of the templates.
pub fn put_layers(out: &mut BitWriter, layers: &[Layer]) -> Result<(), NoRoom>
    requires { 1 ≤ length layers.now }
    ensures { Puts result out.old out.new (layers_bits layers.now) }
{
    match layers {
        [] => unreachable!(),
        [first, others @ ..] => put_layers_after(out, *first, others),
    }
}
