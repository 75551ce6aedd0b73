ghost use Rattle.std.specs.Prelude.{◌≡◌, ◌≤◌, ◌+◌, take};
ghost use Rattle.dd_bits.specs.Reader.{bits_left};
ghost use Rattle.dd_bits.specs.Sequences.{Gives, repeat_at};
ghost use Rattle.dd_structure.specs.Columns.{resolutions_in};
ghost use Rattle.dd_structure.specs.Reading.{greatest_spatial, resolution_count, resolution_at, resolutions_at};

use crate::columns::Resolutions;
use crate::fault::StructureFault;
use crate::layer::Layer;
use crate::reading::fields::number;
use dd_bits::BitReader;

/// Reads a width and a height, each 1 to 65,536 pixels.
#[tactic(auto, unfolding(crate::specs::Reading::resolution_at))]
fn resolution(bits: &mut BitReader<'_>) -> Result<(u32, u32), StructureFault>
    ensures { Gives (λ v. v) result bits.new (resolution_at (bits_left bits.old)) }
{
    let width = number(bits, 16)?;
    let height = number(bits, 16)?;
    Ok((width + 1, height + 1))
}

fn resolution_list(bits: &mut BitReader<'_>, count: u8) -> Result<[(u32, u32); 4], StructureFault>
    requires { count ≤ 4 }
    ensures { Gives (λ a. take count a) result bits.new (repeat_at resolution_at count (bits_left bits.old)) }
{
    let mut out = [(0, 0); 4];
    for i in 0..count {
        out[i as usize] = resolution(bits)?;
    }
    Ok(out)
}

/// How many spatial ids there are, from 0 to the greatest.
fn spatial_count(layers: &[Layer]) -> u8
    requires { greatest_spatial layers.now ≤ 3 }
    ensures value { result ≡ greatest_spatial layers.now + 1 }
    ensures few { result ≤ 4 }
{
    let mut greatest = 0;
    for layer in layers {
        greatest = layer.spatial.max(greatest);
    }
    greatest + 1
}

fn resolution_count(flag: u32, layers: &[Layer]) -> u8
    requires { greatest_spatial layers.now ≤ 3 }
    ensures value { result ≡ resolution_count flag layers.now }
    ensures few { result ≤ 4 }
{
    if flag == 0 { 0 } else { spatial_count(layers) }
}

/// Reads the resolution of each spatial id, if the structure has resolutions.
#[tactic(auto, unfolding(crate::specs::Reading::resolutions_at))]
pub fn resolutions(
    bits: &mut BitReader<'_>,
    layers: &[Layer],
) -> Result<Resolutions, StructureFault>
    requires { greatest_spatial layers.now ≤ 3 }
    ensures { Gives resolutions_in result bits.new (resolutions_at layers.now (bits_left bits.old)) }
{
    let flag = number(bits, 1)?;
    let count = resolution_count(flag, layers);
    let items = resolution_list(bits, count)?;
    Ok(Resolutions { count, items })
}
