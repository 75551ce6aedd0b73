ghost use Rattle.std.specs.Prelude.{◌≤◌, All};
ghost use Rattle.std.specs.List.{flat_map};
ghost use Rattle.dd_bits.specs.Writer.{Puts};
ghost use Rattle.dd_structure.specs.Spelling.{IsResolution, resolution_bits, resolutions_bits};

use dd_bits::{BitWriter, NoRoom};

fn put_resolution(out: &mut BitWriter, resolution: (u32, u32)) -> Result<(), NoRoom>
    requires { IsResolution resolution }
    ensures { Puts result out.old out.new (resolution_bits resolution) }
{
    out.put(16, resolution.0 - 1)?;
    out.put(16, resolution.1 - 1)
}

fn put_resolution_list(out: &mut BitWriter, resolutions: &[(u32, u32)]) -> Result<(), NoRoom>
    requires { All IsResolution resolutions.now }
    ensures { Puts result out.old out.new (flat_map resolution_bits resolutions.now) }
{
    for resolution in resolutions {
        put_resolution(out, *resolution)?;
    }
    Ok(())
}

/// Appends the flag resolutions_present_flag. If the structure has resolutions, also appends the resolution of each spatial id.
pub fn put_resolutions(out: &mut BitWriter, resolutions: &[(u32, u32)]) -> Result<(), NoRoom>
    requires { All IsResolution resolutions.now }
    ensures { Puts result out.old out.new (resolutions_bits resolutions.now) }
{
    if resolutions.is_empty() {
        return out.put(1, 0);
    }
    out.put(1, 1)?;
    put_resolution_list(out, resolutions)
}
