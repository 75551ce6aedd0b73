// The names of commands about bundles. A name is the first word of a line.
ghost use Rattle.std.specs.Prelude.{◌≡◌};
ghost use Rattle.bundle_lines.specs.Commands.{command_of};

/// The commands about a bundle.
#[derive(Clone, Copy, Debug, PartialEq, Eq)]
pub enum BundleCommand {
    Bundle,
    Choose,
    Pump,
    Draw,
    Redraw,
}

/// Returns the command with this name, or `None` if no command has this name.
pub fn bundle_command(word: &[u8]) -> Option<BundleCommand>
    ensures { result ≡ command_of word.now }
{
    match word {
        b"bundle" => Some(BundleCommand::Bundle),
        b"choose" => Some(BundleCommand::Choose),
        b"pump" => Some(BundleCommand::Pump),
        b"draw" => Some(BundleCommand::Draw),
        b"redraw" => Some(BundleCommand::Redraw),
        _ => None,
    }
}
