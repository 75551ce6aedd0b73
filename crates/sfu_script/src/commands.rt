// The names of commands: the first words of lines.
ghost use Rattle.std.specs.Prelude.{◌≡◌};
ghost use Rattle.sfu_script.specs.Commands.{subscriber_command_of, track_command_of};

/// The commands about a track.
#[derive(Clone, Copy, Debug, PartialEq, Eq)]
pub enum TrackCommand {
    Publish,
    Unpublish,
    Packet,
    Tick,
    Missing,
    Key,
}

/// The commands about a subscriber.
#[derive(Clone, Copy, Debug, PartialEq, Eq)]
pub enum SubscriberCommand {
    Join,
    Leave,
    Aim,
    Take,
    Resend,
    Plead,
    Why,
}

/// Returns the track command with the name `word`, or `None` if no track command has this name.
pub fn track_command(word: &[u8]) -> Option<TrackCommand>
    ensures { result ≡ track_command_of word.now }
{
    match word {
        b"publish" => Some(TrackCommand::Publish),
        b"unpublish" => Some(TrackCommand::Unpublish),
        b"packet" => Some(TrackCommand::Packet),
        b"tick" => Some(TrackCommand::Tick),
        b"missing" => Some(TrackCommand::Missing),
        b"key" => Some(TrackCommand::Key),
        _ => None,
    }
}

/// Returns the subscriber command with the name `word`, or `None` if no subscriber command has this name.
pub fn subscriber_command(word: &[u8]) -> Option<SubscriberCommand>
    ensures { result ≡ subscriber_command_of word.now }
{
    match word {
        b"join" => Some(SubscriberCommand::Join),
        b"leave" => Some(SubscriberCommand::Leave),
        b"aim" => Some(SubscriberCommand::Aim),
        b"take" => Some(SubscriberCommand::Take),
        b"resend" => Some(SubscriberCommand::Resend),
        b"plead" => Some(SubscriberCommand::Plead),
        b"why" => Some(SubscriberCommand::Why),
        _ => None,
    }
}
