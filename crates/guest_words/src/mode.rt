//! How scripts are run.
ghost use Rattle.std.specs.Prelude.{◌≡◌};
ghost use Rattle.guest_words.specs.Words.{mode_of};

/// How the scripts are run.
#[derive(Clone, Copy, Debug)]
pub(crate) enum Mode {
    /// By turns, in the order of a file.
    Turns,
    /// On threads.
    Threads,
}

/// The mode that the first word tells.
pub(crate) fn mode_of(command: &str) -> Option<Mode>
    ensures { result ≡ mode_of command.now }
{
    match command {
        "turns" => Some(Mode::Turns),
        "run" => Some(Mode::Threads),
        _ => None,
    }
}
