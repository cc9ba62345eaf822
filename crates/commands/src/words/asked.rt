//! What a command line asks for.

/// What the program is asked to do.
#[derive(Debug, Clone, Copy, PartialEq, Eq)]
pub enum Command<'a> {
    /// Runs a script, given the paths of the settings and of the script.
    Trace {
        config: &'a str,
        script: &'a str,
    },
    /// Runs clients in threads of their own, 1 to 32 of them, each for 1 to 10,000 rounds, given the path of the
    /// settings.
    Clients {
        config: &'a str,
        threads: u16,
        rounds: u16,
    },
}
