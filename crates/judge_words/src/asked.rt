//! What a command line asks for.

/// What the program is asked to do.
#[derive(Debug, Clone, Copy, PartialEq, Eq)]
pub enum Command<'a> {
    /// Judges a trace, given the paths of the settings and of the trace, by what is asked of it. With `progress` the
    /// check tells how far it came. With `sessions` the trace is one of several sessions.
    Check {
        config: &'a str,
        trace: &'a str,
        asked: Asked,
        progress: bool,
        sessions: bool,
    },
    /// Cuts a trace down, given the paths of the settings and of the trace, by what is asked of it.
    Cut {
        config: &'a str,
        trace: &'a str,
        asked: Asked,
    },
    /// Writes the trace of a script, given the paths of the settings and of the script.
    Record {
        config: &'a str,
        script: &'a str,
    },
    /// Judges a history, given its path, and that of the settings, where they are given. With `any_start` its sectors may
    /// begin with anything, with `progress` it is told how many lines were read, with `json` the verdict is a JSON object,
    /// with `sessions` the history is one of several sessions.
    History {
        config: Option<&'a str>,
        history: &'a str,
        any_start: bool,
        progress: bool,
        json: bool,
        sessions: bool,
    },
    /// Draws the trace at a path, as an SVG, or as Trace Event JSON where `events` are asked for. Where the path of settings
    /// is given too the trace is judged by them, and by what is asked of it. With `lines` only some lines are drawn.
    Picture {
        config: Option<&'a str>,
        trace: &'a str,
        asked: Asked,
        events: bool,
        lines: Option<&'a str>,
    },
}

/// What is asked of a trace.
#[derive(Debug, Clone, Copy, PartialEq, Eq)]
pub struct Asked {
    /// Whether any cut will do: a piece may begin at any place of its request, and start again without end.
    pub any_cut: bool,
    /// Whether any free tag will do, and not the lowest alone.
    pub any_tag: bool,
    /// Whether a read may bring any bytes, whatever was written.
    pub any_read: bool,
    /// Whether the adapter has 256 tags, and 4,096 requests may be open, whatever the settings say.
    pub many: bool,
    /// Whether there is one partition, which is the whole disk, whatever the settings say.
    pub whole_disk: bool,
    /// Whether some bytes were not recorded.
    pub gaps: bool,
    /// Whether it has to leave nothing undone.
    pub settled: bool,
    /// Whether it has to leave no request open and no piece at the adapter.
    pub ended: bool,
    /// Whether the verdict is told as a JSON object.
    pub json: bool,
}

impl Asked {
    /// Nothing is asked for.
    pub fn nothing() -> Asked {
        Asked {
            any_cut: false,
            any_tag: false,
            any_read: false,
            many: false,
            whole_disk: false,
            gaps: false,
            settled: false,
            ended: false,
            json: false,
        }
    }
}
