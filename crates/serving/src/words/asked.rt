//! What a command line asks for.

/// What the program is asked to serve.
#[derive(Debug, Clone, Copy, PartialEq, Eq)]
pub struct Asked<'a> {
    /// The path of the settings. Without one they come from the file that has the disk; without `disk` too that is for
    /// the caller to refuse.
    pub config: Option<&'a str>,
    /// The number of the partition, counted from 0.
    pub partition: u8,
    /// The path of the file that has the disk; without one it is in memory.
    pub disk: Option<&'a str>,
    /// Whether the file is to be made. Without `disk` that is for the caller to refuse.
    pub create: bool,
    /// The path of the file that gets the trace of the session. Without `disk` that is for the caller to refuse.
    pub trace: Option<&'a str>,
    /// Whether requests are to be served side by side. Without `disk`, or with `trace`, that is for the caller to refuse.
    pub beside: bool,
}
