//! What a run ends with.

/// How a run ended, in the order of the numbers that the program ends with.
#[derive(Clone, Copy, PartialEq, Eq)]
pub enum Status {
    /// The command was carried out.
    Done,
    /// The words are no command's.
    Usage,
    NoMemory,
    /// What the source gave is no trace.
    TraceRefused,
    /// The source gave more bytes than a trace may have.
    TraceLong,
    ReadFault,
    WriteFault,
    NetFault,
    /// A line of the report is none that the trace allows.
    Unlawful,
    /// What the source gave behind the trace is no report.
    ReportRefused,
    /// A server's reply is none that was asked for.
    ReplyRefused,
    LinkFault,
    /// What the source gave is no image.
    ImageRefused,
}
