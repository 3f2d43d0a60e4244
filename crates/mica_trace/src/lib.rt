//! Traces and reports: their lines, their texts, and what makes a report lawful for a trace.
#![tactic(auto)]

mod append;
mod laws;
mod limits;
mod line;
mod read;
mod report;
mod report_reader;
mod split;
mod text_parts;
mod trace;
mod trace_text;

pub use append::append_line;
pub use laws::{exact_is_lawful, lawful_is_report, one_exact_report, one_fault, one_reading};
pub use limits::{MAX_LINE_LEN, MAX_LINES, MAX_ROUNDS};
pub use line::{TraceFault, TraceLine, TraceOp};
pub use read::{is_key, is_value, read_trace};
pub use report::{Line, Report, put_report_line};
pub use report_reader::{ReportFault, read_report};
pub use split::split_at_byte;
pub use text_parts::{texts_of, write_texts};
pub use trace::Trace;
pub use trace_text::put_trace;
