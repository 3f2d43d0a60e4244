//! What the grammars of traces and reports say of texts.
ghost use Rattle.std.specs.Prelude.{◌≡◌, ◌⊎◌, ◌++◌, ◌∷◌, [], ℕ, List};
ghost use Rattle.partition_model.specs.declared.options.Options.{Options};
ghost use Rattle.partition_model.specs.Options.{IsValid};
ghost use Rattle.mica_trace.specs.declared.line.TraceFault.{TraceFault};
ghost use Rattle.mica_trace.specs.declared.line.TraceLine.{TraceLine};
ghost use Rattle.mica_trace.specs.declared.report.Line.{Line};
ghost use Rattle.mica_trace.specs.TraceGrammar.{IsTrace, Refuses};
ghost use Rattle.mica_trace.specs.ReportGrammar.{IsFirstBadLine, IsReport, report_text};
ghost use Rattle.mica_trace.specs.LawfulReport.{LawfulReport};
ghost use Rattle.mica_trace.specs.ExactReport.{ExactReport, AgreeOnWrites};

use partition_model::Mode;

/// A text is that of at most one trace, and of at most one report. Two texts of one trace differ in the last line feed
/// alone, and a report has one text.
pub fn one_reading()
    ensures trace { (text : List ℕ) (a b : List TraceLine) → IsTrace text a → IsTrace text b → a ≡ b }
    ensures trace_texts { (s t : List ℕ) (lines : List TraceLine) → IsTrace s lines → IsTrace t lines
        → (s ≡ t) ⊎ ((s ≡ t ++ 10 ∷ []) ⊎ (t ≡ s ++ 10 ∷ [])) }
    ensures report { (text : List ℕ) (a b : List Line) → IsReport text a → IsReport text b → a ≡ b }
    ensures report_text { (s t : List ℕ) (lines : List Line) → IsReport s lines → IsReport t lines → s ≡ t }
{}

/// A text is refused for one fault: as a trace, and as a report for its first bad line.
pub fn one_fault()
    ensures trace { (text : List ℕ) (a b : TraceFault) → Refuses text a → Refuses text b → a ≡ b }
    ensures report { (text : List ℕ) (m n : ℕ) → IsFirstBadLine text m → IsFirstBadLine text n → m ≡ n }
{}

/// The text of a report that is lawful for valid options and a trace is one that can be read, since each stamp has 64
/// bits.
pub fn lawful_is_report()
    ensures { (options : Options) (text : List ℕ) (trace : List TraceLine) (report : List Line) → IsValid options
        → IsTrace text trace → LawfulReport options trace report → IsReport (report_text report) report }
{}

/// An exact report is lawful, whatever the number of readers and of their tries.
pub fn exact_is_lawful()
    ensures { (options : Options) (readers tries : ℕ) (trace : List TraceLine) (report : List Line) → ExactReport options trace report
        → LawfulReport (record options { readers = readers; tries = tries }) trace report }
{}

/// In cache mode a trace has one exact report for valid options; in both modes it has one for the same lines of its writes.
pub fn one_exact_report()
    ensures cache { (options : Options) (trace : List TraceLine) (a b : List Line) → IsValid options → options.mode ≡ Mode.Cache
        → ExactReport options trace a → ExactReport options trace b → a ≡ b }
    ensures writes { (options : Options) (trace : List TraceLine) (a b : List Line) → IsValid options → AgreeOnWrites trace a b
        → ExactReport options trace a → ExactReport options trace b → a ≡ b }
{}
