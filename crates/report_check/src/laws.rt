//! What the definition of a verdict says of itself.
ghost use Rattle.std.specs.Prelude.{◌≡◌, List};
ghost use Rattle.partition_model.specs.declared.options.Options.{Options};
ghost use Rattle.partition_model.specs.Options.{IsValid};
ghost use Rattle.mica_trace.specs.declared.line.TraceLine.{TraceLine};
ghost use Rattle.mica_trace.specs.declared.report.Line.{Line};
ghost use Rattle.report_check.specs.declared.check.Verdict.{Verdict};
ghost use Rattle.report_check.specs.FirstUnlawful.{IsVerdict};

/// A report has one verdict at most: it is not lawful where the walks stop, and they stop at one place.
pub fn one_verdict()
    ensures { (options : Options) (trace : List TraceLine) (report : List Line) (a b : Verdict)
        → IsValid options → IsVerdict options trace report a → IsVerdict options trace report b → a ≡ b }
{}
