//! Whether an audit found a fact that is not true.

ghost use Rattle.fact_commands.specs.Verdicts.{IsFinding};

use fact_audit::Verdict;

/// Whether a verdict is that a fact is false.
#[derive(Clone, Copy, Debug, PartialEq, Eq)]
pub enum AuditFinding {
    /// No verdict is, or nothing was judged.
    NoFalse,
    /// At least one is.
    AFalse,
}

/// What the verdicts found.
pub fn make_finding_of_audit_verdicts(verdicts: &[Verdict]) -> AuditFinding
    ensures { IsFinding result verdicts.now }
{
    if verdicts.contains(&Verdict::False) {
        AuditFinding::AFalse
    } else {
        AuditFinding::NoFalse
    }
}
