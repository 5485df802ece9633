//! Laws of the definitions that the contracts of this crate cite. The functions do nothing; their
//! contracts are the laws.

ghost use Rattle.std.specs.Prelude.{◌≡◌, ℕ, ◌<◌, List, All, Ok};
ghost use Rattle.twcc_report.specs.Spelling.{Feedback, Fits, Spells};
ghost use Rattle.twcc_report.specs.Checks.{IsByChecks};
ghost use Rattle.twcc_report.specs.Reading.{read_of};
ghost use Rattle.twcc_report.specs.Canonical.{canonical};

/// No bytes spell two reports.
pub fn one_report()
    ensures { (f g : Feedback) (bytes : List ℕ) → Fits f → Fits g
        → Spells f bytes → Spells g bytes → f ≡ g }
{}

/// Reading bytes gives the fault of the first check that fails, and the report that they spell
/// exactly where they spell one.
pub fn reading_is_by_checks()
    ensures { (bytes : List ℕ) → All (λ b. b < 256) bytes → IsByChecks bytes }
{}

/// The canonical spelling of a report spells it, and reads as it.
pub fn canonical_is_a_spelling()
    ensures spells { (f : Feedback) → Fits f → Spells f (canonical f) }
    ensures read { (f : Feedback) → Fits f → read_of (canonical f) ≡ Ok f }
{}
