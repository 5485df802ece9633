//! Laws of the definitions that the contracts of this crate cite. The functions do nothing; their
//! contracts are the laws.

ghost use Rattle.std.specs.Prelude.{◌≡◌, ℕ, ◌<◌, ◌≤◌, List};
ghost use Rattle.std.specs.List.{All};
ghost use Rattle.gcc_units.specs.declared.limits.TheConstants.{MOST_ACTORS};
ghost use Rattle.call_trace.specs.declared.trace.Line.{Line};
ghost use Rattle.reply_text.specs.Legal.{IsLegalText};
ghost use Rattle.reply_text.specs.Verdict.{DiffersAt};

/// A text differs at no two places, and a legal one at none.
pub fn texts_differ_at_one_place()
    ensures one { (lines : List Line) (actors : ℕ) (text : List ℕ) (j k : ℕ) → actors ≤ MOST_ACTORS → DiffersAt lines actors text j → DiffersAt lines actors text k → j ≡ k }
    ensures none { (lines : List Line) (actors : ℕ) (text : List ℕ) (k : ℕ) → actors ≤ MOST_ACTORS → All (λ line. line.actor < actors) lines → IsLegalText lines actors text → DiffersAt lines actors text k → ⊥ }
{}

/// A text is that of at most one legal history that merges the lines.
pub fn legal_texts_have_one_history()
    ensures { (lines : List Line) (actors : ℕ) (text : List ℕ) → actors ≤ MOST_ACTORS → All (λ line. line.actor < actors) lines → (a b : IsLegalText lines actors text) → a.history ≡ b.history }
{}
