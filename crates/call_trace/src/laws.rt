//! Laws of the definitions that the contracts of this crate cite. The functions do nothing; their
//! contracts are the laws.

ghost use Rattle.std.specs.Prelude.{◌≡◌, ◌⊎◌, ◌↔◌, ℕ, ◌≤◌, List, length, take, Ok, Err};
ghost use Rattle.gcc_units.specs.declared.limits.TheConstants.{MOST_ACTORS, MOST_ENTRIES};
ghost use Rattle.send_core.specs.Reply.{IsLegal};
ghost use Rattle.call_trace.specs.declared.trace.Line.{Line};
ghost use Rattle.call_trace.specs.Fields.{Cut, lines_of, IsCut};
ghost use Rattle.send_core.specs.declared.call.Change.{Change};
ghost use Rattle.call_trace.specs.Plain.{Plain, settled_change, settled};
ghost use Rattle.call_trace.specs.Settings.{SpellsChange, IsNoChange};
ghost use Rattle.call_trace.specs.declared.fault.TraceFault.{TraceFault};
ghost use Rattle.call_trace.specs.Grammar.{IsLine, IsTrace};
ghost use Rattle.call_trace.specs.Faults.{IsBadLine, IsFirstFault, IsFrontFault, HasTrace, HasFirstFault, HasFront, HasFrontFault};
ghost use Rattle.call_trace.specs.Reading.{trace_at, counted_at};
ghost use Rattle.call_trace.specs.Merge.{Merges};
ghost use Rattle.call_trace.specs.Ordered.{ordered};
ghost use Rattle.call_trace.specs.Making.{made};

/// Bytes are cut into lines at their line feeds, in one way.
pub fn lines_are_cut_at_line_feeds()
    ensures cut { (bytes : List ℕ) → IsCut bytes (lines_of bytes) }
    ensures one { (bytes : List ℕ) (cut : Cut) → IsCut bytes cut → cut ≡ lines_of bytes }
{}

/// No bytes spell two traces.
pub fn no_bytes_spell_two_traces()
    ensures { (bytes : List ℕ) (a b : Plain) → IsTrace bytes a → IsTrace bytes b → settled a ≡ settled b }
{}

/// A line is a line of action, or it is none, for the one reason of its first bad field.
pub fn a_line_is_an_action_or_has_a_first_bad_field()
    ensures either { (actors : ℕ) (text : List ℕ) → actors ≤ MOST_ACTORS → ((line : Line) × IsLine actors text line) ⊎ ((reason : ℕ) × IsBadLine actors text reason) }
    ensures apart { (actors : ℕ) (text : List ℕ) (line : Line) (reason : ℕ) → actors ≤ MOST_ACTORS → IsLine actors text line → ¬ IsBadLine actors text reason }
    ensures one { (actors : ℕ) (text : List ℕ) (a b : ℕ) → actors ≤ MOST_ACTORS → IsBadLine actors text a → IsBadLine actors text b → a ≡ b }
{}

/// Bytes spell a trace, or they have one first bad line, and in it one first bad field. Reading line
/// by line gives just this trace, with settled lists, or just this fault.
pub fn bytes_are_a_trace_or_have_a_first_fault()
    ensures either { (most : ℕ) (bytes : List ℕ) → HasTrace most bytes ⊎ HasFirstFault most bytes }
    ensures apart { (most : ℕ) (bytes : List ℕ) → HasTrace most bytes → ¬ HasFirstFault most bytes }
    ensures one { (most : ℕ) (bytes : List ℕ) (a b : TraceFault) → IsFirstFault most bytes a → IsFirstFault most bytes b → a ≡ b }
    ensures trace { (most : ℕ) (bytes : List ℕ) (trace : Plain) → (trace_at most bytes ≡ Ok trace) ↔ (IsTrace bytes trace × (trace ≡ settled trace) × (length trace.lines ≤ most)) }
    ensures fault { (most : ℕ) (bytes : List ℕ) (fault : TraceFault) → (trace_at most bytes ≡ Err fault) ↔ IsFirstFault most bytes fault }
{}

/// Bytes begin with a trace, or they have one first bad line up to the line `end`, and in it one
/// first bad field. Reading line by line gives just this trace, with settled lists, and how many
/// bytes it has, or just this fault.
pub fn bytes_begin_with_a_trace_or_have_a_first_fault()
    ensures either { (most : ℕ) (bytes : List ℕ) → HasFront most bytes ⊎ HasFrontFault most bytes }
    ensures apart { (most : ℕ) (bytes : List ℕ) → HasFront most bytes → ¬ HasFrontFault most bytes }
    ensures one { (most : ℕ) (bytes : List ℕ) (a b : TraceFault) → IsFrontFault most bytes a → IsFrontFault most bytes b → a ≡ b }
    ensures trace { (most : ℕ) (bytes : List ℕ) (trace : Plain) (count : ℕ) → (counted_at most bytes ≡ Ok (trace, count))
        ↔ (IsTrace (take count bytes) trace × (count ≤ length bytes) × (trace ≡ settled trace) × (length trace.lines ≤ most)) }
    ensures fault { (most : ℕ) (bytes : List ℕ) (fault : TraceFault) → (counted_at most bytes ≡ Err fault) ↔ IsFrontFault most bytes fault }
{}

/// A text spells one change of the settings, or it spells none, and that for one reason.
pub fn a_text_spells_one_change_or_none()
    ensures either { (text : List ℕ) → ((change : Change) × SpellsChange text change) ⊎ ((reason : ℕ) × IsNoChange text reason) }
    ensures apart { (text : List ℕ) (change : Change) (reason : ℕ) → SpellsChange text change → ¬ IsNoChange text reason }
    ensures one_change { (text : List ℕ) (a b : Change) → SpellsChange text a → SpellsChange text b → settled_change a ≡ settled_change b }
    ensures one_reason { (text : List ℕ) (a b : ℕ) → IsNoChange text a → IsNoChange text b → a ≡ b }
{}

/// The history that serves the calls in the order of the lines merges them.
pub fn lines_in_order_merge()
    ensures { (lines : List Line) → Merges lines (ordered lines) }
{}

/// That history is legal: each reply is the one that the entries before it determine.
pub fn lines_in_order_are_legal()
    ensures { (lines : List Line) → length lines ≤ MOST_ENTRIES → IsLegal (ordered lines) }
{}

/// A made trace has as many lines as calls were asked for.
pub fn made_traces_have_all_calls()
    ensures { (seed calls actors : ℕ) → length (made seed calls actors).lines ≡ calls }
{}
