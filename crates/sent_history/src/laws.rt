//! Laws of the definitions that the contracts of this crate cite. The functions do nothing; their
//! contracts are the laws.

ghost use Rattle.std.specs.Prelude.{◌≡◌, ◌≢◌, ◌↔◌, ℕ, ◌+◌, ◌<◌, ◌≤◌, List, length, map, count_by, All, AllPairs, Contains};
ghost use Rattle.gcc_units.specs.declared.shared_types.Credit.{Credit};
ghost use Rattle.twcc_report.specs.Spelling.{Feedback};
ghost use Rattle.sent_history.specs.Events.{Event, packets, reports};
ghost use Rattle.sent_history.specs.Crediting.{account, judged, credits_in, missing_numbers, is_unknown, is_repeated, outstanding, IsOfPacket};
ghost use Rattle.sent_history.specs.Balance.{HasFewStatuses, IsOutstanding, IsNamedReceived, expired};

/// Law: the packets that a report credits are exactly those that are outstanding and that it names
/// received, each once; each credit tells of the packet of its number.
pub fn credits_are_exact()
    ensures exact { (events : List Event) (report : Feedback) (n : ℕ)
        → Contains (map (λ (c : Credit). c.number) (credits_in (judged events report))) n
        ↔ (IsOutstanding (account events) n × IsNamedReceived (account events) report n) }
    ensures outstanding { (events : List Event) (report : Feedback)
        → All (λ (c : Credit). IsOutstanding (account events) c.number) (credits_in (judged events report)) }
    ensures once { (events : List Event) (report : Feedback) → HasFewStatuses report
        → AllPairs (λ (c d : Credit). c.number ≢ d.number) (credits_in (judged events report)) }
    ensures packets { (events : List Event) (report : Feedback)
        → All (IsOfPacket (packets events)) (credits_in (judged events report)) }
{}

/// Law: over all reports no number is credited twice, and each credited number is that of a packet
/// that was sent.
pub fn no_number_is_credited_twice()
    ensures once { (events : List Event) → All HasFewStatuses (reports events)
        → AllPairs (λ (m n : ℕ). m ≢ n) (account events).credited }
    ensures sent { (events : List Event)
        → All (λ (n : ℕ). n < length (packets events)) (account events).credited }
    ensures few { (events : List Event) → All HasFewStatuses (reports events)
        → length (account events).credited ≤ length (packets events) }
{}

/// Law: each packet that was sent is credited, outstanding or expired.
pub fn packets_balance()
    ensures { (events : List Event) → All HasFewStatuses (reports events)
        → length (packets events) ≡ length (account events).credited + outstanding events + expired events }
{}

/// Law: each status of a report credits a packet, reports one missing, is unknown or is repeated.
pub fn statuses_are_judged_once()
    ensures sum { (events : List Event) (report : Feedback)
        → length (credits_in (judged events report)) + length (missing_numbers (judged events report))
        + count_by is_unknown (judged events report) + count_by is_repeated (judged events report)
        ≡ length report.statuses }
    ensures credits { (events : List Event) (report : Feedback)
        → length (credits_in (judged events report)) ≤ length report.statuses }
    ensures missing { (events : List Event) (report : Feedback)
        → length (missing_numbers (judged events report)) ≤ length report.statuses }
{}
