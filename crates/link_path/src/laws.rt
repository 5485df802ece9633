//! Laws of the definitions that the contracts of this crate cite. The functions do nothing; their
//! contracts are the laws.

ghost use Rattle.std.specs.Prelude.{◌≡◌, ◌↔◌, false, ◌+◌, ◌-◌, ◌*◌, ◌/◌, ◌<◌, ◌≤◌, ◌∷◌, ◌++◌, [], ℕ, List, Option, length, All, AllPairs};
ghost use Rattle.gcc_units.specs.declared.limits.TheConstants.{BYTE};
ghost use Rattle.link_path.specs.declared.link.LinkSettings.{LinkSettings};
ghost use Rattle.link_path.specs.declared.link.Arrival.{Arrival};
ghost use Rattle.link_path.specs.declared.link.Fate.TheVariants.{Dropped};
ghost use Rattle.link_path.specs.Link.{Offer, Event, offers, fate, free_after, is_dropped, arrival_at, line_time, arrivals, delivered, held};
ghost use Rattle.link_path.specs.KeptLink.{IsLink, HasBytes};
ghost use Rattle.link_path.specs.LinkLaws.{bytes_through, times_through};
ghost use Rattle.link_path.specs.Division.{Run, Told, numbers_in, report_of, runs_of};
ghost use Rattle.link_path.specs.OneDivision.{IsTheOne};
ghost use Rattle.link_path.specs.Receiver.{NumbersRise, next_from};
ghost use Rattle.link_path.specs.Told.{AreBased, TimesRise, all_told, statuses_in, times_of};
ghost use Rattle.link_path.specs.Taking.{Step, listed_takes, reported, takes};

/// Between the arrivals of two packets the link had time for all that arrive behind the first one, up to the
/// second: for each one's own time on the line, and for all their bits at the link's rate.
pub fn no_faster_than_its_rate()
    ensures times { (s : LinkSettings) (before between : List Offer) (o p : Offer) → IsLink s
        → is_dropped s before o ≡ false → is_dropped s (before ++ o ∷ between) p ≡ false
        → arrival_at s before o + times_through s (before ++ o ∷ []) between + line_time s p
        ≤ arrival_at s (before ++ o ∷ between) p }
    ensures bits { (s : LinkSettings) (before between : List Offer) (o p : Offer) → IsLink s
        → is_dropped s before o ≡ false → is_dropped s (before ++ o ∷ between) p ≡ false
        → BYTE * (bytes_through s (before ++ o ∷ []) between + p.size)
        ≤ s.rate * (arrival_at s (before ++ o ∷ between) p - arrival_at s before o) }
{}

/// No packet arrives before it was offered, was sent in its own time on the line and was delayed. Packets
/// arrive in the order in which they were offered.
pub fn none_early()
    ensures early { (s : LinkSettings) (before : List Offer) (o : Offer)
        → o.moment + line_time s o + s.delay ≤ arrival_at s before o }
    ensures order { (s : LinkSettings) (os : List Offer) → IsLink s → All HasBytes os
        → AllPairs (λ (a b : Arrival). a.at < b.at) (arrivals s os) }
{}

/// A packet is dropped exactly where the bytes that the line still has to send then, with its own, are more
/// than the queue.
pub fn dropped_where_full()
    ensures { (s : LinkSettings) (before : List Offer) (o : Offer)
        → (fate s before o ≡ Dropped) ↔ (s.queue < s.rate * (free_after s before - o.moment) / BYTE + o.size) }
{}

/// What was taken out and what is still inside are, one behind the other, all packets that were not dropped.
pub fn none_lost_from_the_count()
    ensures { (s : LinkSettings) (events : List Event) → IsLink s → All HasBytes (offers events)
        → delivered s events ++ held s events ≡ arrivals s (offers events) }
{}

/// The runs that a list reports on are, one behind the other, all of its numbers, each once. A report has one
/// status for each number of its run. All statuses of a receiver's reports are, list by list and report by report,
/// those of the numbers from 0 up to the greatest that was taken before the last list, and each report begins where
/// the ones before it end. Where arrivals rise, a status tells when its number arrived, or that it did not.
pub fn reports_tell_of_each_number_once()
    ensures runs { (numbers : List (Option ℕ)) → numbers_in (runs_of numbers) ≡ numbers }
    ensures statuses { (told : Told) (before : List Run) (run : Run) → length (report_of told before run).statuses ≡ length run }
    ensures times { (steps : List Step) → NumbersRise 0 (takes steps) → TimesRise 0 (takes steps)
        → all_told (reported steps) ≡ times_of (takes steps) 0 (length (statuses_in (reported steps))) }
    ensures count { (steps : List Step) → NumbersRise 0 (takes steps) → TimesRise 0 (takes steps)
        → length (statuses_in (reported steps)) ≡ next_from 0 (listed_takes steps) }
    ensures bases { (steps : List Step) → NumbersRise 0 (takes steps) → TimesRise 0 (takes steps) → AreBased 0 (reported steps) }
{}

/// Numbers are divided into reports in one way: a number goes on in the report before it wherever it can.
pub fn the_one_division()
    ensures { (numbers : List (Option ℕ)) → IsTheOne numbers }
{}
