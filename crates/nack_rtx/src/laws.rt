//! Laws of the definitions that the contracts of this crate cite. The functions do nothing; their
//! contracts are the laws.

ghost use Rattle.std.specs.Prelude.{◌≡◌, ℕ, ◌+◌, ◌*◌, ◌^◌, ◌<◌, ◌≤◌, ◌==◌, ◌↔◌, Some, sum, length, List, [], ◌∷◌, ◌++◌, All, count_by};
ghost use Rattle.std.specs.List.{flat_map};
ghost use Rattle.nack_rtx.specs.Naming.{has, first_at, first_of};
ghost use Rattle.nack_rtx.specs.Spelling.{Asked, Spells};
ghost use Rattle.nack_rtx.specs.Checks.{IsByChecks};
ghost use Rattle.nack_rtx.specs.declared.resender.RtxSettings.{RtxSettings};
ghost use Rattle.rtp_wire.specs.Place.{field32};
ghost use Rattle.nack_rtx.specs.Packets.{resent_packet};
ghost use Rattle.nack_rtx.specs.Resending.{Account, Event, account, left, verdicts, stored, resend_in};
ghost use Rattle.nack_rtx.specs.Yielding.{IsAgainAt, IsYielded, IsNewestWith};

/// No bytes spell two NACKs.
pub fn one_nack()
    ensures { (n m : Asked) (bytes : List ℕ) → Spells n bytes → Spells m bytes → n ≡ m }
{}

/// Reading bytes gives the fault of the first check that fails, and the NACK that they spell exactly
/// where they spell one.
pub fn reading_is_by_checks()
    ensures { (bytes : List ℕ) → All (λ b. b < 256) bytes → IsByChecks bytes }
{}

/// The lost numbers are those that the pairs name, each once: one number more stands behind the others
/// exactly where it was not named before.
pub fn lost_are_the_named()
    ensures same { (named : List ℕ) (n : ℕ) → has (first_of named) n ≡ has named n }
    ensures once { (named : List ℕ) (n : ℕ) → count_by (λ m. m == n) (first_of named) ≤ 1 }
    ensures order { (named : List ℕ) (n : ℕ) → first_of (named ++ n ∷ []) ≡ first_of named ++ first_at named n }
{}

/// Stored are the newest packets, except those that have a later packet with the same sequence number.
pub fn stored_are_the_newest()
    ensures { (packets : List (List ℕ)) (seq place : ℕ) → (stored packets seq ≡ Some place) ↔ IsNewestWith packets seq place }
{}

/// A number is sent again exactly where the NACK is for the media, the number is that of a stored
/// packet, and this packet was not sent again as often as may be.
pub fn yields_what_it_names()
    ensures { (s : RtxSettings) (media : ℕ) (a : Account) (seq place : ℕ) → IsAgainAt s media a seq place ↔ IsYielded s media a seq place }
{}

/// No packet is sent again more often than may be.
pub fn none_beyond_its_repeats()
    ensures { (s : RtxSettings) (events : List Event) → All (λ n. n ≤ s.repeats) (account s events).resent }
{}

/// What NACKs are answered by adds to how often packets were sent again, which is never more than so
/// often for each packet that was kept.
pub fn resends_are_few()
    ensures count { (s : RtxSettings) (media : ℕ) (a : Account) (seqs : List ℕ) → length a.resent ≡ length a.packets
        → sum (left s media a seqs).resent ≡ sum a.resent + length (flat_map resend_in (verdicts s media a seqs)) }
    ensures few { (s : RtxSettings) (events : List Event) → sum (account s events).resent ≤ s.repeats * length (account s events).packets }
{}

/// A packet that is sent again has the SSRC of retransmissions, so it is never one of the media.
pub fn resent_packets_are_of_rtx()
    ensures { (payload seq ssrc : ℕ) (packet : List ℕ) → 12 ≤ length packet → ssrc < 2 ^ 32
        → field32 8 (resent_packet payload seq ssrc packet) ≡ ssrc }
{}
