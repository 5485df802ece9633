//! Laws of the definitions that the contracts of this crate cite, in the words of the standards.
//! The functions do nothing; their contracts are the laws.

ghost use Rattle.std.specs.Prelude.{◌≡◌, ◌≢◌, ℕ, ◌+◌, ◌^◌, ◌≤◌, ◌<◌, Ok, List, length, slice_index};
ghost use Rattle.gcc_units.specs.declared.limits.TheConstants.{PADDING_PACKET, GREATEST_PACKET};
ghost use Rattle.rtp_wire.specs.Place.{place_of, field16};
ghost use Rattle.rtp_wire.specs.Stamp.{stamped, padding_packet};
ghost use Rattle.rtp_wire.specs.Elements.{IsOfOneKind};
ghost use Rattle.rtp_wire.specs.Checks.{IsByChecks};

/// Reading a packet gives the fault of the first check that fails, and our element's place
/// exactly where all pass.
pub fn reading_is_by_checks()
    ensures { (id : ℕ) (bytes : List ℕ) → 1 ≤ id → id ≤ 14 → IsByChecks id bytes }
{}

/// Behind the elements that are not ours comes ours, or the end of the elements, or one that
/// passes the extension's end; and never two of these.
pub fn extensions_are_of_one_kind()
    ensures { (id : ℕ) (extension : List ℕ) → 1 ≤ id → id ≤ 14 → IsOfOneKind id extension }
{}

/// Where a place can be: behind the fixed header and an extension's head, with two bytes of the
/// packet behind it.
pub fn places_are_inside()
    ensures behind_header { (id place : ℕ) (bytes : List ℕ) → 1 ≤ id → id ≤ 14
        → place_of id bytes ≡ Ok place → 16 ≤ place }
    ensures inside { (id place : ℕ) (bytes : List ℕ) → 1 ≤ id → id ≤ 14
        → place_of id bytes ≡ Ok place → place + 2 ≤ length bytes }
    ensures size { (id place : ℕ) (bytes : List ℕ) → 1 ≤ id → id ≤ 14
        → place_of id bytes ≡ Ok place → length bytes ≤ GREATEST_PACKET }
{}

/// A stamp changes the two bytes at its place and nothing else.
pub fn stamps_change_two_bytes()
    ensures len { (bytes : List ℕ) (place low : ℕ) → place + 2 ≤ length bytes
        → length (stamped bytes place low) ≡ length bytes }
    ensures number { (bytes : List ℕ) (place low : ℕ) → place + 2 ≤ length bytes
        → low < 2 ^ 16 → field16 place (stamped bytes place low) ≡ low }
    ensures others { (bytes : List ℕ) (place low k : ℕ) → place + 2 ≤ length bytes
        → k ≢ place → k ≢ place + 1 → slice_index (stamped bytes place low) k ≡ slice_index bytes k }
{}

/// A padding packet has its size, and is read with its number at place 17.
pub fn padding_packets_are_read()
    ensures len { (low id : ℕ) → length (padding_packet low id) ≡ PADDING_PACKET }
    ensures place { (low id : ℕ) → 1 ≤ id → id ≤ 14
        → place_of id (padding_packet low id) ≡ Ok 17 }
{}
