//! Laws of the definitions that the contracts of this crate cite. The functions do nothing; their contracts are
//! the laws.

ghost use Rattle.std.specs.Prelude.{◌≡◌, ℕ, List};
ghost use Rattle.rtcp_compound.specs.Compound.{ArePackets, FailsAt};

/// Bytes are one list of packets of RTCP, or there is one place up to which packets stand and behind which none
/// does; and never both.
pub fn bytes_are_cut_in_one_way()
    ensures one { (bytes : List ℕ) (a b : List (List ℕ)) → ArePackets a bytes → ArePackets b bytes → a ≡ b }
    ensures one_place { (bytes : List ℕ) (a b : ℕ) → FailsAt bytes a → FailsAt bytes b → a ≡ b }
    ensures apart { (bytes : List ℕ) (packets : List (List ℕ)) (place : ℕ) → ArePackets packets bytes → FailsAt bytes place → ⊥ }
{}
