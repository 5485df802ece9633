//! Classes of media packets and their priority.

ghost use Rattle.std.specs.Prelude.{◌≡◌};
ghost use Rattle.gcc_units.specs.Priority.{rank_of};

/// What a packet carries.
#[derive(Clone, Copy, PartialEq, Eq, Debug)]
pub enum Class {
    Audio,
    Retransmission,
    Video,
    /// Forward error correction.
    Fec,
}

impl Class {
    /// The priority of the class, the least first: 0 for audio, 1 for retransmission, 2 for video
    /// and for forward error correction (this project's own order).
    pub fn rank(&self) -> u32
        ensures { result ≡ rank_of self.now }
    {
        match self {
            Class::Audio => 0,
            Class::Retransmission => 1,
            Class::Video | Class::Fec => 2,
        }
    }
}
