//! How much a sender may be asked for in all. Each count beside its limit is of a whole history.

/// The most packets that are sent in all: 2^40. With it the credits of one more report stay within
/// `MOST_PACKETS` (ours).
pub const MOST_SENT: u64 = 1_099_511_627_776;

/// The most packets that are accepted in all, whose indices have 32 bits.
pub const MOST_ACCEPTED: u32 = 4_294_967_295;
