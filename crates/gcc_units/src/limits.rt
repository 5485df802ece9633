//! The limits of the sender. Code and contracts name them, never their numbers.

/// The greatest moment that a call may hand in, in microseconds: 2^50.
pub const GREATEST_MOMENT: u64 = 1_125_899_906_842_624;

/// The least rate in bit/s. A padding rate may be 0.
pub const LEAST_RATE: u64 = 1_000;

/// The greatest rate in bit/s.
pub const GREATEST_RATE: u64 = 10_000_000_000;

/// The fewest bytes of a packet: the fixed RTP header (RFC 3550, section 5.1).
pub const LEAST_PACKET: u32 = 12;

/// The most bytes of a packet.
pub const GREATEST_PACKET: u32 = 1_500;

/// The bytes of a padding packet.
pub const PADDING_PACKET: u32 = 256;

/// The most bytes of a trace: 2^29.
pub const MOST_TRACE_BYTES: u64 = 536_870_912;

/// The most bytes of a trace and a printed history that are checked: 2^30.
pub const MOST_CHECK_BYTES: u64 = 1_073_741_824;

/// The most lines of action of a trace.
pub const MOST_LINES: u32 = 1_000_000;

/// The most actors of a trace.
pub const MOST_ACTORS: u32 = 64;

/// The most packets that wait.
pub const MOST_WAITING: u32 = 8_192;

/// How many of the last sent packets are kept for crediting.
pub const KEPT_PACKETS: u32 = 32_768;

/// The most sends of one pace call.
pub const MOST_SENDS: u32 = 64;

/// The most streams of an allocation.
pub const MOST_STREAMS: u32 = 32;

/// The most probe clusters that wait.
pub const MOST_CLUSTERS: u32 = 16;

/// The most entries of a journal.
pub const MOST_ENTRIES: u32 = 1_000_000;

/// What a byte takes of a level, in micro-bits: eight bits of 1,000,000 each. A rate in bit/s times
/// a time in microseconds is a level too.
pub const BYTE: u64 = 8_000_000;

/// A quarter-millisecond, the unit of arrivals, in microseconds
/// (draft-holmer-rmcat-transport-wide-cc-extensions-01, section 3.1).
pub const ARRIVAL_MICROSECONDS: u64 = 250;

/// The most statuses of a feedback report, whose count has 16 bits
/// (draft-holmer-rmcat-transport-wide-cc-extensions-01, section 3.1).
pub const MOST_STATUSES: u32 = 65_535;

/// The most feedback reports that one object is given: 2^30 (ours).
pub const MOST_REPORTS: u32 = 1_073_741_824;

/// How many lengths of a history a board can tell apart, 2^20: a board is the length and so many
/// times what else is shown (ours).
pub const BOARD_LENGTHS: u64 = 1_048_576;

/// The most packets, credits or samples that one object is given: 2^40, and those of one report more (ours).
pub const MOST_PACKETS: u64 = 1_099_511_693_312;

/// More packets and credits than a journal has, whose calls send at most 64 packets each: 2^27.
pub const JOURNAL_PACKETS: u32 = 134_217_728;

/// How far an arrival may lie from 0, in quarter-milliseconds: 2^61 + 2^32. Each report moves the reference by at
/// most 2^23 units of 64 ms, and its own deltas come to less than 2^31.
pub const GREATEST_ARRIVAL: i64 = 2_305_843_013_508_661_248;

/// How far an arrival of a journal's credit may lie from 0, in quarter-milliseconds: 2^53.
pub const JOURNAL_ARRIVAL: i64 = 9_007_199_254_740_992;

/// How far the `d` of a sample may lie from 0, in 1/65536 millisecond: 10,000 ms.
pub const GREATEST_DELAY: i64 = 655_360_000;
