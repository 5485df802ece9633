//! Why a call of the C library did not do what it was asked for.

ghost use Rattle.std.specs.Prelude.{◌≡◌};
ghost use Rattle.capi.specs.Codes.{wire_code, report_code, cause_code, code_of, unserved_by};

use live_sender::LiveFault;
use rtp_wire::WireFault;
use send_core::Cause;
use twcc_report::ReportFault;

/// Why a call did not do what it was asked for.
#[derive(Clone, Copy, PartialEq, Eq, Debug)]
pub enum Fault {
    /// The handle has no sender.
    NotOpen,
    /// The handle has a sender already.
    AlreadyOpen,
    /// Memory ran out.
    NoMemory,
    /// One more call could pass a limit of the sender.
    Exhausted,
    /// The class has no such number.
    BadClass,
    /// There are more bytes, streams or ids than the call takes.
    BadSize,
    /// The mask names a setting that there isn't.
    BadMask,
    /// There is no such control, or it begins at no such rate.
    BadControl,
    /// From this place on, counted from 0, no packet of RTCP stands; packets stand before it.
    Compound(u32),
    /// The sender refused the call.
    Refused(Cause),
}

// The number of a packet that fails a check.
fn wire_code(fault: WireFault) -> i32
    ensures { result ≡ wire_code fault }
{
    match fault {
        WireFault::Short => -101,
        WireFault::Long => -102,
        WireFault::Version => -103,
        WireFault::BadExtension => -104,
        WireFault::NoExtension => -105,
    }
}

// The number of a report that fails a check.
fn report_code(fault: ReportFault) -> i32
    ensures { result ≡ report_code fault }
{
    match fault {
        ReportFault::Short => -201,
        ReportFault::Length => -202,
        ReportFault::Version => -203,
        ReportFault::NotFeedback => -204,
        ReportFault::NoStatus => -205,
        ReportFault::Chunks => -206,
        ReportFault::Reserved => -207,
        ReportFault::Deltas => -208,
        ReportFault::Padding => -209,
    }
}

// The number of a refusal.
fn cause_code(cause: Cause) -> i32
    ensures { result ≡ cause_code cause }
{
    match cause {
        Cause::MomentTooLarge => -7,
        Cause::QueueFull { .. } => -8,
        Cause::Wire(fault) => wire_code(fault),
        Cause::Report(fault) => report_code(fault),
        Cause::Config(check) => -300 - (check.min(99) as i32),
    }
}

impl Fault {
    /// The number that C sees: -1 to -6 in the order of the first variants, -7 for a moment that is too
    /// large, -8 for a full queue, -9 for bytes that are no packets of RTCP, -10 for a mask
    /// that names a setting that there isn't, -101 on for a packet, -201 on for a report and -301 on for
    /// settings, by the first check that fails.
    pub fn code(&self) -> i32
        ensures { result ≡ code_of self.now }
    {
        match self {
            Fault::NotOpen => -1,
            Fault::AlreadyOpen => -2,
            Fault::NoMemory => -3,
            Fault::Exhausted => -4,
            Fault::BadClass => -5,
            Fault::BadSize => -6,
            Fault::BadMask => -10,
            Fault::BadControl => -11,
            Fault::Compound(_) => -9,
            Fault::Refused(cause) => cause_code(*cause),
        }
    }
}

/// What a live sender that did not serve a call says.
pub fn fault_of(fault: LiveFault) -> Fault
    ensures { result ≡ unserved_by fault }
{
    match fault {
        LiveFault::Exhausted => Fault::Exhausted,
        LiveFault::NoMemory => Fault::NoMemory,
    }
}
