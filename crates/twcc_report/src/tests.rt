//! What no clause says: reports of the worked runs, and that memory is not wanting.

use crate::Status::{Large, NotReceived, Small};
use crate::{
    ReadReport, Report, ReportFault, Status, StatusRun, read_compact, read_report, write_report,
};
use gcc_units::Sequence;
use std::alloc::{AllocError, Global};
use std::test::Fail;

/// A report's first byte, its length in words less one, its status count, its reference, the
/// bytes behind the header, and its statuses.
type Spelled = (u8, u8, u8, [u8; 3], &'static [u8], &'static [Status]);

const SPELLED: [Spelled; 11] = [
    // one report, and with padding
    (
        0x8f,
        6,
        3,
        [0, 0, 1],
        &[0x20, 3, 4, 8, 0, 0, 0, 0],
        &[Small(4), Small(8), Small(0)],
    ),
    (
        0xaf,
        6,
        3,
        [0, 0, 1],
        &[0x20, 3, 4, 8, 0, 0, 0, 3],
        &[Small(4), Small(8), Small(0)],
    ),
    // a reserved symbol past the count
    (0x8f, 5, 1, [0, 0, 1], &[0xdc, 0, 4, 0], &[Small(4)]),
    // a long run
    (
        0x8f,
        6,
        5,
        [0, 0, 1],
        &[0x3f, 0xff, 4, 4, 4, 4, 4, 0],
        &[Small(4), Small(4), Small(4), Small(4), Small(4)],
    ),
    // a report of one packet, and of one that is late
    (0x8f, 5, 1, [0, 0, 1], &[0x20, 1, 4, 0], &[Small(4)]),
    (
        0x8f,
        5,
        2,
        [0, 0, 1],
        &[0x90, 0, 4, 0],
        &[NotReceived, Small(4)],
    ),
    // a small delta has no sign, a large one has
    (0x8f, 5, 1, [0, 0, 1], &[0x20, 1, 0xff, 0], &[Small(255)]),
    (
        0x8f,
        6,
        3,
        [0, 0, 1],
        &[0x40, 3, 0x0b, 0xb8, 0xf6, 0x3c, 0xfe, 0xd4],
        &[Large(3000), Large(-2500), Large(-300)],
    ),
    // a run of length 0 of the reserved symbol
    (
        0x8f,
        6,
        2,
        [0, 0, 1],
        &[0x60, 0, 0x20, 2, 4, 4, 0, 0],
        &[Small(4), Small(4)],
    ),
    // the greatest and the least reference
    (
        0x8f,
        5,
        1,
        [0x7f, 0xff, 0xff],
        &[0x20, 1, 4, 0],
        &[Small(4)],
    ),
    (0x8f, 5, 1, [0x80, 0, 0], &[0x20, 1, 4, 0], &[Small(4)]),
];

const REFERENCES: [i32; 11] = [1, 1, 1, 1, 1, 1, 1, 1, 1, 8_388_607, -8_388_608];

/// Which of them are the canonical spelling.
const CANONICAL: [bool; 11] = [
    true, false, false, false, true, true, true, true, false, true, true,
];

/// A report that is refused: its first byte, its length in words less one, its status count, the
/// bytes behind the header, and the fault.
type Refused = (u8, u8, u8, &'static [u8], ReportFault);

const REFUSED: [Refused; 15] = [
    // a reserved symbol, and a long run with too few deltas
    (0x8f, 5, 2, &[0xdc, 0, 4, 0], ReportFault::Reserved),
    (0x8f, 5, 3, &[0x3f, 0xff, 4, 4], ReportFault::Deltas),
    // more than three bytes behind the last delta
    (
        0x8f,
        6,
        1,
        &[0x20, 1, 4, 0, 0, 0, 0, 0],
        ReportFault::Padding,
    ),
    // padding without a rest
    (0xaf, 5, 2, &[0x20, 2, 1, 0xff], ReportFault::Padding),
    // reserved symbols that count; chunks before reserved symbols; these before deltas
    (0x8f, 5, 2, &[0x60, 1, 0x60, 1], ReportFault::Reserved),
    (0x8f, 5, 9, &[0x60, 1, 0xd5, 0x55], ReportFault::Chunks),
    (0x8f, 5, 2, &[0x60, 2, 0, 0], ReportFault::Reserved),
    (0x8f, 5, 2, &[0x60, 1, 0x20, 0], ReportFault::Chunks),
    // no chunk, and no delta
    (0x8f, 4, 3, &[], ReportFault::Chunks),
    (0x8f, 5, 3, &[0x20, 3, 4, 8], ReportFault::Deltas),
    // version 1, format 14, no status, padding of 0
    (
        0x4f,
        6,
        3,
        &[0x20, 3, 4, 8, 0, 0, 0, 0],
        ReportFault::Version,
    ),
    (
        0x8e,
        6,
        3,
        &[0x20, 3, 4, 8, 0, 0, 0, 0],
        ReportFault::NotFeedback,
    ),
    (
        0x8f,
        6,
        0,
        &[0x20, 3, 4, 8, 0, 0, 0, 0],
        ReportFault::NoStatus,
    ),
    (
        0xaf,
        6,
        3,
        &[0x20, 3, 4, 8, 0, 0, 0, 0],
        ReportFault::Padding,
    ),
    // padding that counts more than the rest
    (
        0xaf,
        6,
        3,
        &[0x20, 3, 4, 8, 0, 0, 0, 4],
        ReportFault::Padding,
    ),
];

fn bytes_of(
    alloc: Global,
    first: u8,
    words: u8,
    count: u8,
    reference: [u8; 3],
    behind: &[u8],
) -> Result<Vec<u8>, AllocError> {
    let mut bytes = Vec::new(alloc);
    bytes.extend_from_slice(&[first, 205, 0, words, 0, 0, 0, 1, 0, 0, 0, 2, 0, 7, 0, count])?;
    bytes.extend_from_slice(&reference)?;
    bytes.extend_from_slice(&[9])?;
    bytes.extend_from_slice(behind)?;
    Ok(bytes)
}

#[test]
fn spelled_reports(rt: HostRuntime) -> Result<(), Fail> {
    for (k, (first, words, count, reference, behind, statuses)) in SPELLED.into_iter().enumerate() {
        let bytes = bytes_of(rt.alloc(), first, words, count, reference, behind)?;
        let report = read_report(rt.alloc(), &bytes)?;
        assert_eq!(rt; (report.sender, report.media, report.base), (1, 2, 7));
        assert_eq!(rt; report.feedback, 9);
        assert!(rt; k < 11);
        assert_eq!(rt; report.reference, REFERENCES[k], "report {k}");
        assert!(rt; report.statuses.as_slice() == statuses, "report {k}");
    }
    Ok(())
}

#[test]
fn refused_reports(rt: HostRuntime) -> Result<(), Fail> {
    for (k, (first, words, count, behind, fault)) in REFUSED.into_iter().enumerate() {
        let bytes = bytes_of(rt.alloc(), first, words, count, [0, 0, 1], behind)?;
        let got = read_report(rt.alloc(), &bytes).err();
        assert!(rt; got == Some(ReadReport::Fault(fault)), "report {k}");
    }
    Ok(())
}

#[test]
fn beginnings_of_a_report(rt: HostRuntime) -> Result<(), Fail> {
    let bytes = bytes_of(
        rt.alloc(),
        0x8f,
        6,
        3,
        [0, 0, 1],
        &[0x20, 3, 4, 8, 0, 0, 0, 0],
    )?;
    for k in 0..bytes.len() {
        let want = if k < 20 {
            ReportFault::Short
        } else {
            ReportFault::Length
        };
        let got = read_report(rt.alloc(), &bytes[..k]).err();
        assert!(rt; got == Some(ReadReport::Fault(want)), "{k} bytes");
    }
    Ok(())
}

#[test]
fn written_again(rt: HostRuntime) -> Result<(), Fail> {
    for (k, (first, words, count, reference, behind, _)) in SPELLED.into_iter().enumerate() {
        let bytes = bytes_of(rt.alloc(), first, words, count, reference, behind)?;
        let report = read_report(rt.alloc(), &bytes)?;
        let written = write_report(rt.alloc(), &report)?;
        assert!(rt; k < 11);
        let same = written.as_slice() == bytes.as_slice();
        assert!(rt; same == CANONICAL[k], "report {k}");
    }
    Ok(())
}

#[test]
fn one_bit_vector(rt: HostRuntime) -> Result<(), Fail> {
    let statuses = Vec::from_array(rt.alloc(), [Small(4), NotReceived, Small(8)])?;
    let report = Report {
        sender: 1,
        media: 2,
        base: 7,
        reference: 1,
        feedback: 9,
        statuses: Sequence::from_vec(statuses),
    };
    let want = bytes_of(rt.alloc(), 0x8f, 5, 3, [0, 0, 1], &[0xa8, 0, 4, 8])?;
    let got = write_report(rt.alloc(), &report)?;
    assert!(rt; got.as_slice() == want.as_slice());
    Ok(())
}

#[test]
fn two_bit_vector(rt: HostRuntime) -> Result<(), Fail> {
    let statuses = Vec::from_array(rt.alloc(), [Large(-300), Small(255)])?;
    let report = Report {
        sender: 1,
        media: 2,
        base: 7,
        reference: -2,
        feedback: 9,
        statuses: Sequence::from_vec(statuses),
    };
    let behind = [0xe4, 0, 0xfe, 0xd4, 0xff, 0, 0, 0];
    let want = bytes_of(rt.alloc(), 0x8f, 6, 2, [0xff, 0xff, 0xfe], &behind)?;
    let got = write_report(rt.alloc(), &report)?;
    assert!(rt; got.as_slice() == want.as_slice());
    Ok(())
}

/// A report's length in words less one, its status count, the bytes behind the header, and its runs.
type InRuns = (u8, u8, &'static [u8], &'static [StatusRun]);

const IN_RUNS: [InRuns; 4] = [
    // two chunks of lost packets, of which the second is longer than the count
    (
        5,
        20,
        &[0, 13, 0x1f, 0xff],
        &[StatusRun::Lost(13), StatusRun::Lost(7)],
    ),
    // received packets between lost ones, and a run of no length
    (
        7,
        6,
        &[0, 2, 0, 0, 0x20, 2, 0, 2, 4, 8, 0, 0],
        &[
            StatusRun::Lost(2),
            StatusRun::Lost(0),
            StatusRun::One(Small(4)),
            StatusRun::One(Small(8)),
            StatusRun::Lost(2),
        ],
    ),
    // a vector of one bit
    (
        5,
        3,
        &[0xa8, 0, 4, 8],
        &[
            StatusRun::One(Small(4)),
            StatusRun::Lost(1),
            StatusRun::One(Small(8)),
        ],
    ),
    // a large delta
    (5, 1, &[0x40, 1, 0x0b, 0xb8], &[StatusRun::One(Large(3000))]),
];

#[test]
fn reports_in_runs(rt: HostRuntime) -> Result<(), Fail> {
    for (k, (words, count, behind, runs)) in IN_RUNS.into_iter().enumerate() {
        let bytes = bytes_of(rt.alloc(), 0x8f, words, count, [0x80, 0, 0], behind)?;
        let report = read_compact(rt.alloc(), &bytes)?;
        assert_eq!(rt; report.base(), 7, "report {k}");
        assert_eq!(rt; report.reference(), -8_388_608, "report {k}");
        assert!(rt; report.runs() == runs, "report {k}");
    }
    Ok(())
}

#[test]
fn refused_in_runs(rt: HostRuntime) -> Result<(), Fail> {
    for (k, (first, words, count, behind, fault)) in REFUSED.into_iter().enumerate() {
        let bytes = bytes_of(rt.alloc(), first, words, count, [0, 0, 1], behind)?;
        let got = read_compact(rt.alloc(), &bytes).err();
        assert!(rt; got == Some(ReadReport::Fault(fault)), "report {k}");
    }
    Ok(())
}
