//! Tests of what is said of a run.

use crate::given::{best, network};
use cfn_desk::{Failed, MemoryDesk};
use cfn_fault::FaultKind;
use cfn_model::{Kind, Refusal, ResultWord, Row};
use cfn_proof::{Certificate, Tree};
use cfn_report::*;
use std::alloc::AllocError;
use std::test::Fail;

/// A desk where these calls fail.
fn desk(rt: &HostRuntime, failing: &[u64]) -> Result<MemoryDesk, AllocError> {
    MemoryDesk::make(rt.alloc(), &[], 0, 8192, failing)
}

/// A certificate of one open root.
fn bare_certificate(rt: &HostRuntime) -> Result<Certificate, AllocError> {
    Ok(Certificate {
        variables: 3,
        functions: 3,
        upper: 10,
        best: None,
        lower: 0,
        tree: Tree::new(rt.alloc())?,
    })
}

const BARE: &[u8] = b"variables 3\nfunctions 3\nworkers 1\nrow 0 none\nlower 0\nupper none\n\
    nodes 1\nresult budget\n";

/// The report of that certificate.
fn say_bare(certificate: &Certificate, desk: &mut MemoryDesk) -> Result<(), Failed> {
    let report = Report {
        workers: 1,
        certificate,
        rows: &[Row {
            lower: 0,
            upper: None,
        }],
        nodes: 1,
        word: ResultWord::Budget,
    };
    write(&report, desk)
}

/// What becomes of that report where these calls fail, and how many of its bytes, and nothing else, were said then.
fn say_bare_at(
    rt: &HostRuntime,
    failing: &[u64],
) -> Result<(Result<(), Failed>, Option<usize>), AllocError> {
    let certificate = bare_certificate(rt)?;
    let mut desk = desk(rt, failing)?;
    let answer = say_bare(&certificate, &mut desk);
    let front = desk.said_bytes();
    Ok((answer, BARE.starts_with(front).then_some(front.len())))
}

#[test]
fn says_an_open_root(rt: HostRuntime) -> Result<(), Fail> {
    assert!(rt; say_bare_at(&rt, &[])? == (Ok(()), Some(BARE.len())));
    Ok(())
}

/// How many lines end within so many bytes of that report.
fn lines_within(bytes: usize) -> u64 {
    BARE.iter().take(bytes).filter(|b| **b == b'\n').count() as u64
}

#[test]
fn stops_at_each_line(rt: HostRuntime) -> Result<(), Fail> {
    for lines in 0..8 {
        let (answer, said) = say_bare_at(&rt, &[lines + 1])?;
        assert!(rt; answer == Err(Failed));
        assert!(rt; said.is_some_and(|bytes| lines_within(bytes) == lines));
    }
    Ok(())
}

/// A certificate with a best assignment.
fn best_certificate(rt: &HostRuntime) -> Result<Certificate, AllocError> {
    let network = network(rt)?;
    let best = best(rt, &network)?;
    Ok(Certificate {
        variables: network.variables(),
        functions: network.functions(),
        upper: network.ub(),
        best: Some(best),
        lower: 5,
        tree: Tree::new(rt.alloc())?,
    })
}

/// Whether the report of that certificate, with two rows, is said as these bytes.
fn says_best(rt: &HostRuntime, bytes: &[u8]) -> Result<bool, AllocError> {
    let certificate = best_certificate(rt)?;
    let rows = [
        Row {
            lower: 2,
            upper: None,
        },
        Row {
            lower: 5,
            upper: Some(5),
        },
    ];
    let report = Report {
        workers: 2,
        certificate: &certificate,
        rows: &rows,
        nodes: 12,
        word: ResultWord::Optimum,
    };
    let mut desk = desk(rt, &[])?;
    let answer = write(&report, &mut desk);
    Ok(answer == Ok(()) && desk.said_bytes() == bytes)
}

#[test]
fn says_a_best_and_rows(rt: HostRuntime) -> Result<(), Fail> {
    let text =
        b"variables 2\nfunctions 1\nworkers 2\nrow 2 none\nrow 5 5\nlower 5\nupper 5\nvalues 1 0\n\
        nodes 12\nresult optimum\n";
    assert!(rt; says_best(&rt, text)?);
    Ok(())
}

/// Says each message once or twice; whether all were said.
fn say_each(desk: &mut MemoryDesk) -> bool {
    let refusal = Refusal {
        kind: Kind::TableTooWide,
        ordinal: 17,
    };
    write_refusal(&refusal, desk).is_ok()
        && write_header_fault(2, desk).is_ok()
        && write_read_fault(desk).is_ok()
        && write_write_fault(desk).is_ok()
        && write_memory_fault(desk).is_ok()
        && write_usage(desk).is_ok()
        && write_cost(10, 9, desk).is_ok()
        && write_cost(10, 10, desk).is_ok()
        && write_values_fault(3, 4, desk).is_ok()
        && write_value_fault(2, desk).is_ok()
        && write_verified(1, Some(1), desk).is_ok()
        && write_verified(5, None, desk).is_ok()
        && write_migrated(desk).is_ok()
        && write_trial(20, 57, 71, desk).is_ok()
        && write_refused(FaultKind::Lift, 9, desk).is_ok()
}

/// Whether they are these bytes.
fn says_each(rt: &HostRuntime, bytes: &[u8]) -> Result<bool, AllocError> {
    let mut desk = desk(rt, &[])?;
    Ok(say_each(&mut desk) && desk.said_bytes() == bytes)
}

#[test]
fn says_each_message(rt: HostRuntime) -> Result<(), Fail> {
    let text =
        b"error table-too-wide at 17\nerror header at 2\nerror read\nerror write\nerror memory\nerror usage\n\
        wcspsolve solve FILE CERT [--workers W] [--budget B] [--seconds S] [--wcnf] [--progress] [--record REC]\nwcspsolve check FILE CERT [--wcnf]\n\
        wcspsolve cost FILE VALUES.. [--wcnf]\nwcspsolve normal FILE [--wcnf]\nwcspsolve trial SEED SIZE [--workers W]\n\
        wcspsolve migrate FILE CERT OUT\nwcspsolve rebase FILE OLD CERT [--workers W] [--budget B] [--seconds S] [--wcnf] [--progress] [--part I] [--parts N]\n\
        wcspsolve merge FILE OUT CERT.. [--wcnf]\nwcspsolve replay FILE REC CERT [--wcnf]\nwcspsolve kbest FILE K CERT [--budget B] [--seconds S] [--wcnf]\nwcspsolve checkbest FILE CERT [--wcnf] [--complete]\ncost 9 allowed\ncost 10 forbidden\n\
        error values expected 3 got 4\nerror value at 2\nverified lower 1 best 1\nverified lower 5 best none\nmigrated\nvariables 20\nfunctions 57\nleast 71\nrefused lift at 9\n";
    assert!(rt; says_each(&rt, text)?);
    Ok(())
}
