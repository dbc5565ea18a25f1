use rule_chain::Config;
use run_audit::{Audit, AuditFault};
use std::test::Fail;

/// A report of one capture without records, and the first line that is wrong.
type Row<'a> = (&'a str, Option<u64>);

/// Reports, and the first line that is wrong before a record is looked at.
const OPENINGS: [Row<'static>; 9] = [
    (
        "end 1 records 0\neditions 1\nrules 1\n65535 0 0 deny ip from any to any\nclock 0\n\
         states 0\njournal 2 1\npublish 1\nlane 1 refused 0 tracker 0\n",
        None,
    ),
    // The form of all lines comes before the journal.
    ("publish 1\nlane 1 refused 0 tracker 0", Some(2)),
    ("publish 2\ncache 1 hits 0\n", Some(2)),
    ("", Some(1)),
    // The journal publishes each edition once, in order.
    ("publish 2\n", Some(1)),
    ("publish 1\npublish 1\n", Some(2)),
    ("end 1 records 0\neditions 1\n", Some(3)),
    // Each ask is told as the states answer it.
    (
        "publish 1\nask 1.1 5 lookup :default tcp 192.0.2.1 1024 192.0.2.2 80 S notfound\n",
        None,
    ),
    (
        "publish 1\nask 1.1 5 lookup :default tcp 192.0.2.1 1024 192.0.2.2 80 S found 7 forward\n",
        Some(2),
    ),
];

/// Reports that pass at the opening, and the first line that is wrong behind the records, of which
/// there are none.
const CLOSINGS: [Row<'static>; 10] = [
    ("publish 1\nlane 1 refused 0 tracker 0\n", None),
    // Each lane has its line.
    ("publish 1\n", Some(2)),
    ("publish 1\nlane 2 refused 0 tracker 0\n", Some(3)),
    // Its sections are those of its records.
    ("publish 1\nlane 1 refused 1 tracker 2\n", Some(2)),
    ("publish 1\nlane 1 refused 0 tracker 2\n", Some(2)),
    // The first line of a lane counts.
    (
        "publish 1\nlane 1 refused 0 tracker 0\nlane 1 refused 0 tracker 2\n",
        None,
    ),
    // No record is told that its capture doesn't give, and no ask of one.
    (
        "1.1 deny 65535 at 1\npublish 1\nlane 1 refused 0 tracker 2\n",
        Some(1),
    ),
    (
        "1.1 deny 65535 at 1\npublish 1\nlane 1 refused 0 tracker 0\n",
        Some(1),
    ),
    (
        "publish 1\nask 1.1 5 lookup :default tcp 192.0.2.1 1024 192.0.2.2 80 S notfound\n",
        Some(2),
    ),
    // The first of several counts.
    (
        "publish 1\nlane 1 refused 0 tracker 2\n1.1 deny 65535 at 1\n",
        Some(2),
    ),
];

/// The audit of a report beside the default rule alone, or the fault of its opening.
fn opened(rt: &HostRuntime, report: &str) -> Result<Result<Audit, AuditFault>, Fail> {
    let alloc = rt.alloc();
    let mut bytes = Vec::new(alloc);
    bytes.extend_from_slice(report.as_bytes())?;
    Ok(Audit::open(alloc, bytes, Config::new(alloc)?, &[], 1))
}

/// The line that a fault names.
fn named(fault: AuditFault) -> Result<Option<u64>, Fail> {
    match fault {
        AuditFault::Wrong { line } => Ok(Some(line)),
        AuditFault::OutOfMemory => Err("out of memory")?,
    }
}

/// The first line that an audit finds wrong when it is opened.
fn wrong_line(rt: &HostRuntime, report: &str) -> Result<Option<u64>, Fail> {
    match opened(rt, report)? {
        Ok(_) => Ok(None),
        Err(fault) => named(fault),
    }
}

/// The first line that it finds wrong when it is closed with no record.
fn wrong_line_behind(rt: &HostRuntime, report: &str) -> Result<Option<u64>, Fail> {
    match opened(rt, report)? {
        Ok(audit) => match audit.close() {
            Ok(_) => Ok(None),
            Err(fault) => named(fault),
        },
        Err(_) => Err("a line is wrong at the opening")?,
    }
}

#[test]
fn first_wrong_line_of_an_opening(rt: HostRuntime) -> Result<(), Fail> {
    for (report, wanted) in &OPENINGS {
        assert_eq!(&rt; wrong_line(&rt, report)?, *wanted, "report {report:?}");
    }
    Ok(())
}

#[test]
fn first_wrong_line_of_a_closing(rt: HostRuntime) -> Result<(), Fail> {
    for (report, wanted) in &CLOSINGS {
        assert_eq!(&rt;
            wrong_line_behind(&rt, report)?,
            *wanted,
            "report {report:?}"
        );
    }
    Ok(())
}
