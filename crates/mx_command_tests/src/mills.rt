//! Mills: the four lines for a number, words that name none, and the same run of the manifest that is printed.

use crate::failing::{in_turn, try_call};
use crate::outside::{Outside, Part, WHOLE};
use crate::rows::{Row, refusal};
use mx_mill::mill_manifest;
use mx_run::Status;
use std::test::Fail;

/// A row that ends with the lines of a mill.
fn mill(words: &'static str, lines: &'static str) -> Row {
    refusal(words, 0, &[], lines)
}

/// The counts here and below are those of a second simulator, which was made from the rules.
const ONE: &str = "mill k=1 steps=200000 state=steps\n\
console=0 faults=0 exits=0\n\
counts sidecar=145452 lookaside=27268 walks=9100\n\
tables kind=packed upper=30 leaf=22 spill=0\n";

const MORE: [(&str, &str); 2] = [
    (
        "mill 0000000002",
        "mill k=2 steps=200000 state=steps\n\
console=0 faults=0 exits=0\n\
counts sidecar=145452 lookaside=27268 walks=9100\n\
tables kind=packed upper=30 leaf=23 spill=0\n",
    ),
    (
        "mill 2147483647",
        "mill k=2147483647 steps=200000 state=steps\n\
console=0 faults=0 exits=0\n\
counts sidecar=145452 lookaside=27268 walks=9100\n\
tables kind=packed upper=30 leaf=23 spill=0\n",
    ),
];

#[test]
fn mills_of_other_numbers_tell_four_lines(rt: HostRuntime) -> Result<(), Fail> {
    // The report's second call isn't made.
    for (words, lines) in MORE {
        let row = mill(words, lines);
        try_call(&rt, rt.alloc(), &row, WHOLE, Part::Report, 2)?;
    }
    Ok(())
}

#[test]
fn words_that_name_no_mill(rt: HostRuntime) -> Result<(), Fail> {
    let cases = [
        "mill",
        "mill 2147483648",
        "mill 9999999999",
        "mill 00000000001",
        "mill -1",
        "mill 1x",
        "mill 1 2",
        "mill 1 --counts",
        "mill ",
    ];
    for words in cases {
        let row = refusal(words, 2, &[], "mondrix: these words have no meaning\n");
        try_call(&rt, rt.alloc(), &row, WHOLE, Part::Report, 2)?;
    }
    Ok(())
}

#[test]
fn mill_one_tells_four_lines_or_fails_with_its_report(rt: HostRuntime) -> Result<(), Fail> {
    in_turn(&rt, rt.alloc(), &mill("mill 1", ONE))
}

/// The report gets its bytes one by one: all of them, and those before the hundredth one, which fails.
#[test]
fn lines_of_a_mill_leave_in_single_bytes(rt: HostRuntime) -> Result<(), Fail> {
    let row = mill("mill 1", ONE);
    try_call(&rt, rt.alloc(), &row, 1, Part::Report, 1000)?;
    let outside = try_call(&rt, rt.alloc(), &row, 1, Part::Report, 100)?;
    assert_eq!(rt; outside.written(Part::Report), 99);
    Ok(())
}

/// The sum of the numbers that stand after a key in the lines of the counts.
fn sum_of(report: &str, key: &str) -> u64 {
    let mut sum = 0u64;
    for line in report.lines() {
        if line.starts_with("counts ") {
            for word in line.split(' ') {
                let number = word.strip_prefix(key).and_then(|n| n.parse::<u64>().ok());
                sum = sum.saturating_add(number.unwrap_or(0));
            }
        }
    }
    sum
}

#[test]
fn the_printed_manifest_runs_to_the_same_counts(rt: HostRuntime) -> Result<(), Fail> {
    for (k, used) in [(1, "leaf=22/4096"), (2, "leaf=23/4096")] {
        let text = mill_manifest(rt.alloc(), k)?;
        let mut outside = Outside::new(rt.alloc(), WHOLE)?;
        outside.store.inner.add("mill.toml", text.as_bytes())?;
        let words = "run mill.toml 200000 --counts --tables";
        let status = outside.ask(rt.alloc(), words)?;
        assert_eq!(rt; status, Status::Ran);
        assert!(rt; outside.console.inner.as_slice().is_empty());
        let report = std::str::from_utf8(outside.report.inner.as_slice())?;
        assert!(rt; report.starts_with("end steps=200000 state=steps\n"));
        assert_eq!(rt; sum_of(report, "sidecar="), 145452);
        assert_eq!(rt; sum_of(report, "lookaside="), 27268);
        assert_eq!(rt; sum_of(report, "walks="), 9100);
        assert!(rt; report.contains("tables kind=packed upper=30/128 "));
        assert!(rt; report.contains(used), "k={k}");
        assert!(rt; report.contains(" spill=0/4096\n"));
    }
    Ok(())
}
