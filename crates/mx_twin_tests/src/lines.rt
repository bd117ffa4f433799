//! The line of a twin run. Expected lines are written by hand from the rule.

use mx_io::Bytes;
use mx_model::TurnKind;
use mx_twin::{TwinEnd, twin_line};
use std::test::Fail;

/// The steps that were asked, a step, a hart and a kind at which agreement ended, and the line.
static ENDED: [(u64, u64, u32, TurnKind, &str); 8] = [
    (
        10,
        5,
        0,
        TurnKind::Returned,
        "twin ended step=5 hart=0 kind=returned\n",
    ),
    (
        10,
        0,
        0,
        TurnKind::Idle,
        "twin ended step=0 hart=0 kind=idle\n",
    ),
    (
        1,
        1,
        1,
        TurnKind::Waited,
        "twin ended step=1 hart=1 kind=waited\n",
    ),
    (
        99,
        12,
        2,
        TurnKind::Ran,
        "twin ended step=12 hart=2 kind=ran\n",
    ),
    (
        9999999999,
        9999999999,
        3,
        TurnKind::Crossed,
        "twin ended step=9999999999 hart=3 kind=crossed\n",
    ),
    (
        100,
        100,
        3,
        TurnKind::Trapped,
        "twin ended step=100 hart=3 kind=trapped\n",
    ),
    (
        100000,
        65572,
        0,
        TurnKind::Called,
        "twin ended step=65572 hart=0 kind=called\n",
    ),
    (
        18446744073709551615,
        18446744073709551615,
        4294967295,
        TurnKind::Called,
        "twin ended step=18446744073709551615 hart=4294967295 kind=called\n",
    ),
];

static AGREED: [(u64, &str); 4] = [
    (0, "twin agreed steps=0\n"),
    (4, "twin agreed steps=4\n"),
    (9999999999, "twin agreed steps=9999999999\n"),
    (
        18446744073709551615,
        "twin agreed steps=18446744073709551615\n",
    ),
];

#[test]
fn a_line_tells_where_agreement_ended(rt: HostRuntime) -> Result<(), Fail> {
    for (steps, step, hart, kind, line) in &ENDED {
        let mut sink = Bytes::new(rt.alloc(), 100)?;
        let end = TwinEnd::Ended {
            step: *step,
            hart: *hart,
            kind: *kind,
        };
        let put = twin_line(&mut sink, *steps, end);
        assert!(rt; put.is_ok(), "{line}");
        assert_eq!(rt; sink.as_slice(), line.as_bytes());
    }
    Ok(())
}

#[test]
fn a_line_tells_the_steps_that_were_asked(rt: HostRuntime) -> Result<(), Fail> {
    for (steps, line) in &AGREED {
        let mut sink = Bytes::new(rt.alloc(), 100)?;
        assert!(rt;
            twin_line(&mut sink, *steps, TwinEnd::Agreed).is_ok(),
            "{line}"
        );
        assert_eq!(rt; sink.as_slice(), line.as_bytes());
    }
    Ok(())
}

/// The line leaves in one write.
#[test]
fn a_sink_that_fails_holds_the_front_of_a_line(rt: HostRuntime) -> Result<(), Fail> {
    for (room, failing, held) in [
        (100, 1, ""),
        (0, 0, ""),
        (11, 0, "twin agreed"),
        (19, 0, "twin agreed steps=4"),
    ] {
        let mut sink = Bytes::new(rt.alloc(), room)?;
        sink.fail_at(failing);
        assert!(rt; twin_line(&mut sink, 4, TwinEnd::Agreed).is_err());
        assert_eq!(rt; sink.as_slice(), held.as_bytes());
    }
    Ok(())
}
