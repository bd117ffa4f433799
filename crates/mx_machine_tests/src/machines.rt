//! Worked examples of turns, on machines made by hand.

use crate::played::{Played, code, fault, hart, is_dead, perm, play, regs, run_from, start};
use crate::small::{Module, Small};
use mx_check::Counts;
use mx_machine::{HartStart, HartStatus, HartView, StackArea};
use mx_model::{Gate, Note};
use mx_words::Perm;
use std::alloc::Global;
use std::process::Abort;
use std::test::Fail;

/// The first runs of words with one owner: where each begins, and its owner.
fn runs(machine: &Small) -> [(u32, u32); 6] {
    let mut all = [(0, 0); 6];
    let mut word = 0;
    for i in 0..6 {
        if let Some((owner, end)) = run_from(machine, word) {
            all[i] = (word, owner);
            word = end;
        }
    }
    all
}

/// The first bytes of RAM.
fn first_bytes(machine: &Small) -> [u8; 8] {
    let mut bytes = [0; 8];
    for i in 0..8 {
        if i / 4 < machine.words() {
            bytes[i as usize] = machine.byte(i);
        }
    }
    bytes
}

/// What the turns of a machine told, and how it stood after them.
#[derive(Drop)]
struct Ending {
    notes: Vec<Note>,
    console: Vec<u8>,
    harts: [Option<HartView>; 2],
    counts: Option<Counts>,
    is_halted: bool,
    /// The first bytes of RAM.
    bytes: [u8; 8],
    /// The first runs of words with one owner: where each begins, and its owner.
    owners: [(u32, u32); 6],
}

impl Ending {
    /// Whether this was told, and hart 0 stands like this.
    fn is(self, rt: &impl Abort, notes: &[Note], first: Option<HartView>) {
        assert_eq!(rt; self.notes.as_slice(), notes);
        assert_eq!(rt; self.harts[0], first);
    }

    /// Whether these bytes went to the console, and this was told.
    fn shows(self, rt: &impl Abort, console: &[u8], notes: &[Note]) {
        assert_eq!(rt; self.console.as_slice(), console);
        assert_eq!(rt; self.notes.as_slice(), notes);
    }

    /// The runs of words with one owner.
    fn owners(self) -> [(u32, u32); 6] {
        self.owners
    }

    /// Whether all harts are halted, where this was told.
    fn is_halted(self, rt: &impl Abort, notes: &[Note]) -> bool {
        assert_eq!(rt; self.notes.as_slice(), notes);
        self.is_halted
    }
}

/// Reads a machine, and lets it go.
fn end(played: Played) -> Ending {
    let machine = &played.machine;
    let harts = [hart(machine, 0), hart(machine, 1)];
    let counts = if 0 < machine.harts() {
        Some(machine.counts(0))
    } else {
        None
    };
    let is_halted = machine.all_halted();
    let bytes = first_bytes(machine);
    let owners = runs(machine);
    Ending {
        notes: played.notes,
        console: played.console,
        harts,
        counts,
        is_halted,
        bytes,
        owners,
    }
}

/// How such a machine ends after so many turns.
fn play_to_end(
    alloc: Global,
    modules: &[Module],
    gates: &[Gate],
    starts: &[HartStart],
    turns: u32,
) -> Result<Ending, Fail> {
    Ok(end(play(alloc, modules, gates, starts, turns)?))
}

/// How one hart ends in one module, from its first word on, after so many turns.
fn alone(alloc: Global, words: &[u32], turns: u32) -> Result<Ending, Fail> {
    play_to_end(
        alloc,
        &[code(0, words)],
        &[],
        &[start(1, 0x8000_0000)],
        turns,
    )
}

/// A halted hart in domain 1 without frames.
fn halted(pc: u32, values: &[(usize, u32)]) -> Option<HartView> {
    Some(HartView {
        status: HartStatus::Halted,
        domain: 1,
        pc,
        frames: 0,
        regs: regs(values),
    })
}

#[test]
fn a_store_into_code_faults_and_changes_no_byte(rt: HostRuntime) -> Result<(), Fail> {
    let words = [0x0000_0097, 0x0000_A023];
    let end = alone(rt.alloc(), &words, 5)?;
    let bytes = end.bytes;
    end.is(
        &rt,
        &[fault(2, 0, 1, 0x8000_0004, 7, 0x8000_0000)],
        halted(0x8000_0004, &[(1, 0x8000_0000)]),
    );
    assert_eq!(rt; bytes, [0x97, 0, 0, 0, 0x23, 0xA0, 0, 0]);
    Ok(())
}

#[test]
fn divisions_at_their_corners_fault_nowhere(rt: HostRuntime) -> Result<(), Fail> {
    let words = [
        0x8000_02B7,
        0xFFF0_0313,
        0x0262_C3B3,
        0x0202_CE33,
        0x0202_EEB3,
    ];
    let end = alone(rt.alloc(), &words, 5)?;
    let values = [
        (5, 0x8000_0000),
        (6, 0xFFFF_FFFF),
        (7, 0x8000_0000),
        (28, 0xFFFF_FFFF),
        (29, 0x8000_0000),
    ];
    let want = HartView {
        status: HartStatus::Running,
        domain: 1,
        pc: 0x8000_0014,
        frames: 0,
        regs: regs(&values),
    };
    end.is(&rt, &[], Some(want));
    Ok(())
}

#[test]
fn a_branch_faults_at_a_target_that_is_no_multiple_of_4(rt: HostRuntime) -> Result<(), Fail> {
    let words = [0x0002_9363, 0x0012_8293, 0xFF9F_F06F];
    let end = alone(rt.alloc(), &words, 10)?;
    end.is(
        &rt,
        &[fault(4, 0, 1, 0x8000_0000, 0, 0x8000_0006)],
        halted(0x8000_0000, &[(5, 1)]),
    );
    Ok(())
}

#[test]
fn a_misaligned_load_faults_before_protection(rt: HostRuntime) -> Result<(), Fail> {
    let words = [0x0010_1303];
    let end = alone(rt.alloc(), &words, 5)?;
    end.is(
        &rt,
        &[fault(1, 0, 1, 0x8000_0000, 4, 1)],
        halted(0x8000_0000, &[]),
    );
    Ok(())
}

#[test]
fn gates_in_a_circle_end_at_the_last_frame(rt: HostRuntime) -> Result<(), Fail> {
    let a = [0x8000_12B7, 0x0002_80E7, 0x0010_0073];
    let b = [0x8000_02B7, 0x0002_80E7, 0x0010_0073];
    let gates = [
        Gate {
            domain: 2,
            word: 0,
            target: 1,
        },
        Gate {
            domain: 1,
            word: 1024,
            target: 2,
        },
    ];
    let end = play_to_end(
        rt.alloc(),
        &[code(0, &a), code(1024, &b)],
        &gates,
        &[start(1, 0x8000_0000)],
        195,
    )?;
    let values = [(1, 0x8000_0008), (5, 0x8000_1000), (10, 0xFFFF_FF10)];
    let want = HartView {
        status: HartStatus::Running,
        domain: 2,
        pc: 0x8000_1008,
        frames: 63,
        regs: regs(&values),
    };
    end.is(
        &rt,
        &[fault(195, 0, 1, 0x8000_1000, 16, 0x8000_1000)],
        Some(want),
    );
    Ok(())
}

/// Module `a` calls module `b`, which loads x2 and x8 and returns by this word.
fn called_and_left_by(alloc: Global, word: u32) -> Result<Ending, Fail> {
    let a = [0x8000_12B7, 0x0002_80E7, 0x0010_0073, 0x0010_0073];
    let b = [0x0070_0113, 0x0090_0413, word];
    let gates = [
        Gate {
            domain: 1,
            word: 1024,
            target: 2,
        },
        Gate {
            domain: 2,
            word: 1026,
            target: 2,
        },
    ];
    play_to_end(
        alloc,
        &[code(0, &a), code(1024, &b)],
        &gates,
        &[start(1, 0x8000_0000)],
        10,
    )
}

#[test]
fn a_return_to_another_address_faults(rt: HostRuntime) -> Result<(), Fail> {
    let elsewhere = called_and_left_by(rt.alloc(), 0x0040_8067)?;
    let notes = [
        fault(6, 0, 2, 0x8000_1008, 17, 0x8000_000C),
        fault(7, 0, 1, 0x8000_0008, 3, 0x8000_0008),
    ];
    let values = [(1, 0x8000_0008), (5, 0x8000_1000), (10, 0xFFFF_FF11)];
    elsewhere.is(&rt, &notes, halted(0x8000_0008, &values));
    Ok(())
}

#[test]
fn a_return_to_the_address_after_the_call_goes_on(rt: HostRuntime) -> Result<(), Fail> {
    let back = called_and_left_by(rt.alloc(), 0x0000_8067)?;
    let notes = [fault(7, 0, 1, 0x8000_0008, 3, 0x8000_0008)];
    let values = [(1, 0x8000_0008), (5, 0x8000_1000)];
    back.is(&rt, &notes, halted(0x8000_0008, &values));
    Ok(())
}

/// Hart 0 grants the first word of its stack area, and while that grant waits hart 1 transfers the word.
fn granted_and_transferred(alloc: Global) -> Result<Ending, Fail> {
    let a = [
        0x8000_1537,
        0x0040_0593,
        0x0020_0613,
        0x0010_0693,
        0x0030_0893,
        0x0000_0073,
        0x0010_0073,
        0x8000_1537,
        0x0040_0593,
        0x0020_0613,
        0x0050_0893,
        0x0000_0013,
        0x0000_0073,
        0x0010_0073,
    ];
    let stack = StackArea {
        first: 1024,
        words: 4,
        kills: false,
    };
    let modules = [
        Module {
            stack,
            ..code(0, &a)
        },
        Module {
            perm: Perm::Read,
            ..code(2048, &[0])
        },
    ];
    let starts = [start(1, 0x8000_0000), start(1, 0x8000_001C)];
    play_to_end(alloc, &modules, &[], &starts, 20)
}

#[test]
fn a_waiting_grant_of_a_word_that_is_transferred_is_refused(rt: HostRuntime) -> Result<(), Fail> {
    let end = granted_and_transferred(rt.alloc())?;
    let second = end.harts[1];
    let notes = [
        fault(14, 1, 1, 0x8000_0034, 3, 0x8000_0034),
        fault(15, 0, 1, 0x8000_0018, 3, 0x8000_0018),
    ];
    let granted = [
        (2, 0x8000_1010),
        (10, 0xFFFF_FFFE),
        (11, 4),
        (12, 2),
        (13, 1),
        (17, 3),
    ];
    end.is(&rt, &notes, halted(0x8000_0018, &granted));
    let transferred = [(2, 0x8000_1020), (11, 4), (12, 2), (17, 5)];
    assert_eq!(rt; second, halted(0x8000_0034, &transferred));
    Ok(())
}

#[test]
fn a_transferred_word_changes_its_owner(rt: HostRuntime) -> Result<(), Fail> {
    let end = granted_and_transferred(rt.alloc())?;
    assert_eq!(rt;
        end.owners(),
        [(0, 1), (14, 0), (1024, 2), (1025, 1), (1032, 0), (2048, 2)]
    );
    Ok(())
}

#[test]
fn a_call_into_a_dead_module_is_sent_back(rt: HostRuntime) -> Result<(), Fail> {
    let a = [0x8000_12B7, 0x0002_80E7, 0x0002_80E7, 0x0010_0073];
    let kills = StackArea {
        first: 0,
        words: 0,
        kills: true,
    };
    let modules = [
        code(0, &a),
        Module {
            stack: kills,
            ..code(1024, &[0x0010_0073])
        },
    ];
    let gate = Gate {
        domain: 1,
        word: 1024,
        target: 2,
    };
    let played = play(rt.alloc(), &modules, &[gate], &[start(1, 0x8000_0000)], 20)?;
    let dead = is_dead(&played.machine, 2);
    let kept = perm(&played.machine, 2, 1024);
    let end = end(played);
    let notes = [
        fault(4, 0, 2, 0x8000_1000, 3, 0x8000_1000),
        fault(7, 0, 1, 0x8000_000C, 3, 0x8000_000C),
    ];
    let values = [(1, 0x8000_000C), (5, 0x8000_1000), (10, 0xFFFF_FF14)];
    end.is(&rt, &notes, halted(0x8000_000C, &values));
    assert_eq!(rt; (dead, kept), (Some(true), Some(Perm::ExecuteRead)));
    Ok(())
}

#[test]
fn a_second_hart_in_a_dead_domain_faults(rt: HostRuntime) -> Result<(), Fail> {
    let kills = StackArea {
        first: 0,
        words: 0,
        kills: true,
    };
    let module = Module {
        stack: kills,
        ..code(0, &[0x0010_0073])
    };
    let starts = [start(1, 0x8000_0000), start(1, 0x8000_0000)];
    let end = play_to_end(rt.alloc(), &[module], &[], &starts, 10)?;
    let notes = [
        fault(1, 0, 1, 0x8000_0000, 3, 0x8000_0000),
        fault(2, 1, 1, 0x8000_0000, 20, 0x8000_0000),
    ];
    assert_eq!(rt; end.is_halted(&rt, &notes), true);
    Ok(())
}

#[test]
fn hi_stands_on_the_console(rt: HostRuntime) -> Result<(), Fail> {
    let words = [
        0x8000_0537,
        0x01C5_0513,
        0x0030_0593,
        0x0020_0893,
        0x0000_0073,
        0x0010_0893,
        0x0000_0073,
        0x000A_6968,
    ];
    let end = alone(rt.alloc(), &words, 9)?;
    let got = end.counts;
    let exit = Note::Exit {
        step: 7,
        hart: 0,
        domain: 1,
        code: 3,
    };
    end.shows(&rt, b"hi\n", &[exit]);
    let counts = Counts {
        sidecar: 6,
        lookaside: 1,
        walks: 1,
    };
    assert_eq!(rt; got, Some(counts));
    Ok(())
}
