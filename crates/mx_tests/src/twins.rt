//! Two machines side by side, by the command `twin`. Expected lines are written by hand from the rules.

use crate::calls::answer;
use crate::one_module::THREE_WORDS;
use crate::packet_runs::{DRIVER_HART, IDLE_HARTS, MODULES, MULTILEVEL, PACKED, add_image};
use crate::packets::{CONSOLE, DRIVER, PROTO};
use mx_io::{Bytes, Files};
use std::alloc::Global;
use std::test::Fail;

/// A module that calls another, and that other, which answers 5.
const FIVE: &str = "[[module]]\n\
name = \"a\"\n\
at = 0x80000000\n\
perm = \"rx\"\n\
words = [0x800012B7, 0x000280E7, 0x00100073]\n\
[[module]]\n\
name = \"b\"\n\
at = 0x80001000\n\
perm = \"rx\"\n\
words = [0x00500513, 0x00008067]\n\
gates = [{ entry = 0x80001000, from = [\"a\"] }]\n\
returns = [0x80001004]\n\
[[hart]]\n\
module = \"a\"\n";

/// The same, answering 6.
const SIX: &str = "[[module]]\n\
name = \"a\"\n\
at = 0x80000000\n\
perm = \"rx\"\n\
words = [0x800012B7, 0x000280E7, 0x00100073]\n\
[[module]]\n\
name = \"b\"\n\
at = 0x80001000\n\
perm = \"rx\"\n\
words = [0x00600513, 0x00008067]\n\
gates = [{ entry = 0x80001000, from = [\"a\"] }]\n\
returns = [0x80001004]\n\
[[hart]]\n\
module = \"a\"\n";

/// The three words with 6 for 5.
const THREE_OTHERS: &str = "version = 1\n\
ram_kib = 64\n\
[[module]]\n\
name = \"m\"\n\
at = 0x80000000\n\
perm = \"rx\"\n\
words = [0x00100893, 0x00600513, 0x00000073]\n\
[[hart]]\n\
module = \"m\"\n";

/// A module and a hart more, and the first lines of manifests.
const THIRD_MODULE: &str = "[[module]]\n\
name = \"c\"\n\
at = 0x80002000\n\
perm = \"r\"\n\
words = [0]\n";

const SECOND_HART: &str = "[[hart]]\n\
module = \"a\"\n";

const SMALL: &str = "version = 1\nram_kib = 64\n";

const LARGER: &str = "version = 1\nram_kib = 128\n";

const SLOWER: &str = "version = 1\nram_kib = 64\nquantum = 2\n";

/// A manifest beside others that answer 5, the one that answers 6, and two that leave after three words.
fn manifests(alloc: Global) -> Result<Files, Fail> {
    let mut files = Files::new(alloc);
    let five = format!(in alloc; "{SMALL}{FIVE}")?;
    let six = format!(in alloc; "{SMALL}{SIX}")?;
    let larger = format!(in alloc; "{LARGER}{FIVE}")?;
    let slower = format!(in alloc; "{SLOWER}{FIVE}")?;
    let modules = format!(in alloc; "{SMALL}{THIRD_MODULE}{FIVE}")?;
    let harts = format!(in alloc; "{SMALL}{FIVE}{SECOND_HART}")?;
    let all = format!(in alloc; "{SLOWER}{THIRD_MODULE}{FIVE}{SECOND_HART}")?;
    let both = format!(in alloc; "{SMALL}{THIRD_MODULE}{FIVE}{SECOND_HART}")?;
    files.add("five", five.as_bytes())?;
    files.add("six", six.as_bytes())?;
    files.add("larger", larger.as_bytes())?;
    files.add("slower", slower.as_bytes())?;
    files.add("modules", modules.as_bytes())?;
    files.add("harts", harts.as_bytes())?;
    files.add("all", all.as_bytes())?;
    files.add("both", both.as_bytes())?;
    files.add("three", THREE_WORDS.manifest.as_bytes())?;
    files.add("others", THREE_OTHERS.as_bytes())?;
    Ok(files)
}

/// The words after `twin`, the number of the status, and the report.
type Case = ([&'static str; 4], u32, &'static str);

/// A refusal has its line; of two the first. A number with zeros in front is told without them.
const CASES: [Case; 18] = [
    (
        ["five", "six", "1", "10"],
        0,
        "twin ended step=5 hart=0 kind=returned\n",
    ),
    (["five", "six", "1", "4"], 0, "twin agreed steps=4\n"),
    (["five", "five", "1", "10"], 0, "twin agreed steps=10\n"),
    (["five", "six", "3", "4"], 13, "twin no domain\n"),
    (
        ["five", "larger", "1", "4"],
        12,
        "twin unlike key=ram_kib\n",
    ),
    (["five", "six", "0", "4"], 13, "twin no domain\n"),
    (["five", "six", "9999999999", "4"], 13, "twin no domain\n"),
    (
        ["five", "slower", "1", "4"],
        12,
        "twin unlike key=quantum\n",
    ),
    (
        ["five", "modules", "1", "4"],
        12,
        "twin unlike key=module\n",
    ),
    (["five", "harts", "1", "4"], 12, "twin unlike key=hart\n"),
    (["larger", "all", "1", "4"], 12, "twin unlike key=ram_kib\n"),
    (["five", "all", "1", "4"], 12, "twin unlike key=quantum\n"),
    (["five", "both", "3", "4"], 12, "twin unlike key=module\n"),
    (
        ["five", "six", "2", "10"],
        0,
        "twin ended step=3 hart=0 kind=crossed\n",
    ),
    (
        ["three", "others", "1", "10"],
        0,
        "twin ended step=0 hart=0 kind=idle\n",
    ),
    (["three", "three", "1", "10"], 0, "twin agreed steps=10\n"),
    (
        ["three", "three", "1", "9999999999"],
        0,
        "twin agreed steps=9999999999\n",
    ),
    (["five", "six", "01", "004"], 0, "twin agreed steps=4\n"),
];

#[test]
fn two_machines_are_compared_or_refused(rt: HostRuntime) -> Result<(), Fail> {
    let mut files = manifests(rt.alloc())?;
    for (asked, number, line) in CASES {
        let [first, second, domain, steps] = asked;
        let words = ["twin", first, second, domain, steps];
        let mut report = Bytes::new(rt.alloc(), 100)?;
        let status = answer(rt.alloc(), &words, &mut files, &mut report)?;
        assert_eq!(rt;
            status.number(),
            number,
            "{first} {second} {domain} {steps}"
        );
        assert_eq!(rt;
            report.as_slice(),
            line.as_bytes(),
            "{first} {second} {domain} {steps}"
        );
    }
    Ok(())
}

/// A fourth module up to its last word, which the three others may not read: `lui t0, 2`, `addi t0, t0, -1`, `bne t0,
/// zero, -4`,
/// `lui a0, 0x80030`, `addi a0, a0, 44`, `addi a1, zero, 4`, `addi a2, zero, 1`, `addi a3, zero, 1`, `addi a7, zero,
/// 3`, `ecall`,
/// `jal zero, 0`. After 8192 rounds it grants the driver a read of that word.
const KEEPER: &str = "[[module]]\n\
name = \"keeper\"\n\
at = 0x80030000\n\
perm = \"rx\"\n\
words = [0x000022B7, 0xFFF28293, 0xFE029EE3, 0x80030537, 0x02C50513, 0x00400593, 0x00100613, 0x00100693, 0x00300893, 0x00000073, 0x0000006F, ";

/// The last three harts in loops of the driver, of the protocol module, and of the keeper.
const KEEPING_HARTS: &str = "[[hart]]\n\
module = \"driver\"\n\
entry = \"idle\"\n\
[[hart]]\n\
module = \"proto\"\n\
entry = \"idle\"\n\
[[hart]]\n\
module = \"keeper\"\n";

/// The files of two machines of the three modules and the keeper, whose last words are 1 and 2, with these harts. The
/// second
/// one's tables are of another kind.
fn kept(alloc: Global, harts: &str) -> Result<Files, Fail> {
    let first = format!(in alloc; "{PACKED}{MODULES}{KEEPER}1]\n{DRIVER_HART}{harts}")?;
    let second = format!(in alloc; "{MULTILEVEL}{MODULES}{KEEPER}2]\n{DRIVER_HART}{harts}")?;
    let mut files = Files::new(alloc);
    files.add("first", first.as_bytes())?;
    files.add("second", second.as_bytes())?;
    add_image(alloc, &mut files, "driver.elf", DRIVER)?;
    add_image(alloc, &mut files, "proto.elf", PROTO)?;
    add_image(alloc, &mut files, "console.elf", CONSOLE)?;
    Ok(files)
}

/// Compares 100000 steps of two such machines for a domain with what the report should be.
fn is_kept(alloc: Global, harts: &str, domain: &str, line: &str) -> Result<bool, Fail> {
    let mut files = kept(alloc, harts)?;
    let words = ["twin", "first", "second", domain, "100000"];
    let mut report = Bytes::new(alloc, 100)?;
    let status = answer(alloc, &words, &mut files, &mut report)?;
    Ok(status.number() == 0 && report.as_slice() == line.as_bytes())
}

/// No hart is in the keeper.
#[test]
fn a_word_that_nobody_may_read_changes_no_packet(rt: HostRuntime) -> Result<(), Fail> {
    let agreed = is_kept(rt.alloc(), IDLE_HARTS, "1", "twin agreed steps=100000\n")?;
    assert!(rt; agreed);
    Ok(())
}

/// The keeper's hart makes its turn n at step 4 n. It has made 1 + 2 * 8192 turns in the loop and 6 more when its ECALL
/// comes, turn
/// 16392, at step 65568; the three others hear it, and at its next turn the driver may read the word. The keeper always
/// may.
#[test]
fn a_word_made_readable_ends_agreement_at_the_turn_that_grants_it(
    rt: HostRuntime,
) -> Result<(), Fail> {
    let ended = "twin ended step=65572 hart=3 kind=called\n";
    let start = "twin ended step=0 hart=0 kind=idle\n";
    for (domain, line) in [("1", ended), ("4", start)] {
        let told = is_kept(rt.alloc(), KEEPING_HARTS, domain, line)?;
        assert!(rt; told, "{domain}");
    }
    Ok(())
}
