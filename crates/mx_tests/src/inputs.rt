//! Inputs of modules: where their bytes lie, who owns them, and which files are refused.

use crate::examples::{Sinks, run_first};
use mx_io::{Files, Loose, Store};
use std::alloc::Global;
use std::process::Abort;
use std::test::Fail;

/// A module that leaves with the first word of its input, and has the second one in x11.
const READER: &str = "version = 2
ram_kib = 64
[[module]]
name = \"m\"
at = 0x80000000
perm = \"rx\"
words = [0x800012B7, 0x0002A503, 0x0042A583, 0x00100893, 0x00000073]
input = \"in\"
input_at = 0x80001000
input_words = 3
";

const HART: &str = "[[hart]]\nmodule = \"m\"\n";

const REPORT: &str = "exit step=5 hart=0 domain=1 code=5\n\
end steps=5 state=halted\n\
hart 0 status=halted domain=1 pc=0x80000010 frames=0\n\
regs 0 00000000 00000000 00000000 00000000 00000000 80001000 00000000 00000000 00000000 00000000 00000005 6c6c6568 00000000 00000000 00000000 00000000 00000000 00000001 00000000 00000000 00000000 00000000 00000000 00000000 00000000 00000000 00000000 00000000 00000000 00000000 00000000 00000000\n\
domain 1 m\n\
map 1 0x80000000 0x80000014 rx\n\
map 1 0x80001000 0x8000100c ";

/// More of the module's table, and the lines of its right and of the owners.
static TABLES: [(&str, &str); 4] = [
    (
        "",
        "r\nowner 0x80000000 0x80000014 1\nowner 0x80001000 0x8000100c 1\n",
    ),
    (
        "input_perm = \"rw\"\n",
        "rw\nowner 0x80000000 0x80000014 1\nowner 0x80001000 0x8000100c 1\n",
    ),
    ("seal = true\n", "r\nowner 0x80001000 0x8000100c 1\n"),
    (
        "seal = true\ninput_perm = \"rw\"\n",
        "rw\nowner 0x80001000 0x8000100c 1\n",
    ),
];

fn files_of(alloc: Global, text: &str, bytes: &[u8]) -> Result<Files, Fail> {
    let mut files = Files::new(alloc);
    files.add("first.toml", text.as_bytes())?;
    files.add("in", bytes)?;
    Ok(files)
}

#[test]
fn an_input_is_its_modules(rt: HostRuntime) -> Result<(), Fail> {
    for (more, lines) in &TABLES {
        let text = format!(in rt.alloc(); "{READER}{more}{HART}")?;
        let want = format!(in rt.alloc(); "{REPORT}{lines}")?;
        let mut files = files_of(rt.alloc(), text.as_str(), b"hello")?;
        let mut sinks = Sinks::new(rt.alloc())?;
        let status = run_first(rt.alloc(), &["9"], &mut files, &mut sinks)?;
        assert_eq!(rt; status.number(), 0, "{more}");
        assert_eq!(rt; sinks.report.as_slice(), want.as_bytes(), "{more}");
    }
    Ok(())
}

fn refuses<S: Store>(
    rt: &impl Abort,
    alloc: Global,
    store: &mut S,
    number: u32,
    line: &str,
) -> Result<(), Fail> {
    let mut sinks = Sinks::new(alloc)?;
    let status = run_first(alloc, &["9"], store, &mut sinks)?;
    assert_eq!(rt; status.number(), number, "{line}");
    assert_eq!(rt; sinks.report.as_slice(), line.as_bytes());
    Ok(())
}

#[test]
fn an_input_over_its_area(rt: HostRuntime) -> Result<(), Fail> {
    let text = format!(in rt.alloc(); "{READER}{HART}")?;
    let mut files = files_of(rt.alloc(), text.as_str(), b"ABCDEFGHI")?;
    let line = "refused fault=9 at=module.1 key=input detail=0\n";
    refuses(&rt, rt.alloc(), &mut files, 3, line)
}

#[test]
fn inputs_over_ram(rt: HostRuntime) -> Result<(), Fail> {
    // each fits its area, and the second one has the first byte that RAM hasn't
    let wide = "input_at = 0x80000100\ninput_words = 16000\n";
    let first =
        "[[module]]\nname = \"a\"\nat = 0x80000000\nperm = \"rx\"\nwords = [0x6f]\ninput = \"a\"\n";
    let second =
        "[[module]]\nname = \"b\"\nat = 0x80000004\nperm = \"rx\"\nwords = [0x6f]\ninput = \"b\"\n";
    let text = format!(in rt.alloc();
        "version = 2\nram_kib = 64\n{first}{wide}{second}{wide}[[hart]]\nmodule = \"a\"\n"
    )?;
    let bytes = vec![in rt.alloc(); 0u8; 33000]?;
    for (most, number, line) in [
        (
            32536,
            3,
            "refused fault=13 at=module.2 key=input_at detail=1\n",
        ),
        (32537, 3, "refused fault=9 at=module.2 key=input detail=0\n"),
    ] {
        let mut files = Files::new(rt.alloc());
        files.add("first.toml", text.as_bytes())?;
        files.add("a", bytes.as_slice())?;
        files.add("b", bytes.as_slice().get(..most).unwrap_or(b""))?;
        refuses(&rt, rt.alloc(), &mut files, number, line)?;
    }
    Ok(())
}

#[test]
fn an_input_that_is_absent_or_short(rt: HostRuntime) -> Result<(), Fail> {
    let text = format!(in rt.alloc(); "{READER}{HART}")?;
    let mut files = Files::new(rt.alloc());
    files.add("first.toml", text.as_bytes())?;
    refuses(&rt, rt.alloc(), &mut files, 6, "no file in\n")?;
    let mut files = Loose::new(rt.alloc());
    files.add("first.toml", text.len() as u64, text.as_bytes())?;
    files.add("in", 7, b"hello")?;
    refuses(
        &rt,
        rt.alloc(),
        &mut files,
        5,
        "short file in told=7 got=5\n",
    )
}

#[test]
fn images_are_read_before_inputs(rt: HostRuntime) -> Result<(), Fail> {
    // the first module's input is absent, and so is the second one's image, which is asked for before
    let second = "[[module]]\nname = \"n\"\nimage = \"n.elf\"\n";
    let text = format!(in rt.alloc(); "{READER}{second}{HART}")?;
    let mut files = Files::new(rt.alloc());
    files.add("first.toml", text.as_bytes())?;
    refuses(&rt, rt.alloc(), &mut files, 6, "no file n.elf\n")
}
