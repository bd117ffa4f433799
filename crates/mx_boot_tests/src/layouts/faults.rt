//! Each of the faults 10 to 17 at each place where it can stand, and which of two comes first.

use super::{File, judge, manifest, refused};
use mx_manifest::{Key, Part};
use std::test::Fail;

/// A module with an image, or with two inline words after the image's, and a hart in it.
const A: &str = "[[module]]\nname = \"a\"\nimage = \"a.elf\"\n";

const B: &str = "[[module]]\nname = \"b\"\nat = 0x80008000\nperm = \"rx\"\nwords = [19, 19]\n";

const IN_A: &str = "[[hart]]\nmodule = \"a\"\n";

const IN_B: &str = "[[hart]]\nmodule = \"b\"\n";

/// A file of A, and the fault's number and detail. Each stands at the module's image.
static IMAGES: [(File, u32, u32); 17] = [
    (File::Zeros(51), 10, 1),
    (File::Zeros(52), 10, 2),
    (File::Changed(4, 2), 10, 3),
    (File::Changed(16, 3), 10, 4),
    (File::Changed(18, 0), 10, 5),
    (File::Changed(44, 28), 10, 6),
    (File::Changed(69, 4), 10, 8),
    (File::Changed(68, 17), 10, 9),
    (File::Changed(60, 2), 10, 10),
    (File::Changed(76, 7), 11, 0),
    (File::Changed(108, 7), 11, 1),
    (File::Changed(140, 7), 11, 2),
    (File::Changed(140, 3), 11, 2),
    // Areas that aren't wholly in RAM: before it, after it, and over its end.
    (File::Changed(63, 0x7F), 12, 0),
    (File::Changed(126, 1), 12, 0),
    (File::Changed(138, 1), 12, 0),
    // Areas that share a word with an earlier one: the last word of .bss, which has seven words with .data.
    (File::Changed(93, 0), 13, 1),
];

/// What is added to A and to B, and the fault's number, module, key and detail.
static ADDED: [(&str, &str, u32, u32, Key, u32); 34] = [
    // Areas that aren't wholly in RAM: before it, after it, and over its end.
    (
        "heap = 0x7FFFFFFC\nheap_words = 1\n",
        "",
        12,
        1,
        Key::Heap,
        0,
    ),
    (
        "heap = 0x8000F000\nheap_words = 1025\n",
        "",
        12,
        1,
        Key::Heap,
        0,
    ),
    (
        "",
        "heap = 0x80010000\nheap_words = 1\n",
        12,
        2,
        Key::Heap,
        0,
    ),
    (
        "stack = 0x8000FFFC\nstack_words = 2\n",
        "",
        12,
        1,
        Key::Stack,
        0,
    ),
    (
        "",
        "stack = 0xFFFFFFFC\nstack_words = 1048576\n",
        12,
        2,
        Key::Stack,
        0,
    ),
    // Areas that share a word with an earlier one: the last word of .bss, which has seven words with .data.
    (
        "heap = 0x80001018\nheap_words = 1\n",
        "",
        13,
        1,
        Key::Heap,
        1,
    ),
    (
        "",
        "heap = 0x80001018\nheap_words = 1\n",
        13,
        2,
        Key::Heap,
        1,
    ),
    (
        "",
        "heap = 0x80008004\nheap_words = 1\n",
        13,
        2,
        Key::Heap,
        2,
    ),
    (
        "heap = 0x80004000\nheap_words = 8\nstack = 0x80003FFC\nstack_words = 2\n",
        "",
        13,
        1,
        Key::Stack,
        1,
    ),
    (
        "stack = 0x80007FFC\nstack_words = 1\n",
        "stack = 0x80007FFC\nstack_words = 1\n",
        13,
        2,
        Key::Stack,
        1,
    ),
    // Of several earlier areas the first counts.
    (
        "",
        "heap = 0x80002004\nheap_words = 7000\n",
        13,
        2,
        Key::Heap,
        1,
    ),
    // Entries: no such symbol.
    (
        "gates = [{ entry = \"ent\", from = [\"b\"] }]\n",
        "",
        14,
        1,
        Key::Gates,
        0,
    ),
    ("returns = [\"leaver\"]\n", "", 14, 1, Key::Returns, 0),
    (
        "",
        "gates = [{ entry = \"enter\", from = [\"a\"] }]\n",
        14,
        2,
        Key::Gates,
        0,
    ),
    ("", "returns = [\"leave\"]\n", 14, 2, Key::Returns, 0),
    // Not aligned, or not in an area of the module.
    (
        "gates = [{ entry = \"counter\", from = [\"b\"] }]\n",
        "",
        15,
        1,
        Key::Gates,
        0,
    ),
    (
        "gates = [{ entry = 0x8000000A, from = [\"b\"] }]\n",
        "",
        15,
        1,
        Key::Gates,
        0,
    ),
    (
        "gates = [{ entry = 0x80000010, from = [\"b\"] }]\n",
        "",
        15,
        1,
        Key::Gates,
        0,
    ),
    (
        "gates = [{ entry = 0x80008000, from = [\"b\"] }]\n",
        "",
        15,
        1,
        Key::Gates,
        0,
    ),
    ("returns = [0x80007FFC]\n", "", 15, 1, Key::Returns, 0),
    ("", "returns = [0x80000000]\n", 15, 2, Key::Returns, 0),
    ("", "returns = [0]\n", 15, 2, Key::Returns, 0),
    // The domain and word of an earlier gate.
    (
        "gates = [{ entry = \"enter\", from = [\"b\", \"b\"] }]\n",
        "",
        16,
        1,
        Key::Gates,
        0,
    ),
    (
        "gates = [{ entry = \"enter\", from = [\"b\"] }, { entry = 0x80000008, from = [\"b\"] }]\n",
        "",
        16,
        1,
        Key::Gates,
        0,
    ),
    (
        "returns = [\"leave\", 0x8000000C]\n",
        "",
        16,
        1,
        Key::Returns,
        0,
    ),
    (
        "",
        "returns = [0x80008004, 0x80008004]\n",
        16,
        2,
        Key::Returns,
        0,
    ),
    // Step 6 comes before step 7; and in a step the order of modules, areas and gates decides.
    (
        "heap = 0x80000000\nheap_words = 1\n",
        "heap = 0\nheap_words = 1\n",
        13,
        1,
        Key::Heap,
        1,
    ),
    (
        "heap = 0\nheap_words = 1\n",
        "heap = 0x80000000\nheap_words = 1\n",
        12,
        1,
        Key::Heap,
        0,
    ),
    (
        "returns = [\"no\"]\n",
        "stack = 0x80000000\nstack_words = 1\n",
        13,
        2,
        Key::Stack,
        1,
    ),
    (
        "returns = [\"no\"]\ngates = [{ entry = 0x80000002, from = [\"b\"] }]\n",
        "",
        15,
        1,
        Key::Gates,
        0,
    ),
    (
        "returns = [0x80000002, \"no\"]\n",
        "",
        15,
        1,
        Key::Returns,
        0,
    ),
    (
        "returns = [\"no\", 0x80000002]\n",
        "",
        14,
        1,
        Key::Returns,
        0,
    ),
    (
        "returns = [\"leave\", \"leave\", \"no\"]\n",
        "",
        16,
        1,
        Key::Returns,
        0,
    ),
    (
        "returns = [\"leave\"]\n",
        "returns = [0x80000002]\n",
        15,
        2,
        Key::Returns,
        0,
    ),
];

/// Two images, and the fault of the first that has one.
const FILES: [(File, File, u32, u32, u32); 3] = [
    (File::Changed(108, 7), File::Zeros(51), 11, 1, 1),
    (File::Image, File::Zeros(52), 10, 2, 2),
    (File::Zeros(51), File::Changed(108, 7), 10, 1, 1),
];

/// What is added to A, its file, the harts, and the number of the fault and of its hart.
static HARTS: [(&str, File, &str, u32, u32); 9] = [
    ("", File::Image, "entry = \"no\"\n", 14, 1),
    ("", File::Image, "entry = \"counter\"\n", 15, 1),
    ("", File::Image, "entry = 0x80000006\n", 15, 1),
    ("", File::Image, "entry = 0x80008000\n", 15, 1),
    ("", File::Changed(24, 2), "", 15, 1),
    ("", File::Changed(25, 0x90), "", 15, 1),
    (
        "",
        File::Image,
        "[[hart]]\nmodule = \"b\"\nentry = \"start\"\n",
        14,
        2,
    ),
    (
        "",
        File::Image,
        "[[hart]]\nmodule = \"b\"\nentry = 0x80008008\n",
        15,
        2,
    ),
    (
        "",
        File::Changed(24, 2),
        "entry = \"start\"\n[[hart]]\nmodule = \"a\"\n",
        15,
        2,
    ),
];

#[test]
fn faults_of_images_tell_what_is_wrong_with_them(rt: HostRuntime) -> Result<(), Fail> {
    let modules = format!(in rt.alloc(); "{A}{B}")?;
    let text = manifest(rt.alloc(), modules.as_str(), IN_B)?;
    for (file, number, detail) in &IMAGES {
        let answer = judge(rt.alloc(), text.as_str(), &[*file, File::None]).err();
        assert_eq!(rt;
            answer,
            refused(*number, Part::Module, 1, Key::Image, *detail)
        );
    }
    for (first, second, number, index, detail) in FILES {
        let modules = format!(in rt.alloc(); "{A}[[module]]\nname = \"b\"\nimage = \"b.elf\"\n")?;
        let text = manifest(rt.alloc(), modules.as_str(), IN_A)?;
        let answer = judge(rt.alloc(), text.as_str(), &[first, second]).err();
        assert_eq!(rt;
            answer,
            refused(number, Part::Module, index, Key::Image, detail)
        );
    }
    Ok(())
}

#[test]
fn faults_of_modules_stand_at_their_keys(rt: HostRuntime) -> Result<(), Fail> {
    for (a, b, number, index, key, detail) in &ADDED {
        let modules = format!(in rt.alloc(); "{A}{a}{B}{b}")?;
        let text = manifest(rt.alloc(), modules.as_str(), IN_B)?;
        let answer = judge(rt.alloc(), text.as_str(), &[File::Image, File::None]).err();
        assert_eq!(rt;
            answer,
            refused(*number, Part::Module, *index, *key, *detail)
        );
    }
    let modules = format!(in rt.alloc(); "{A}heap = 0x80000000\nheap_words = 1\n{B}")?;
    let text = manifest(rt.alloc(), modules.as_str(), IN_B)?;
    let files = [File::Changed(140, 7), File::None];
    let answer = judge(rt.alloc(), text.as_str(), &files).err();
    assert_eq!(rt; answer, refused(11, Part::Module, 1, Key::Image, 2));
    Ok(())
}

#[test]
fn faults_of_harts_come_last(rt: HostRuntime) -> Result<(), Fail> {
    for (a, file, hart, number, index) in &HARTS {
        let modules = format!(in rt.alloc(); "{A}{a}{B}")?;
        let harts = format!(in rt.alloc(); "{IN_A}{hart}")?;
        let text = manifest(rt.alloc(), modules.as_str(), harts.as_str())?;
        let answer = judge(rt.alloc(), text.as_str(), &[*file, File::None]).err();
        assert_eq!(rt; answer, refused(*number, Part::Hart, *index, Key::Entry, 0));
    }
    let modules = format!(in rt.alloc(); "{A}{B}returns = [0x80008000, 0x80008000]\n")?;
    let harts = format!(in rt.alloc(); "{IN_A}entry = \"no\"\n")?;
    let text = manifest(rt.alloc(), modules.as_str(), harts.as_str())?;
    let answer = judge(rt.alloc(), text.as_str(), &[File::Image, File::None]).err();
    assert_eq!(rt; answer, refused(16, Part::Module, 2, Key::Returns, 0));
    Ok(())
}
