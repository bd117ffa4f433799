//! Stores and sinks, in memory and real, and lines that are put together from pieces.
ghost use Rattle.std.specs.Prelude.{[], Some, None};

use crate::checks::{Text, same, text};
use mx_io::{
    Bytes, Failed, FileSink, Files, FolderStore, Loose, Maker, Piece, Sink, StderrSink, StdoutSink,
    Store, Stream, put_all,
};
use mx_tail::put_line;
use mx_words::NoMemory;
use std::alloc::{Alloc, Global};
use std::fmt::InlineText;
use std::io::ErrorKind;
use std::process::Abort;
use std::rt::Files as HostFiles;
use std::test::Fail;
use std::{fs, io};

/// What a read of four bytes gives: how many, and the bytes with points behind them.
fn part<S: Store>(store: &mut S, name: &str, at: u64) -> Result<(usize, [u8; 4]), Failed> {
    let mut into = *b"....";
    let count = store.read(name, at, &mut into)?;
    Ok((count, into))
}

/// Names, places and how many bytes a read of four gives there.
static PARTS: [(&str, u64, usize); 6] = [
    ("a", 0, 4),
    ("a", 3, 2),
    ("a", 5, 0),
    ("a", u64::MAX, 0),
    ("b", 0, 0),
    ("c", 0, 0),
];

/// A store of two files, `hello` and one without bytes, tells their sizes and gives parts of them.
fn tells_files<S: Store>(rt: &impl Abort, store: &mut S) {
    same(rt, "a", store.size("a"), Ok(Some(5)));
    same(rt, "b", store.size("b"), Ok(Some(0)));
    same(rt, "c", store.size("c"), Ok(None));
    for (name, at, count) in &PARTS {
        let read = part(store, name, *at).map(|(count, _)| count);
        same(rt, name, (*at, read), (*at, Ok(*count)));
    }
    same(rt, "the end of a", part(store, "a", 3), Ok((2, *b"lo..")));
}

/// Files in memory, of which one is put anew.
fn two_files(alloc: Global) -> Result<Files, NoMemory> {
    let mut files = Files::new(alloc);
    files.add("a", b"old")?;
    files.add("b", b"")?;
    files.add("a", b"hello")?;
    Ok(files)
}

#[test]
fn files_tell_sizes_and_give_parts(rt: HostRuntime) -> Result<(), Fail> {
    tells_files(&rt, &mut two_files(rt.alloc())?);
    Ok(())
}

/// Makes four calls of a store without files, of which the second and the third fail.
fn call_files<S: Store>(rt: &impl Abort, store: &mut S) {
    same(rt, "the first", store.size("a"), Ok(None));
    same(rt, "the second", store.size("a"), Err(Failed));
    same(rt, "the third", store.read("a", 0, &mut [0]), Err(Failed));
    same(rt, "the fourth", store.size("a"), Ok(None));
}

/// A store without files, of whose calls the second and the third fail.
fn failing_files(alloc: Global) -> Files {
    let mut files = Files::new(alloc);
    files.fail_at(2);
    files.fail_at(3);
    files
}

/// Which of ten writes of a byte fail.
fn failing_writes<S: Sink>(sink: &mut S) -> [bool; 10] {
    let mut fails = [false; 10];
    for fail in &mut fails {
        *fail = sink.write(b"x").is_err();
    }
    fails
}

/// Which writes fail where ten are listed, one of them twice and two too many, and what is then written.
fn listed_writes(alloc: Global) -> Option<([bool; 10], Text)> {
    let mut bytes = Bytes::new(alloc, 16).ok()?;
    for call in [1, 2, 2, 3, 4, 5, 6, 7, 9, 10] {
        bytes.fail_at(call);
    }
    let fails = failing_writes(&mut bytes);
    Some((fails, text(bytes.as_slice())))
}

#[test]
fn listed_calls_fail(rt: HostRuntime) {
    call_files(&rt, &mut failing_files(rt.alloc()));
    let fails = [true, true, true, true, true, true, true, false, true, false];
    let writes = listed_writes(rt.alloc());
    same(&rt, "writes", writes, Some((fails, text(b"xx"))));
}

/// What four writes come to.
fn four_writes(bytes: &mut Bytes) -> [Result<usize, Failed>; 4] {
    [
        bytes.write(b"abc"),
        bytes.write(b"def"),
        bytes.write(b"ef"),
        bytes.write(b""),
    ]
}

#[test]
fn bytes_take_what_there_is_room_for(rt: HostRuntime) -> Result<(), Fail> {
    let mut bytes = Bytes::new(rt.alloc(), 4)?;
    let counts = four_writes(&mut bytes);
    same(&rt, "counts", counts, [Ok(3), Ok(1), Err(Failed), Ok(0)]);
    same(&rt, "bytes", bytes.as_slice(), b"abcd".as_slice());
    Ok(())
}

/// A store of a file of four bytes tells another size of it.
fn tells_a_loose_file<S: Store>(rt: &impl Abort, store: &mut S) {
    same(rt, "the size", store.size("first.toml"), Ok(Some(10)));
    same(rt, "another file", store.size("other"), Ok(None));
    let mut into = [0; 10];
    same(
        rt,
        "the start",
        store.read("first.toml", 0, &mut into),
        Ok(4),
    );
    same(rt, "its bytes", into, *b"four\0\0\0\0\0\0");
    same(rt, "the end", store.read("first.toml", 4, &mut into), Ok(0));
}

#[test]
fn a_loose_file_is_shorter_than_told(rt: HostRuntime) -> Result<(), Fail> {
    let mut loose = Loose::new(rt.alloc());
    loose.add("first.toml", 10, b"four")?;
    tells_a_loose_file(&rt, &mut loose);
    Ok(())
}

/// What a line comes to with so much room, and what stands there then.
fn line_of(alloc: Global, room: u64, line: &[Piece<'_>]) -> Option<(Result<(), Failed>, Text)> {
    let mut bytes = Bytes::new(alloc, room).ok()?;
    let put = put_line(&mut bytes, line);
    Some((put, text(bytes.as_slice())))
}

/// Pieces of each kind.
static LINE: [Piece<'static>; 9] = [
    Piece::Text("step="),
    Piece::Number(u64::MAX),
    Piece::Text(" code="),
    Piece::Signed(-7),
    Piece::Text(" pc="),
    Piece::Hex(0x0189_abcd),
    Piece::Text(" "),
    Piece::Digits(0xef),
    Piece::Text("\n"),
];

#[test]
fn pieces_make_a_line(rt: HostRuntime) {
    let line = text(b"step=18446744073709551615 code=-7 pc=0x0189abcd 000000ef\n");
    let whole = line_of(rt.alloc(), 100, &LINE);
    same(&rt, "the whole", whole, Some((Ok(()), line)));
    let short = line_of(rt.alloc(), 10, &LINE);
    same(
        &rt,
        "10 bytes",
        short,
        Some((Err(Failed), text(b"step=18446"))),
    );
}

static NAMED: [Piece<'static>; 3] = [
    Piece::Text("no file "),
    Piece::Name("a\nend\u{1b}\u{7f}"),
    Piece::Text("\n"),
];

/// What a line comes to two times where the second write fails, and what stands there then.
fn two_lines(alloc: Global) -> Option<([Result<(), Failed>; 2], Text)> {
    let mut bytes = Bytes::new(alloc, 100).ok()?;
    bytes.fail_at(2);
    let puts = [put_line(&mut bytes, &NAMED), put_line(&mut bytes, &NAMED)];
    Some((puts, text(bytes.as_slice())))
}

#[test]
fn a_line_is_one_write(rt: HostRuntime) {
    let puts = [Ok(()), Err(Failed)];
    let line = text(b"no file a?end??\n");
    same(&rt, "two lines", two_lines(rt.alloc()), Some((puts, line)));
}

/// Names, and how they are shown.
static SHOWN: [(&str, &str); 6] = [
    ("first.toml", "first.toml"),
    ("\0\t\n\u{1f}", "????"),
    ("\u{1b}[2J\u{7f}", "?[2J?"),
    ("a\u{80}\u{85}\u{9b}\u{9f}b", "a????b"),
    (
        "\u{a0}\u{c2}\u{e9}\u{2028}\u{1d11e}",
        "\u{a0}\u{c2}\u{e9}\u{2028}\u{1d11e}",
    ),
    ("", ""),
];

#[test]
fn control_characters_of_names_are_not_shown(rt: HostRuntime) {
    for (name, shown) in &SHOWN {
        let got = line_of(rt.alloc(), 100, &[Piece::Name(name)]);
        same(&rt, shown, got, Some((Ok(()), text(shown.as_bytes()))));
    }
}

/// Places in `hello`, and how many bytes a read of four gives there.
static PLACES: [(u64, usize); 4] = [(0, 4), (3, 2), (5, 0), (u64::MAX, 0)];

/// A store of a folder with the file `hello` tells its size and gives parts of it.
fn tells_a_folder<S: Store>(rt: &impl Abort, store: &mut S) {
    same(rt, "a", store.size("a"), Ok(Some(5)));
    same(rt, "b", store.size("b"), Ok(None));
    for (at, count) in &PLACES {
        let read = part(store, "a", *at).map(|(count, _)| count);
        same(rt, "place and count", (*at, read), (*at, Ok(*count)));
    }
    same(rt, "the end of a", part(store, "a", 3), Ok((2, *b"lo..")));
    let none = part(store, "b", 0).map(|(count, _)| count);
    same(rt, "no file", none, Ok(0));
}

#[test]
fn files_in_memory_are_a_folder(rt: HostRuntime) -> Result<(), Fail> {
    let mut files = Files::new(rt.alloc());
    files.add("a", b"hello")?;
    tells_a_folder(&rt, &mut FolderStore::over(&files));
    Ok(())
}

/// Whether a file or a folder was made and taken away again.
fn is_done<T: Drop>(done: io::Result<T>) -> bool {
    done.is_ok()
}

/// What a store tells of a file of eight bytes that stands there meanwhile.
fn tells_a_file<R: Abort + HostFiles, S: Store>(rt: &R, store: &mut S) {
    let name = "mx_io_a_file";
    same(rt, "made", is_done(fs::write(rt, name, "seven by")), true);
    let size = store.size(name);
    let mut into = [0; 5];
    let part = store.read(name, 3, &mut into);
    let end = store.read(name, 8, &mut [0]);
    same(rt, "removed", is_done(fs::remove_file(rt, name)), true);
    same(rt, "the size", size, Ok(Some(8)));
    same(rt, "a part", part, Ok(5));
    same(rt, "its bytes", into, *b"en by");
    same(rt, "the end", end, Ok(0));
}

/// A store tells this size of a name, and a read from the start comes to this.
fn refuses<S: Store>(
    rt: &impl Abort,
    store: &mut S,
    name: &str,
    size: Result<Option<u64>, Failed>,
    read: Result<usize, Failed>,
) {
    same(rt, name, store.size(name), size);
    same(rt, name, store.read(name, 0, &mut [0; 5]), read);
}

/// What the store of the current folder tells, of a file and then of a name without one, of a folder that stands there
/// meanwhile, and of a device.
fn tells_the_folder<R: Abort + HostFiles, S: Store>(rt: &R, store: &mut S) {
    tells_a_file(rt, store);
    refuses(rt, store, "mx_io_no_file", Ok(None), Ok(0));
    same(
        rt,
        "made",
        is_done(fs::create_dir(rt, "mx_io_a_folder")),
        true,
    );
    refuses(rt, store, "mx_io_a_folder", Err(Failed), Err(Failed));
    same(
        rt,
        "removed",
        is_done(fs::remove_dir(rt, "mx_io_a_folder")),
        true,
    );
    // A device is no regular file, and isn't opened.
    refuses(rt, store, "/dev/zero", Err(Failed), Err(Failed));
}

#[test]
fn the_folder_is_a_store(rt: HostRuntime) {
    tells_the_folder(&rt, &mut FolderStore::new(&rt));
}

// A writer that takes nothing.
#[derive(Drop)]
struct Full;

impl Stream for Full {
    ghost contents = { λ _. None };

    ghost room = { λ _. 0 };

    fn take(&mut self, _bytes: &[u8]) -> io::Result<usize> {
        Ok(0)
    }
}

#[test]
fn standard_streams_are_sinks(rt: HostRuntime) {
    let out = put_all(&mut StdoutSink::new(rt.stdout()), b"to stdout\n");
    same(&rt, "stdout", out, Ok(()));
    let out = put_all(&mut StderrSink::new(rt.stderr()), b"to stderr\n");
    same(&rt, "stderr", out, Ok(()));
    same(
        &rt,
        "a full one",
        StdoutSink::over(Full).write(b"a"),
        Err(Failed),
    );
    same(
        &rt,
        "a full one",
        StderrSink::over(Full).write(b"a"),
        Err(Failed),
    );
}

/// What puts on the two streams come to.
fn put_streams<W: Stream>(written: &mut W) -> [Result<(), Failed>; 2] {
    let first = put_all(&mut StdoutSink::over(&mut *written), b"one, ");
    [first, put_all(&mut StderrSink::over(written), b"two")]
}

#[test]
fn streams_append_to_writers(rt: HostRuntime) {
    let mut written = Vec::new(rt.alloc());
    same(&rt, "puts", put_streams(&mut written), [Ok(()), Ok(())]);
    same(&rt, "bytes", written.as_slice(), b"one, two".as_slice());
}

// Lends a vector as a file, once.
#[derive(Drop)]
struct Lent<'a> {
    file: Option<&'a mut Vec<u8>>,
}

impl<'a> Maker for Lent<'a> {
    type File = &'a mut Vec<u8>;

    ghost fresh = { Some [] };

    ghost room = { λ _. 0 };

    fn make(&mut self) -> io::Result<&'a mut Vec<u8>> {
        match self.file.take() {
            Some(file) => {
                file.clear();
                Ok(file)
            }
            None => Err(io::Error::from(ErrorKind::NotFound)),
        }
    }
}

/// Lends a vector and puts what is given on it, piece by piece.
fn put_lent(file: &mut Vec<u8>, pieces: &[&[u8]]) -> bool {
    let mut sink = FileSink::over(Lent { file: Some(file) });
    put_pieces(&mut sink, pieces)
}

/// Whether all pieces are put.
fn put_pieces<S: Sink>(sink: &mut S, pieces: &[&[u8]]) -> bool {
    for piece in pieces {
        if put_all(sink, piece).is_err() {
            return false;
        }
    }
    true
}

#[test]
fn a_file_is_made_at_the_first_write(rt: HostRuntime) -> Result<(), Fail> {
    let before = b"what stood there before".as_slice();
    let mut file = Vec::from_slice(rt.alloc(), before)?;
    same(&rt, "nothing is put", put_lent(&mut file, &[b""]), true);
    same(&rt, "nothing", file.as_slice(), before);
    same(
        &rt,
        "two are put",
        put_lent(&mut file, &[b"two ", b"writes"]),
        true,
    );
    same(&rt, "two", file.as_slice(), b"two writes".as_slice());
    let refused = FileSink::over(Lent { file: None }).write(b"a");
    same(&rt, "no file", refused, Err(Failed));
    Ok(())
}

/// The text of the dump, or another where there is none.
fn dump<R: HostFiles + Alloc>(rt: &R) -> InlineText<64> {
    match fs::read_to_string(rt, "memory.bin") {
        Ok(text) => InlineText::of(text.as_str()),
        Err(_) => InlineText::of("no dump"),
    }
}

/// A write to the dump fails where a folder stands; where a file stands, the first write with bytes takes its place.
fn writes_the_dump<R: Abort + HostFiles + Alloc, S: Sink>(rt: &R, sink: &mut S) {
    same(rt, "made", is_done(fs::create_dir(rt, "memory.bin")), true);
    same(rt, "a folder", sink.write(b"a"), Err(Failed));
    same(
        rt,
        "removed",
        is_done(fs::remove_dir(rt, "memory.bin")),
        true,
    );

    let before = "what stood there before";
    same(
        rt,
        "made",
        is_done(fs::write(rt, "memory.bin", before)),
        true,
    );
    same(rt, "nothing", put_all(sink, b""), Ok(()));
    same(rt, "nothing", dump(rt).as_str(), before);
    same(rt, "the first", put_all(sink, b"two "), Ok(()));
    same(rt, "the second", put_all(sink, b"writes"), Ok(()));
    same(rt, "the dump", dump(rt).as_str(), "two writes");
    same(
        rt,
        "removed",
        is_done(fs::remove_file(rt, "memory.bin")),
        true,
    );
}

#[test]
fn the_dump_goes_to_a_file(rt: HostRuntime) {
    writes_the_dump(&rt, &mut FileSink::new(&rt));
}
