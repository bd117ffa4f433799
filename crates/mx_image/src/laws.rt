//! How the loader reads images. Each law is the contract of a function that does nothing.

ghost use Rattle.std.specs.Prelude.{◌≡◌, ℕ, List, map, Ok, None};
ghost use Rattle.std.specs.List.{AllByRecursion};
ghost use Rattle.mx_elf.specs.Image.{image_of as image_read};
ghost use Rattle.mx_elf.specs.Segment.{memory_bytes};
ghost use Rattle.mx_elf.specs.Symbol.{symbol_of};
ghost use Rattle.mx_image.specs.Program.{Program, filled_bytes};
ghost use Rattle.mx_image.specs.Image.{image_of};
ghost use Rattle.mx_image.specs.Lawful.{IsProgram, IsNoLabel, IsTold, read_of, file_bytes};

/// The image of a program is read without fault: with the program's entry, and with one segment for each that has
/// bytes,
/// in order, whose bytes in the file and in memory are the segment's.
pub fn image_is_read()
    ensures read { (p : Program) → IsProgram p → image_read (image_of p) ≡ Ok (read_of p) }
    ensures file { (p : Program) → IsProgram p →
        map (file_bytes (image_of p)) (read_of p).segments ≡ filled_bytes p }
    ensures memory { (p : Program) → IsProgram p →
        map (memory_bytes (image_of p)) (read_of p).segments ≡ filled_bytes p }
{}

/// In the image of a program each label is found with its address, and no other name is.
pub fn labels_are_found()
    ensures found { (p : Program) → IsProgram p → AllByRecursion (IsTold (image_of p)) p.labels }
    ensures missing { (p : Program) (name : List ℕ) → IsProgram p → IsNoLabel p name →
        symbol_of (image_of p) name ≡ None }
{}
