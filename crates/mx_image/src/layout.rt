//! What the fields of an image hold, and sizes of its headers in bytes (System V gABI, "ELF Header", "Program Header",
//! "Sections", "Symbol Table").

/// Magic, numbers of 32 bits, the lowest byte first, version 1, and nine bytes that are 0.
pub(crate) const IDENT: [u8; 16] = [0x7F, 0x45, 0x4C, 0x46, 1, 1, 1, 0, 0, 0, 0, 0, 0, 0, 0, 0];
/// The size of the file header.
pub(crate) const HEADER_SIZE: u32 = 52;
/// The size of a program header.
pub(crate) const PROGRAM_HEADER_SIZE: u32 = 32;
/// The size of a section header.
pub(crate) const SECTION_HEADER_SIZE: u32 = 40;
/// The size of a symbol.
pub(crate) const SYMBOL_SIZE: u32 = 16;
/// An executable file at fixed addresses.
pub(crate) const ET_EXEC: u16 = 2;
/// RISC-V.
pub(crate) const EM_RISCV: u16 = 243;
/// A part of memory.
pub(crate) const PT_LOAD: u32 = 1;
/// A symbol table.
pub(crate) const SHT_SYMTAB: u32 = 2;
/// Strings.
pub(crate) const SHT_STRTAB: u32 = 3;
/// The number of the strings' section.
pub(crate) const STRINGS: u16 = 2;
/// The number of sections.
pub(crate) const SECTIONS: u16 = 3;
/// A symbol that is an address.
pub(crate) const SHN_ABS: u16 = 0xFFF1;
