//! Where the fields of the format stand, in bytes from the start of their header or symbol, and the values that they
//! have here (System V gABI, "ELF Header", "Program Header", "Sections", "Symbol Table").

/// The bytes with which each file begins.
pub(crate) const MAGIC: [u8; 4] = [0x7F, 0x45, 0x4C, 0x46];
/// The size of the file header.
pub(crate) const HEADER_SIZE: usize = 52;

pub(crate) const EI_CLASS: usize = 4;

pub(crate) const EI_DATA: usize = 5;

pub(crate) const E_TYPE: usize = 16;

pub(crate) const E_MACHINE: usize = 18;

pub(crate) const E_ENTRY: usize = 24;

pub(crate) const E_PHOFF: usize = 28;

pub(crate) const E_SHOFF: usize = 32;

pub(crate) const E_PHENTSIZE: usize = 42;

pub(crate) const E_PHNUM: usize = 44;

pub(crate) const E_SHENTSIZE: usize = 46;

pub(crate) const E_SHNUM: usize = 48;

/// Numbers of 32 bits.
pub(crate) const CLASS_32: u8 = 1;
/// The lowest byte of a number first.
pub(crate) const LOWEST_FIRST: u8 = 1;
/// An executable file at fixed addresses.
pub(crate) const ET_EXEC: u16 = 2;
/// RISC-V.
pub(crate) const EM_RISCV: u16 = 243;

/// The size of a program header.
pub(crate) const PROGRAM_HEADER_SIZE: usize = 32;

pub(crate) const P_OFFSET: usize = 4;

pub(crate) const P_VADDR: usize = 8;

pub(crate) const P_FILESZ: usize = 16;

pub(crate) const P_MEMSZ: usize = 20;

pub(crate) const P_FLAGS: usize = 24;

/// A part of memory.
pub(crate) const PT_LOAD: u32 = 1;

/// The size of a section header.
pub(crate) const SECTION_HEADER_SIZE: usize = 40;

pub(crate) const SH_TYPE: usize = 4;

pub(crate) const SH_OFFSET: usize = 16;

pub(crate) const SH_SIZE: usize = 20;

pub(crate) const SH_LINK: usize = 24;

/// A symbol table.
pub(crate) const SHT_SYMTAB: u32 = 2;

/// The size of a symbol.
pub(crate) const SYMBOL_SIZE: usize = 16;

pub(crate) const ST_VALUE: usize = 4;

pub(crate) const ST_SHNDX: usize = 14;
