//! The sizes of lines, pages and regions.

/// The words of a line.
pub(crate) const LINE_WORDS: u32 = 0x10;

/// The words of a page, and of each of its eighths.
pub(crate) const PAGE_WORDS: u32 = 0x400;

pub(crate) const PAGE_EIGHTH: u32 = 0x80;

/// The words of a region, and of each of its eighths.
pub(crate) const REGION_WORDS: u32 = 0x10_0000;

pub(crate) const REGION_EIGHTH: u32 = 0x2_0000;

/// The lines of a page, which are the places of a leaf table.
pub(crate) const PAGE_LINES: u32 = 0x40;

/// The pages of a region, which are the places of a mid table, and its lines.
pub(crate) const REGION_PAGES: u32 = 0x400;

pub(crate) const REGION_LINES: u32 = 0x1_0000;

/// The lines of all words below 2^24.
pub(crate) const MOST_LINES: u32 = 0x10_0000;
