//! The numbers of those supervisor calls that code and definitions name by number. They are the definitions'
//! (specs/Calls), by
//! proofs/Constants.

/// The number of the call that writes to the console.
pub const WRITE_CALL: u32 = 2;

/// The number of the call that grants a permission.
pub const GRANT_CALL: u32 = 3;

/// The number of the call that revokes the rights of all others.
pub const REVOKE_ALL_CALL: u32 = 4;

/// The number of the call that takes a block of the heap.
pub const ALLOC_CALL: u32 = 6;

/// The number of the call that gives a block back.
pub const FREE_CALL: u32 = 7;

/// The number of the call that exchanges a word.
pub const EXCHANGE_CALL: u32 = 13;
