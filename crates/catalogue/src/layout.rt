// Where things stand in a store (RULES 10.4).

pub const STORE_SIZE: usize = 65536;

// Before the entries: the last number, then zeros.
pub const STORE_HEAD: usize = 8;

pub const LAST_NUMBER: usize = 2;

// Before the text of an entry: its number, and from these places on its length and its uses.
pub const ENTRY_HEAD: usize = 8;

pub const AT_LENGTH: usize = 2;

pub const AT_USES: usize = 4;
