// The letters and marks of type lines (one for each kind of `Type`). They are bytes of the text, which are compared and written where they
// stand: an enum of the kinds would be made of a byte and turned back into one at each place. What a letter says of its type is `Content`.
pub const ANY: u8 = b'A';

pub const NULL: u8 = b'B';

pub const BOOL: u8 = b'C';

pub const INT: u8 = b'D';

pub const FLOAT: u8 = b'E';

pub const NUM: u8 = b'F';

pub const STRING: u8 = b'G';

pub const DATE: u8 = b'H';

pub const DATETIME: u8 = b'I';

pub const LIST: u8 = b'J';

pub const MAP: u8 = b'K';

pub const NODE: u8 = b'L';

pub const RELATIONSHIP: u8 = b'M';

pub const PATH: u8 = b'N';

pub const UNION: u8 = b'O';

pub const UNKNOWN: u8 = b'P';

// Behind the last part of a list of parts; where no label or no relationship type is known.
pub const CLOSE: u8 = b'!';

// Before labels that are known.
pub const OPEN: u8 = b'+';
