// The words of the lines and the line feed: `cycle N frame N grants N load N`, `grant N flow N late N`, `refused N at N`.
pub const CYCLE: [u8; 6] = *b"cycle ";

pub const FRAME: [u8; 7] = *b" frame ";

pub const GRANTS: [u8; 8] = *b" grants ";

pub const LOAD: [u8; 6] = *b" load ";

pub const GRANT: [u8; 6] = *b"grant ";

pub const FLOW: [u8; 6] = *b" flow ";

pub const LATE: [u8; 6] = *b" late ";

pub const REFUSED: [u8; 8] = *b"refused ";

pub const AT: [u8; 4] = *b" at ";

pub const FEED: [u8; 1] = *b"\n";
