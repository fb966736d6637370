// The words of a line and the line feed: `flow N size N every N jitter N`.
pub const FLOW: [u8; 5] = *b"flow ";

pub const SIZE: [u8; 6] = *b" size ";

pub const EVERY: [u8; 7] = *b" every ";

pub const JITTER: [u8; 8] = *b" jitter ";

pub const FEED: [u8; 1] = *b"\n";
