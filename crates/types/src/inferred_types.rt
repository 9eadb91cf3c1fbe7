// The inferred types outside lists by name, the rows of the table: 1 to 5 are the kinds of literals, and the others
// that a rule speaks of are in `specs/InferredTypes.antt`.
pub const ANY: u8 = 0;

pub const NULL: u8 = 1;

pub const BOOL: u8 = 2;

pub const INT: u8 = 3;

pub const FLOAT: u8 = 4;

pub const STRING: u8 = 5;

pub const NUM: u8 = 6;

pub const DATE: u8 = 7;

pub const DATETIME: u8 = 8;

pub const MAP: u8 = 9;

pub const NODE: u8 = 10;

pub const RELATIONSHIP: u8 = 11;

pub const PATH: u8 = 12;

pub const UNION: u8 = 13;

pub const UNKNOWN: u8 = 14;
