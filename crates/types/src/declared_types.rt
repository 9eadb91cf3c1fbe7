// The declared types outside lists by name, the columns of the table: the kinds of types, which `rules` has in
// `specs/Kinds.antt`, less the first of them.
pub const STRING: u8 = 0;

pub const INT: u8 = 1;

pub const FLOAT: u8 = 2;

pub const BOOL: u8 = 3;

pub const DATE: u8 = 4;

pub const DATETIME: u8 = 5;

pub const ENUM: u8 = 6;

pub const OPAQUE: u8 = 7;

pub const ANY: u8 = 8;
