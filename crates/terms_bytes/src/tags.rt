// The byte where a term begins: document 01, the table of bytes. Inaction and the prefixes stand before the match.
pub const INACTION: u8 = 0;

pub const SILENT: u8 = 1;

pub const INPUT: u8 = 2;

pub const OUTPUT: u8 = 3;

pub const NEW_OUTPUT: u8 = 4;

pub const MATCH: u8 = 5;

pub const CHOICE: u8 = 6;

pub const PARALLEL: u8 = 7;

pub const RESTRICTION: u8 = 8;

pub const CALL: u8 = 9;
