//! The codes of values in the store. Each stands before its value.

/// A text: its length and its bytes in UTF-8.
pub const TEXT_CODE: u8 = 0;

/// A number from 0 to 2^64 - 1, in 8 bytes.
pub const U64_CODE: u8 = 1;

/// A number from -2^63 to 2^63 - 1, in 8 bytes.
pub const I64_CODE: u8 = 2;

/// A facet: the length and the bytes of its encoded text.
pub const HIERARCHICAL_FACET_CODE: u8 = 3;

/// Bytes, after their length.
pub const BYTES_CODE: u8 = 4;

/// A date, in 8 bytes.
pub const DATE_CODE: u8 = 5;

/// A floating-point number. This library doesn't read it.
pub const F64_CODE: u8 = 6;

/// An extension, whose own code follows.
pub const EXT_CODE: u8 = 7;

/// An object in its legacy form: JSON.
pub const JSON_OBJ_CODE: u8 = 8;

/// A truth value: one byte, 0 or 1.
pub const BOOL_CODE: u8 = 9;

/// An IP address, in 16 bytes.
pub const IP_CODE: u8 = 10;

/// Null, with nothing after it.
pub const NULL_CODE: u8 = 11;

/// An array: the number of its values, and then each.
pub const ARRAY_CODE: u8 = 12;

/// An object: twice the number of its entries, and then each key and value.
pub const OBJECT_CODE: u8 = 13;

/// After `EXT_CODE`: a pre-tokenised text.
pub const TOK_STR_EXT_CODE: u8 = 0;
