// The largest order and the longest text (RULES 3.1 and 7.2), and the lengths of arrays that follow from them.

// The largest order of a table, and the largest number in a text.
pub const ORDER: usize = 120;

// The length of an array with a place for each element and place 0, which stands for no element.
pub const PLACES: usize = ORDER + 1;

// The number of cells of a table of the largest order.
pub const CELLS: usize = ORDER * ORDER;

// The number of bytes that the marks of two tables of the largest order take, at one bit for each pair.
pub const SCRATCH: usize = CELLS / 8;

// The number of bytes of the longest text of a table: 120 lines, each of 120 fields of three digits with a comma or CR after each field, and an LF.
pub const TEXT: usize = 57720;

// One byte more than the longest text: enough to see that a file is too long. Later bytes do not matter (`first_bytes_decide`).
pub const FILE: usize = TEXT + 1;

// A number of bytes that is enough for every output of the program `recue`: 15 for its first record, and 9 for each of 120 elements.
pub const OUTPUT: usize = 1095;
