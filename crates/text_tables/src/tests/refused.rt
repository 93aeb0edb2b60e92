//! Lines that may not stand where another one stands.

pub const ONE_COMMIT: &str = "trace 1 serial 2
e 1 acted
begin 1.1 v 1 r a 0 w a 05
m 1 1 1 PREPARE 01000000010100000001010101000000000000000101016100000000000000000101610105
e 2 acted
read a 0 -
e 3 acted
decide 1.1 commit
m 2 1 1 DECISION 05000000010001010000000101
m 3 1 0 LAST 0b01
order 1.1
end 3 3
";

/// A line's number, from 1, in the trace above, and a line that is refused in its place.
pub const NOT_IN_ONE_COMMIT: &[(usize, &str)] = &[
    (1, ""),
    (1, "trace"),
    (1, "trace 0 serial 1"),
    (1, "trace 3 serial 1"),
    (1, "trace 01 serial 1"),
    (1, "trace 1 Serial 1"),
    (1, "trace 1 serial 0"),
    (1, "trace 1 serial 17"),
    (1, "trace 1 serial 1 "),
    (1, " trace 1 serial 1"),
    (1, "trace 1  serial 1"),
    (1, "e 1 acted"),
    (1, "order -"),
    (2, "trace 1 serial 1"),
    (2, "begin 1.1 v 1 r a 0"),
    (2, "m 1 1 1 LAST 0b01"),
    (2, "end 0 0"),
    (2, "e 0 acted"),
    (2, "e 2 acted"),
    (2, "e 01 acted"),
    (2, "e 1"),
    (2, "e 1 "),
    (2, "e 1 acted "),
    (2, "e 1 Acted"),
    (2, "e 1 stale"),
    (2, "e 1 stale 4294967296"),
    (2, "e 1 held 4294967296"),
    (2, "e 1 held -1"),
    (2, "e 1 held 00"),
    (5, "e 1 acted"),
    (5, "e 3 acted"),
    (11, "e 5 acted"),
    (3, "begin 0.1 v 1 r a 0"),
    (3, "begin 65.1 v 1 r a 0"),
    (3, "begin 1.0 v 1 r a 0"),
    (3, "begin 1.1000001 v 1 r a 0"),
    (3, "begin 1.1.1 v 1 r a 0"),
    (3, "begin 1 v 1 r a 0"),
    // The commit version is not above what was read; a name out of order; a write of what is not read; a range.
    (3, "begin 1.1 v 1 r a 1"),
    (3, "begin 1.1 v 1 r b 0 r a 0"),
    (3, "begin 1.1 v 1 r a 0 w b 05"),
    (3, "begin 1.1 v 1 q a c 0"),
    (3, "begin 1.1 v 1 r a 0 w a 0A"),
    (3, "take 1.1 "),
    (3, "take 1"),
    (6, "read A 0 -"),
    (6, "read a 18446744073709551616 -"),
    (6, "read a 0 "),
    (6, "read a 0 5"),
    (6, "read a 0 0F"),
    (8, "decide 1.1"),
    (8, "decide 1.1 abort"),
    (8, "decide 1.1 abort 0 lost"),
    (8, "decide 1.1 abort 3 lost"),
    (8, "decide 1.1 abort 1 clash"),
    (8, "decide 1.1 abort 1 clash 1"),
    (8, "decide 1.1 abort 1 commit"),
    // No note stands behind a message.
    (5, "take 1.1"),
    (10, "take 1.1"),
    (9, "m 1 1 1 DECISION 05000000010001010000000101"),
    (9, "m 3 1 1 DECISION 05000000010001010000000101"),
    (9, "m 2 65 1 DECISION 05000000010001010000000101"),
    (9, "m 2 1 65 DECISION 05000000010001010000000101"),
    (9, "m 2 1 255 DECISION 05000000010001010000000101"),
    (9, "m 2 1 1 OUTCOME 05000000010001010000000101"),
    (9, "m 2 1 1 decision 05000000010001010000000101"),
    (9, "m 2 1 1 DECISION 050000000100010100000001"),
    (9, "m 2 1 1 DECISION 0500000001000101000000010100"),
    (9, "m 2 1 1 DECISION 0500000001000101000000010"),
    (9, "m 2 1 1 DECISION "),
    (10, "m 3 1 0 LAST 0B01"),
    (10, "m 3 1 0 LAST 0b00"),
    (10, "m 3 1 0 AT 0b01"),
    // A piece of a state, and a range, in a trace of version 1.
    (
        10,
        "m 3 2 3 STATE_PIECE 11010000000202020302030001000100010001010000000101010000000000000000010101610000000000000000010161010500",
    ),
    (
        10,
        "m 3 1 1 PREPARE 010000000101000000020101010000000000000001200101610163000000000000000000",
    ),
    (
        10,
        "m 3 1 1 PREPARE_ACK 0201000000010002010000000201010101000000010000000000000001200101610163000000000000000000",
    ),
    (11, "order"),
    (11, "order "),
    (11, "order - 1.1"),
    (11, "order 1.1 "),
    (11, "order 1.1  2.1"),
    (11, "order 1.1 65.1"),
    (11, "end 3 3"),
    (12, "order 1.1"),
    (12, "e 4 acted"),
    (12, "end 2 3"),
    (12, "end 4 3"),
    (12, "end 3 2"),
    (12, "end 3 4"),
    (12, "end 3 3 "),
    (12, "end 3"),
];

pub const STATE_MOVED: &str = "trace 2 commute 1
e 1 acted
begin 1.1 v 1 q a c 0
m 1 2 3 STATE_PIECE 11010000000202020302030001000100010001010000000101010000000000000000010101610000000000000000010161010500
m 2 1 1 PREPARE 010000000101000000020101010000000000000001200101610163000000000000000000
order -
end 1 2
";

/// The same of a trace of version 2. A whole state may not stand there.
pub const NOT_IN_STATE_MOVED: &[(usize, &str)] = &[
    (
        4,
        "m 1 2 3 NEW_STATE 090100000002020203020300010001010000000101010000000000000000010101610000000000000000010161010500",
    ),
    (3, "begin 1.1 v 1 q c a 0"),
];
