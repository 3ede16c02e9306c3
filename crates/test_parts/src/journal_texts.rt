//! The texts of journals, and of their beginnings.

use std::test::Fail;

/// The journal of one tenant whose counter is asked to add 3.
const WORKED: &str = "silo-journal 1
age 900000
tenant red 2 4
call red/c1 1 counter/red:a 01000000036164640600000001000000026279030000000000000003
activate counter/red:a
load counter/red:a ok
begin counter/red:a
end counter/red:a 1
reply red/c1 1 ok 030000000000000003
close 5
";

/// The same in the third form, as a silo writes it whose grains may rest and stay.
const SERVED: &str = "silo-journal 3
kinds 2
age 900000
tenant red 2 4
call red/c1 1 counter/red:a 02000000036164640600000001000000026279030000000000000003
activate counter/red:a
load counter/red:a ok
begin counter/red:a
end counter/red:a 1
reply red/c1 1 ok 030000000000000003
close 5
";

/// A journal whose one reply is a fault.
const FAULT: &str = "silo-journal 1
age 1
tenant red 1 1
status blue/c1 1
reply blue/c1 1 no 21 tenant blue is unknown
row counter/red:a 7 -
close 1
";

/// A journal with a line of each kind.
const EACH_KIND: &str = "silo-journal 1
age 86400000
tenant red 2 4
tenant blue-2 10000 1000
refuse red/c1 0 13
call red/c1 1 counter/red:a 01000000036164640600000001000000026279030000000000000003
poke red/c1 2 sheet/red:s ok 0600000000
status green/c 3
activate counter/red:a
load counter/red:a failed
begin counter/red:a
store counter/red:a 1 ok
end counter/red:a 1
abandon counter/red:a 2
deliver relay/red:r
tick 9223372036854775807
sweep
reply red/c1 1 ok 030000000000000003
reply green/c 3 no 21 tenant green is unknown
reply relay/red:r - no 22 kind x is unknown
row counter/red:a 18446744073709551615 00
row sheet/red:s 1 -
close 13
";

/// A journal of the second form, in which two kinds have an age of their own.
const SECOND: &str = "silo-journal 2
kinds 2
age 900000
kind counter 10
kind sheet 86400000
tenant red 2 4
tick 7
close 1
";

/// The worked journal, migrated.
const WORKED_NOW: &str = "silo-journal 3
kinds 1
age 900000
tenant red 2 4
call red/c1 1 counter/red:a 02000000036164640600000001000000026279030000000000000003
activate counter/red:a
load counter/red:a ok
begin counter/red:a
end counter/red:a 1
reply red/c1 1 ok 030000000000000003
close 5
";

/// A journal of two tenants.
const TWO_TENANTS: &str = "silo-journal 1
age 900000
tenant red 4 8
tenant blue 2 4
call red/c1 1 counter/red:a 01000000036164640600000001000000026279030000000000000003
activate counter/red:a
call red/c3 1 counter/red:a 010000000367657400
call red/c2 1 counter/red:a 010000000367657400
call blue/c1 1 sheet/blue:s 01000000037075740600000002000000046e616d6504000000016b0000000576616c75650500000002030000000000000001040000000178
activate sheet/blue:s
load sheet/blue:s ok
begin sheet/blue:s
call blue/c2 1 counter/red:a 010000000367657400
call blue/c2 2 sheet/blue:s 01000000036765740600000001000000046e616d6504000000016b
tick 1000
end sheet/blue:s 1
call blue/c1 2 sheet/blue:s 01000000047361766500
load counter/red:a ok
begin counter/red:a
end counter/red:a 1
begin sheet/blue:s
call red/c1 2 relay/red:r 01000000046a6f696e060000000100000005677261696e040000000d636f756e7465722f7265643a62
begin counter/red:a
begin counter/red:a
activate relay/red:r
load relay/red:r ok
end counter/red:a 2
begin relay/red:r
end sheet/blue:s 2
begin sheet/blue:s
end relay/red:r 4
end counter/red:a 3
call red/c1 3 relay/red:r 01000000046a6f696e060000000100000005677261696e040000000d636f756e7465722f7265643a61
begin relay/red:r
store sheet/blue:s 3 ok
end relay/red:r 5
call red/c1 4 relay/red:r 010000000473656e6406000000020000000461726773060000000100000002627903000000\
    0000000001000000066d6574686f640400000003616464
status red/c2 2
begin relay/red:r
end relay/red:r 6
deliver relay/red:r
deliver relay/red:r
begin counter/red:a
end counter/red:a 8
activate counter/red:b
load counter/red:b ok
begin counter/red:b
end counter/red:b 7
reply blue/c2 1 no 40 tenant blue may not call a grain of tenant red
reply blue/c1 1 ok 00
reply red/c1 1 ok 030000000000000003
reply red/c3 1 ok 030000000000000003
reply blue/c2 2 ok 0500000002030000000000000001040000000178
reply red/c1 2 ok 02
reply red/c2 1 ok 030000000000000003
reply blue/c1 2 ok 040000000131
reply red/c1 3 ok 02
reply red/c2 2 ok 06000000030000000b61637469766174696f6e7303000000000000000200000005636c6f636b030000\
    0000000003e8000000087265717565737473030000000000000006
reply red/c1 4 ok 030000000000000002
row sheet/blue:s 1 0600000001000000016b0500000002030000000000000001040000000178
close 44
";

/// A journal of the third form, in which bytes stand among values and a line was refused for its bytes.
const WITH_BYTES: &str = "silo-journal 3
kinds 2
age 1
kind sheet 5
tenant red 1 8
call red/c1 1 sheet/red:s 020000000161070000000200ff
refuse red/c1 2 14
reply red/c1 2 no 14 bytes are not well formed
row sheet/red:s 1 070000000200ff
close 2
";

/// The journals by their names, and what stands before a line by the name of its place.
static TEXTS: [(&str, &str); 17] = [
    ("worked", WORKED),
    ("served", SERVED),
    ("fault", FAULT),
    ("each kind", EACH_KIND),
    ("second", SECOND),
    ("worked now", WORKED_NOW),
    ("two tenants", TWO_TENANTS),
    ("with bytes", WITH_BYTES),
    ("head", ""),
    ("age", "silo-journal 1\n"),
    ("tenant", "silo-journal 1\nage 1\n"),
    // after the head of the second form
    ("kinds", "silo-journal 2\n"),
    // after the age of a journal of the second form
    ("kind", "silo-journal 2\nkinds 2\nage 1\n"),
    // after a kind that has an age of its own
    (
        "next kind",
        "silo-journal 2\nkinds 1\nage 1\nkind sheet 5\n",
    ),
    // among the steps, the replies or the rows, in each form
    ("body", "silo-journal 1\nage 1\ntenant red 1 1\n"),
    (
        "second body",
        "silo-journal 2\nkinds 2\nage 1\ntenant red 1 1\n",
    ),
    (
        "third body",
        "silo-journal 3\nkinds 2\nage 1\ntenant red 1 1\n",
    ),
];

/// The journal of a name, or what stands before a line at a place of that name.
pub fn text_of(name: &str) -> Result<&'static str, Fail> {
    for (known, text) in &TEXTS {
        if *known == name {
            return Ok(*text);
        }
    }
    Err(Fail::from("no journal and no place has that name"))
}
