//! Worked rows: lines, how many sends are delivered after each at most, and what is written. Each row can be followed
//! by hand.
//!
//! The tenants are red and blue, each with 3 activations of 4 waiting requests, and the age is 5. The rows are statics, since a
//! long text in a test's own body stands in all its goals.

use line_answer::LineFault;

/// How the lines end.
#[derive(Clone, Copy)]
pub enum End {
    /// After this many lines.
    After(u64),
    ReadingFails,
    WritingFails,
}

impl End {
    /// Whether they end so.
    pub fn is(self, end: &Result<u64, LineFault>) -> bool {
        match (self, end) {
            (End::After(wanted), Ok(lines)) => wanted == *lines,
            (End::ReadingFails, Err(LineFault::Read)) => true,
            (End::WritingFails, Err(LineFault::Write)) => true,
            _ => false,
        }
    }
}

/// Lines, how many sends are delivered after each at most, what is written for them, and how they end.
#[derive(Clone, Copy)]
pub struct Worked {
    pub lines: &'static str,
    pub most: u64,
    pub told: &'static str,
    pub end: End,
    /// The storage's call that fails, or 0.
    pub fails_at: u64,
}

const COUNTED_LINES: &str =
    r#"{"op":"call","from":"red/c1","id":1,"grain":"counter/red:a","method":"add","args":{"by":3}}
{"op":"call","from":"red/c2","id":7,"grain":"counter/red:a","method":"add","args":{"by":4}}
{"op":"call","from":"red/c1","id":2,"grain":"counter/red:a","method":"save","args":null}
{"op":"poke","from":"red/c1","id":3,"grain":"counter/red:a","state":10}
{"op":"status","from":"red/c1","id":4}
"#;

const COUNTED_TOLD: &str = r#"{"from":"red/c1","id":1,"ok":3}
{"from":"red/c2","id":7,"ok":7}
{"from":"red/c1","id":2,"ok":"1"}
{"from":"red/c1","id":3,"ok":"2"}
{"from":"red/c1","id":4,"ok":{"activations":1,"clock":0,"requests":3}}
"#;

/// A counter is called twice, and saved; its row is poked, and the status is requested.
pub static COUNTED: Worked = Worked {
    lines: COUNTED_LINES,
    most: 10,
    told: COUNTED_TOLD,
    end: End::After(5),
    fails_at: 0,
};

/// The same, where reading fails after the lines.
pub static COUNTED_UNTIL_IT_FAILS: Worked = Worked {
    lines: COUNTED_LINES,
    most: 10,
    told: COUNTED_TOLD,
    end: End::ReadingFails,
    fails_at: 0,
};

/// The same, where writing the first reply fails.
pub static COUNTED_UNWRITTEN: Worked = Worked {
    lines: COUNTED_LINES,
    most: 10,
    told: "",
    end: End::WritingFails,
    fails_at: 0,
};

/// The same, if the storage's second call fails, which saves: nothing is stored before the poke.
pub static COUNTED_BUT_SAVED: Worked = Worked {
    lines: COUNTED_LINES,
    most: 10,
    told: r#"{"from":"red/c1","id":1,"ok":3}
{"from":"red/c2","id":7,"ok":7}
{"error":53,"from":"red/c1","id":2,"text":"storage failed"}
{"from":"red/c1","id":3,"ok":"1"}
{"from":"red/c1","id":4,"ok":{"activations":1,"clock":0,"requests":3}}
"#,
    end: End::After(5),
    fails_at: 2,
};

/// A relay sends to its two members, of which one is blue's; blue asks; and red asks the other member twice.
const SENT_LINES: &str =
    r#"{"op":"call","from":"red/c1","id":1,"grain":"relay/red:r","method":"join","args":{"grain":"counter/red:a"}}
{"op":"call","from":"red/c1","id":2,"grain":"relay/red:r","method":"join","args":{"grain":"counter/blue:a"}}
{"op":"call","from":"red/c1","id":3,"grain":"relay/red:r","method":"send","args":{"args":{"by":2},"method":"add"}}
{"op":"call","from":"blue/c1","id":1,"grain":"counter/blue:a","method":"get"}
{"op":"call","from":"red/c1","id":4,"grain":"counter/red:a","method":"get"}
{"op":"call","from":"red/c1","id":5,"grain":"counter/red:a","method":"get"}
"#;

/// Both sends are delivered after their line.
pub static SENT: Worked = Worked {
    lines: SENT_LINES,
    most: 10,
    told: r#"{"from":"red/c1","id":1,"ok":true}
{"from":"red/c1","id":2,"ok":true}
{"from":"red/c1","id":3,"ok":2}
{"error":40,"from":"relay/red:r","text":"tenant red may not call a grain of tenant blue"}
{"from":"blue/c1","id":1,"ok":0}
{"from":"red/c1","id":4,"ok":2}
{"from":"red/c1","id":5,"ok":2}
"#,
    end: End::After(6),
    fails_at: 0,
};

/// One of the sends is delivered after their line, and the other after red's next line.
pub static SENT_ONE_BY_ONE: Worked = Worked {
    lines: SENT_LINES,
    most: 1,
    told: r#"{"from":"red/c1","id":1,"ok":true}
{"from":"red/c1","id":2,"ok":true}
{"from":"red/c1","id":3,"ok":2}
{"from":"blue/c1","id":1,"ok":0}
{"from":"red/c1","id":4,"ok":2}
{"error":40,"from":"relay/red:r","text":"tenant red may not call a grain of tenant blue"}
{"from":"red/c1","id":5,"ok":2}
"#,
    end: End::After(6),
    fails_at: 0,
};

/// No send is delivered.
pub static SENT_TO_NOBODY: Worked = Worked {
    lines: SENT_LINES,
    most: 0,
    told: r#"{"from":"red/c1","id":1,"ok":true}
{"from":"red/c1","id":2,"ok":true}
{"from":"red/c1","id":3,"ok":2}
{"from":"blue/c1","id":1,"ok":0}
{"from":"red/c1","id":4,"ok":0}
{"from":"red/c1","id":5,"ok":0}
"#,
    end: End::After(6),
    fails_at: 0,
};

/// Lines that ask nothing, lines that are refused, and the clock, by which a counter goes.
pub static OTHERS: Worked = Worked {
    lines: r#"{"op":"call","from":"red/c1","id":1,"grain":"counter/red:a","method":"add","args":{"by":3}}

{"op":"deliver","grain":"relay/red:r"}
{"op":"poke","from":"red/c1","id":2,"grain":"counter/red:a","state":1,"failed":true}
hello
{"op":"tick","now":5}
{"op":"sweep"}
{"op":"tick","now":4}
{"op":"call","from":"red/c1","id":3,"grain":"counter/red:a","method":"get"}
{"op":"status","from":"green/c1","id":1}
{"op":"call","from":"red/c1","id":4,"grain":"counter/blue:a","method":"get"}
"#,
    most: 10,
    told: r#"{"from":"red/c1","id":1,"ok":3}
{"error":10,"text":"line is not a request"}
{"error":10,"text":"line is not a request"}
{"error":10,"text":"line is not a request"}
{"text":"not now"}
{"from":"red/c1","id":3,"ok":0}
{"error":21,"from":"green/c1","id":1,"text":"tenant green is unknown"}
{"error":40,"from":"red/c1","id":4,"text":"tenant red may not call a grain of tenant blue"}
"#,
    end: End::After(11),
    fails_at: 0,
};
