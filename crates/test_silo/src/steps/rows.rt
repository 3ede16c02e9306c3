//! Worked rows: lines of steps, with the replies to them and what is stored after them. Each can be followed by hand.
//!
//! The tenants are red and blue, each with 2 activations of 4 waiting requests, and the age is 1,000 where a row says no
//! other. The rows are statics, since a long text in a test's own body stands in all its goals.

/// Over which rows a silo is opened.
#[derive(Clone, Copy)]
pub enum Opened {
    OverNone,
    /// The counter's row, of the last version and with 3.
    OverTheLastVersion,
    /// The sheet's row, whose state is as long as one may be.
    OverTheLongestState,
}

/// Lines, the lines of their replies, and the grains with the versions of their rows.
#[derive(Clone, Copy)]
pub struct Worked {
    pub opened: Opened,
    pub lines: &'static str,
    pub told: &'static str,
    pub stored: &'static str,
    /// The storage's call that fails, or 0.
    pub fails_at: u64,
    /// How many of its calls fail.
    pub failed: u64,
}

/// A counter is asked to add 3.
pub static FIRST_CALL: Worked = Worked {
    opened: Opened::OverNone,
    lines: r#"{"op":"call","from":"red/c1","id":1,"grain":"counter/red:a","method":"add","args":{"by":3}}
{"op":"activate","grain":"counter/red:a"}
{"op":"load","grain":"counter/red:a"}
{"op":"begin","grain":"counter/red:a"}
{"op":"end","grain":"counter/red:a","turn":1}
"#,
    told: r#"{"from":"red/c1","id":1,"ok":3}
"#,
    stored: "",
    fails_at: 0,
    failed: 0,
};

const OVERWRITTEN_LINES: &str =
    r#"{"op":"call","from":"red/c1","id":1,"grain":"counter/red:a","method":"add","args":{"by":3}}
{"op":"activate","grain":"counter/red:a"}
{"op":"load","grain":"counter/red:a"}
{"op":"begin","grain":"counter/red:a"}
{"op":"end","grain":"counter/red:a","turn":1}
{"op":"call","from":"red/c1","id":2,"grain":"counter/red:a","method":"save","args":null}
{"op":"begin","grain":"counter/red:a"}
{"op":"store","grain":"counter/red:a","turn":2}
{"op":"poke","from":"red/c1","id":3,"grain":"counter/red:a","state":10}
{"op":"call","from":"red/c1","id":4,"grain":"counter/red:a","method":"save","args":null}
{"op":"call","from":"red/c1","id":5,"grain":"counter/red:a","method":"get","args":null}
{"op":"begin","grain":"counter/red:a"}
{"op":"store","grain":"counter/red:a","turn":3}
{"op":"activate","grain":"counter/red:a"}
{"op":"load","grain":"counter/red:a"}
{"op":"begin","grain":"counter/red:a"}
{"op":"end","grain":"counter/red:a","turn":4}
"#;

/// A row that another wrote ends the activation, and what waits is answered from the row.
pub static OVERWRITTEN: Worked = Worked {
    opened: Opened::OverNone,
    lines: OVERWRITTEN_LINES,
    told: r#"{"from":"red/c1","id":1,"ok":3}
{"from":"red/c1","id":2,"ok":"1"}
{"from":"red/c1","id":3,"ok":"2"}
{"error":54,"from":"red/c1","id":4,"text":"stored state of counter/red:a has changed"}
{"from":"red/c1","id":5,"ok":10}
"#,
    stored: "counter/red:a 2\n",
    fails_at: 0,
    failed: 0,
};

const CLEARED_LINES: &str =
    r#"{"op":"call","from":"red/c1","id":1,"grain":"counter/red:a","method":"save","args":null}
{"op":"activate","grain":"counter/red:a"}
{"op":"load","grain":"counter/red:a"}
{"op":"begin","grain":"counter/red:a"}
{"op":"store","grain":"counter/red:a","turn":1}
{"op":"call","from":"red/c1","id":2,"grain":"counter/red:a","method":"clear","args":null}
{"op":"begin","grain":"counter/red:a"}
{"op":"store","grain":"counter/red:a","turn":2}
{"op":"call","from":"red/c1","id":3,"grain":"counter/red:a","method":"save","args":null}
{"op":"begin","grain":"counter/red:a"}
{"op":"store","grain":"counter/red:a","turn":3}
"#;

/// A row is written, cleared and written again.
pub static CLEARED: Worked = Worked {
    opened: Opened::OverNone,
    lines: CLEARED_LINES,
    told: r#"{"from":"red/c1","id":1,"ok":"1"}
{"from":"red/c1","id":2,"ok":"2"}
{"from":"red/c1","id":3,"ok":"3"}
"#,
    stored: "counter/red:a 3\n",
    fails_at: 0,
    failed: 0,
};

/// An idle grain goes when it is as old as the age.
pub static COLLECTED: Worked = Worked {
    opened: Opened::OverNone,
    lines: r#"{"op":"tick","now":5000}
{"op":"call","from":"red/c1","id":1,"grain":"counter/red:a","method":"add","args":{"by":3}}
{"op":"activate","grain":"counter/red:a"}
{"op":"load","grain":"counter/red:a"}
{"op":"begin","grain":"counter/red:a"}
{"op":"end","grain":"counter/red:a","turn":1}
{"op":"tick","now":5999}
{"op":"sweep"}
{"op":"status","from":"red/c1","id":2}
{"op":"tick","now":6000}
{"op":"sweep"}
{"op":"status","from":"red/c1","id":3}
{"op":"call","from":"red/c1","id":4,"grain":"counter/red:a","method":"get","args":null}
{"op":"activate","grain":"counter/red:a"}
{"op":"load","grain":"counter/red:a"}
{"op":"begin","grain":"counter/red:a"}
{"op":"end","grain":"counter/red:a","turn":2}
"#,
    told: r#"{"from":"red/c1","id":1,"ok":3}
{"from":"red/c1","id":2,"ok":{"activations":1,"clock":5999,"requests":1}}
{"from":"red/c1","id":3,"ok":{"activations":0,"clock":6000,"requests":1}}
{"from":"red/c1","id":4,"ok":0}
"#,
    stored: "",
    fails_at: 0,
    failed: 0,
};

/// What a relay sends across tenants is refused, and the refusal is a reply to the relay.
pub static ACROSS: Worked = Worked {
    opened: Opened::OverNone,
    lines: r#"{"op":"call","from":"red/c1","id":1,"grain":"relay/red:r","method":"join","args":{"grain":"counter/blue:x"}}
{"op":"activate","grain":"relay/red:r"}
{"op":"load","grain":"relay/red:r"}
{"op":"begin","grain":"relay/red:r"}
{"op":"end","grain":"relay/red:r","turn":1}
{"op":"call","from":"red/c1","id":2,"grain":"relay/red:r","method":"send","args":{"args":null,"method":"get"}}
{"op":"begin","grain":"relay/red:r"}
{"op":"end","grain":"relay/red:r","turn":2}
{"op":"deliver","grain":"relay/red:r"}
"#,
    told: r#"{"from":"red/c1","id":1,"ok":true}
{"from":"red/c1","id":2,"ok":1}
{"error":40,"from":"relay/red:r","text":"tenant red may not call a grain of tenant blue"}
"#,
    stored: "",
    fails_at: 0,
    failed: 0,
};

/// A grain is loaded twice, and the first call of the storage fails.
pub static LOADED_TWICE: Worked = Worked {
    opened: Opened::OverNone,
    lines: r#"{"op":"call","from":"red/c1","id":1,"grain":"counter/red:a","method":"get","args":null}
{"op":"activate","grain":"counter/red:a"}
{"op":"load","grain":"counter/red:a"}
{"op":"call","from":"red/c1","id":2,"grain":"counter/red:a","method":"get","args":null}
{"op":"activate","grain":"counter/red:a"}
{"op":"load","grain":"counter/red:a"}
{"op":"begin","grain":"counter/red:a"}
{"op":"end","grain":"counter/red:a","turn":2}
"#,
    told: r#"{"error":53,"from":"red/c1","id":1,"text":"storage failed"}
{"from":"red/c1","id":2,"ok":0}
"#,
    stored: "",
    fails_at: 1,
    failed: 1,
};

/// The row has the last version and 3, and is to be written.
pub static SPENT: Worked = Worked {
    opened: Opened::OverTheLastVersion,
    lines: r#"{"op":"call","from":"red/c1","id":1,"grain":"counter/red:a","method":"save","args":null}
{"op":"activate","grain":"counter/red:a"}
{"op":"load","grain":"counter/red:a"}
{"op":"begin","grain":"counter/red:a"}
{"op":"store","grain":"counter/red:a","turn":1}
{"op":"call","from":"red/c1","id":2,"grain":"counter/red:a","method":"get","args":null}
{"op":"begin","grain":"counter/red:a"}
{"op":"end","grain":"counter/red:a","turn":2}
"#,
    told: r#"{"error":56,"from":"red/c1","id":1,"text":"versions of counter/red:a are spent"}
{"from":"red/c1","id":2,"ok":3}
"#,
    stored: "counter/red:a 18446744073709551615\n",
    fails_at: 0,
    failed: 0,
};

/// The lines of `CLEARED`, where the storage's first call fails, or its second, and so on. There is no fifth.
pub static CLEARED_BUT: [Worked; 5] = [
    Worked {
        opened: Opened::OverNone,
        lines: CLEARED_LINES,
        told: r#"{"error":53,"from":"red/c1","id":1,"text":"storage failed"}
{"text":"not now"}
{"text":"not now"}
{"text":"not now"}
{"text":"not now"}
{"text":"not now"}
{"text":"not now"}
"#,
        stored: "",
        fails_at: 1,
        failed: 1,
    },
    Worked {
        opened: Opened::OverNone,
        lines: CLEARED_LINES,
        told: r#"{"error":53,"from":"red/c1","id":1,"text":"storage failed"}
{"from":"red/c1","id":2,"ok":null}
{"from":"red/c1","id":3,"ok":"1"}
"#,
        stored: "counter/red:a 1\n",
        fails_at: 2,
        failed: 1,
    },
    Worked {
        opened: Opened::OverNone,
        lines: CLEARED_LINES,
        told: r#"{"from":"red/c1","id":1,"ok":"1"}
{"error":53,"from":"red/c1","id":2,"text":"storage failed"}
{"from":"red/c1","id":3,"ok":"2"}
"#,
        stored: "counter/red:a 2\n",
        fails_at: 3,
        failed: 1,
    },
    Worked {
        opened: Opened::OverNone,
        lines: CLEARED_LINES,
        told: r#"{"from":"red/c1","id":1,"ok":"1"}
{"from":"red/c1","id":2,"ok":"2"}
{"error":53,"from":"red/c1","id":3,"text":"storage failed"}
"#,
        stored: "counter/red:a 2\n",
        fails_at: 4,
        failed: 1,
    },
    Worked {
        opened: Opened::OverNone,
        lines: CLEARED_LINES,
        told: r#"{"from":"red/c1","id":1,"ok":"1"}
{"from":"red/c1","id":2,"ok":"2"}
{"from":"red/c1","id":3,"ok":"3"}
"#,
        stored: "counter/red:a 3\n",
        fails_at: 5,
        failed: 0,
    },
];

/// The lines of `OVERWRITTEN`, where the storage's first call fails, or its second, and so on: 1 loads, 2 saves, 3 is the
/// poke, 4 saves and 5 loads again. There is no sixth.
pub static OVERWRITTEN_BUT: [Worked; 6] = [
    Worked {
        opened: Opened::OverNone,
        lines: OVERWRITTEN_LINES,
        told: r#"{"error":53,"from":"red/c1","id":1,"text":"storage failed"}
{"text":"not now"}
{"text":"not now"}
{"text":"not now"}
{"text":"not now"}
{"from":"red/c1","id":3,"ok":"1"}
{"text":"not now"}
{"text":"not now"}
{"text":"not now"}
"#,
        stored: "counter/red:a 1\n",
        fails_at: 1,
        failed: 1,
    },
    Worked {
        opened: Opened::OverNone,
        lines: OVERWRITTEN_LINES,
        told: r#"{"from":"red/c1","id":1,"ok":3}
{"error":53,"from":"red/c1","id":2,"text":"storage failed"}
{"from":"red/c1","id":3,"ok":"1"}
{"error":54,"from":"red/c1","id":4,"text":"stored state of counter/red:a has changed"}
{"from":"red/c1","id":5,"ok":10}
"#,
        stored: "counter/red:a 1\n",
        fails_at: 2,
        failed: 1,
    },
    Worked {
        opened: Opened::OverNone,
        lines: OVERWRITTEN_LINES,
        told: r#"{"from":"red/c1","id":1,"ok":3}
{"from":"red/c1","id":2,"ok":"1"}
{"error":53,"from":"red/c1","id":3,"text":"storage failed"}
{"from":"red/c1","id":4,"ok":"2"}
{"text":"not now"}
{"text":"not now"}
{"from":"red/c1","id":5,"ok":3}
"#,
        stored: "counter/red:a 2\n",
        fails_at: 3,
        failed: 1,
    },
    Worked {
        opened: Opened::OverNone,
        lines: OVERWRITTEN_LINES,
        told: r#"{"from":"red/c1","id":1,"ok":3}
{"from":"red/c1","id":2,"ok":"1"}
{"from":"red/c1","id":3,"ok":"2"}
{"error":53,"from":"red/c1","id":4,"text":"storage failed"}
{"text":"not now"}
{"text":"not now"}
{"from":"red/c1","id":5,"ok":3}
"#,
        stored: "counter/red:a 2\n",
        fails_at: 4,
        failed: 1,
    },
    Worked {
        opened: Opened::OverNone,
        lines: OVERWRITTEN_LINES,
        told: r#"{"from":"red/c1","id":1,"ok":3}
{"from":"red/c1","id":2,"ok":"1"}
{"from":"red/c1","id":3,"ok":"2"}
{"error":54,"from":"red/c1","id":4,"text":"stored state of counter/red:a has changed"}
{"error":53,"from":"red/c1","id":5,"text":"storage failed"}
{"text":"not now"}
{"text":"not now"}
"#,
        stored: "counter/red:a 2\n",
        fails_at: 5,
        failed: 1,
    },
    Worked {
        opened: Opened::OverNone,
        lines: OVERWRITTEN_LINES,
        told: r#"{"from":"red/c1","id":1,"ok":3}
{"from":"red/c1","id":2,"ok":"1"}
{"from":"red/c1","id":3,"ok":"2"}
{"error":54,"from":"red/c1","id":4,"text":"stored state of counter/red:a has changed"}
{"from":"red/c1","id":5,"ok":10}
"#,
        stored: "counter/red:a 2\n",
        fails_at: 6,
        failed: 0,
    },
];

/// A call is refused for its argument, and the turn of another is abandoned.
pub static ABANDONED: Worked = Worked {
    opened: Opened::OverNone,
    lines: r#"{"op":"call","from":"red/c1","id":1,"grain":"counter/red:a","method":"get","args":1.5}
{"op":"call","from":"red/c1","id":2,"grain":"counter/red:a","method":"get","args":null}
{"op":"activate","grain":"counter/red:a"}
{"op":"load","grain":"counter/red:a"}
{"op":"begin","grain":"counter/red:a"}
{"op":"abandon","grain":"counter/red:a","turn":1}
"#,
    told: r#"{"error":13,"from":"red/c1","id":1,"text":"number is not a whole number of 64 bits"}
{"error":70,"from":"red/c1","id":2,"text":"turn met want of memory"}
"#,
    stored: "",
    fails_at: 0,
    failed: 0,
};

/// A relay sends to its two members, and the one of another tenant is refused.
pub static SENT: Worked = Worked {
    opened: Opened::OverNone,
    lines: r#"{"from":"red/c1","id":1,"op":"call","grain":"relay/red:r","method":"join","args":{"grain":"counter/red:a"}}
{"from":"red/c1","id":2,"op":"call","grain":"relay/red:r","method":"join","args":{"grain":"counter/blue:a"}}
{"from":"red/c1","id":3,"op":"call","grain":"relay/red:r","method":"send","args":{"args":{"by":2},"method":"add"}}
{"op":"activate","grain":"relay/red:r"}
{"op":"load","grain":"relay/red:r"}
{"op":"begin","grain":"relay/red:r"}
{"op":"end","grain":"relay/red:r","turn":1}
{"op":"begin","grain":"relay/red:r"}
{"op":"end","grain":"relay/red:r","turn":2}
{"op":"begin","grain":"relay/red:r"}
{"op":"end","grain":"relay/red:r","turn":3}
{"op":"deliver","grain":"relay/red:r"}
{"op":"deliver","grain":"relay/red:r"}
{"op":"activate","grain":"counter/red:a"}
{"op":"load","grain":"counter/red:a"}
{"op":"begin","grain":"counter/red:a"}
{"op":"end","grain":"counter/red:a","turn":4}
{"from":"red/c1","id":4,"op":"call","grain":"counter/red:a","method":"get"}
{"op":"begin","grain":"counter/red:a"}
{"op":"end","grain":"counter/red:a","turn":5}
"#,
    told: r#"{"from":"red/c1","id":1,"ok":true}
{"from":"red/c1","id":2,"ok":true}
{"from":"red/c1","id":3,"ok":2}
{"error":40,"from":"relay/red:r","text":"tenant red may not call a grain of tenant blue"}
{"from":"red/c1","id":4,"ok":2}
"#,
    stored: "",
    fails_at: 0,
    failed: 0,
};

/// A counter is called by a method that it hasn't, with an argument that doesn't fit, and to add more than 64 bits
/// hold.
pub static REFUSED_METHODS: Worked = Worked {
    opened: Opened::OverNone,
    lines: r#"{"op":"call","from":"red/c1","id":1,"grain":"counter/red:a","method":"fly","args":null}
{"op":"call","from":"red/c1","id":2,"grain":"counter/red:a","method":"add","args":{"by":"x"}}
{"op":"call","from":"red/c1","id":3,"grain":"counter/red:a","method":"add","args":{"by":9223372036854775807}}
{"op":"call","from":"red/c1","id":4,"grain":"counter/red:a","method":"add","args":{"by":1}}
{"op":"activate","grain":"counter/red:a"}
{"op":"load","grain":"counter/red:a"}
{"op":"begin","grain":"counter/red:a"}
{"op":"end","grain":"counter/red:a","turn":1}
{"op":"begin","grain":"counter/red:a"}
{"op":"end","grain":"counter/red:a","turn":2}
{"op":"begin","grain":"counter/red:a"}
{"op":"end","grain":"counter/red:a","turn":3}
{"op":"begin","grain":"counter/red:a"}
{"op":"end","grain":"counter/red:a","turn":4}
"#,
    told: r#"{"error":60,"from":"red/c1","id":1,"text":"method is unknown"}
{"error":61,"from":"red/c1","id":2,"text":"arguments do not fit"}
{"from":"red/c1","id":3,"ok":9223372036854775807}
{"error":62,"from":"red/c1","id":4,"text":"result is out of range"}
"#,
    stored: "",
    fails_at: 0,
    failed: 0,
};

/// A sheet whose state has no room for a name more is asked to put one.
pub static TOO_LARGE: Worked = Worked {
    opened: Opened::OverTheLongestState,
    lines: r#"{"op":"call","from":"red/c1","id":1,"grain":"sheet/red:s","method":"put","args":{"name":"b","value":null}}
{"op":"activate","grain":"sheet/red:s"}
{"op":"load","grain":"sheet/red:s"}
{"op":"begin","grain":"sheet/red:s"}
{"op":"end","grain":"sheet/red:s","turn":1}
"#,
    told: r#"{"error":63,"from":"red/c1","id":1,"text":"state is too large"}
"#,
    stored: "sheet/red:s 1\n",
    fails_at: 0,
    failed: 0,
};

/// A counter and a sheet are idle for 10, after which counters go, and sheets not yet.
pub static ONE_KIND_GOES: Worked = Worked {
    opened: Opened::OverNone,
    lines: r#"{"op":"tick","now":100}
{"op":"call","from":"red/c1","id":1,"grain":"counter/red:a","method":"add","args":{"by":3}}
{"op":"call","from":"red/c1","id":2,"grain":"sheet/red:s","method":"list","args":null}
{"op":"activate","grain":"counter/red:a"}
{"op":"load","grain":"counter/red:a"}
{"op":"activate","grain":"sheet/red:s"}
{"op":"load","grain":"sheet/red:s"}
{"op":"begin","grain":"counter/red:a"}
{"op":"end","grain":"counter/red:a","turn":1}
{"op":"begin","grain":"sheet/red:s"}
{"op":"end","grain":"sheet/red:s","turn":2}
{"op":"tick","now":110}
{"op":"sweep"}
{"op":"status","from":"red/c1","id":3}
"#,
    told: r#"{"from":"red/c1","id":1,"ok":3}
{"from":"red/c1","id":2,"ok":[]}
{"from":"red/c1","id":3,"ok":{"activations":1,"clock":110,"requests":2}}
"#,
    stored: "",
    fails_at: 0,
    failed: 0,
};

/// A counter stays for 50, and grains go when they are idle for 10.
pub static STAYS: Worked = Worked {
    opened: Opened::OverNone,
    lines: r#"{"op":"tick","now":100}
{"op":"call","from":"red/c1","id":1,"grain":"counter/red:a","method":"stay","args":{"for":50}}
{"op":"activate","grain":"counter/red:a"}
{"op":"load","grain":"counter/red:a"}
{"op":"begin","grain":"counter/red:a"}
{"op":"end","grain":"counter/red:a","turn":1}
{"op":"tick","now":149}
{"op":"sweep"}
{"op":"status","from":"red/c1","id":2}
{"op":"tick","now":150}
{"op":"sweep"}
{"op":"status","from":"red/c1","id":3}
"#,
    told: r#"{"from":"red/c1","id":1,"ok":null}
{"from":"red/c1","id":2,"ok":{"activations":1,"clock":149,"requests":1}}
{"from":"red/c1","id":3,"ok":{"activations":0,"clock":150,"requests":1}}
"#,
    stored: "",
    fails_at: 0,
    failed: 0,
};

const RESTS_LINES: &str =
    r#"{"op":"call","from":"red/c1","id":1,"grain":"counter/red:a","method":"rest","args":null}
{"op":"call","from":"red/c1","id":2,"grain":"counter/red:a","method":"add","args":{"by":3}}
{"op":"activate","grain":"counter/red:a"}
{"op":"load","grain":"counter/red:a"}
{"op":"begin","grain":"counter/red:a"}
{"op":"end","grain":"counter/red:a","turn":1}
{"op":"status","from":"red/c1","id":3}
{"op":"begin","grain":"counter/red:a"}
{"op":"end","grain":"counter/red:a","turn":2}
{"op":"status","from":"red/c1","id":4}
"#;

/// A counter rests while a request waits, and goes when that is answered.
pub static RESTS: Worked = Worked {
    opened: Opened::OverNone,
    lines: RESTS_LINES,
    told: r#"{"from":"red/c1","id":1,"ok":null}
{"from":"red/c1","id":3,"ok":{"activations":1,"clock":0,"requests":2}}
{"from":"red/c1","id":2,"ok":3}
{"from":"red/c1","id":4,"ok":{"activations":0,"clock":0,"requests":2}}
"#,
    stored: "",
    fails_at: 0,
    failed: 0,
};

/// The lines of `RESTS`, where grains don't know how to.
pub static KNOWS_NO_REST: Worked = Worked {
    opened: Opened::OverNone,
    lines: RESTS_LINES,
    told: r#"{"error":60,"from":"red/c1","id":1,"text":"method is unknown"}
{"from":"red/c1","id":3,"ok":{"activations":1,"clock":0,"requests":2}}
{"from":"red/c1","id":2,"ok":3}
{"from":"red/c1","id":4,"ok":{"activations":1,"clock":0,"requests":2}}
"#,
    stored: "",
    fails_at: 0,
    failed: 0,
};

/// A call of a counter to add 3, which waits for its turn.
pub static ADD_3: &str =
    r#"{"op":"call","from":"red/c1","id":1,"grain":"counter/red:a","method":"add","args":{"by":3}}
{"op":"activate","grain":"counter/red:a"}
{"op":"load","grain":"counter/red:a"}
"#;

/// A call of a counter to add 4, which waits for its turn.
pub static ADD_4: &str =
    r#"{"op":"call","from":"red/c1","id":1,"grain":"counter/red:a","method":"add","args":{"by":4}}
{"op":"activate","grain":"counter/red:a"}
{"op":"load","grain":"counter/red:a"}
"#;

/// No step.
pub static NOTHING: Worked = Worked {
    opened: Opened::OverNone,
    lines: "",
    told: "",
    stored: "",
    fails_at: 0,
    failed: 0,
};
