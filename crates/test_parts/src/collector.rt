//! Notes that are replaced and dropped, and the grains that are due between.

use crate::rows::{Fields, Subject, hold, put};
use crate::values::grain;
use grain_id::{GrainId, HashSeed};
use idle_collector::Collector;
use std::alloc::Global;
use std::test::Fail;

/// A grain is due from the moment of its note on.
static NOTES: &str = "
# A later note takes the place of an earlier one.
new | nothing
note | counter/red:a | 7 | nothing
note | counter/red:b | 5 | nothing
note | counter/red:a | 11 | nothing
due | 9 | counter/red:b;
due | 11 | counter/red:a;counter/red:b;
forget | counter/red:a | nothing
due | 11 | counter/red:b;

# Due grains ascend, whatever their moments.
new | nothing
note | counter/red:c | 11 | nothing
note | counter/blue:z | 13 | nothing
note | counter/red:a | 12 | nothing
note | counter/red:b | 14 | nothing
due | 10 | nothing
due | 13 | counter/blue:z;counter/red:a;counter/red:c;

# Notes of one moment stay apart.
new | nothing
note | counter/red:b | 7 | nothing
note | counter/red:a | 7 | nothing
note | counter/red:b | 7 | nothing
due | 7 | counter/red:a;counter/red:b;
forget | counter/red:b | nothing
forget | counter/red:b | nothing
note | counter/red:c | 7 | nothing
due | 7 | counter/red:a;counter/red:c;
note | counter/red:a | 6 | nothing
forget | counter/red:a | nothing
due | 7 | counter/red:c;

# Notes of two moments in turn, as where two kinds have an age of their own.
new | nothing
note | counter/red:a | 7 | nothing
note | sheet/red:a | 9 | nothing
note | counter/red:b | 7 | nothing
note | sheet/red:b | 9 | nothing
due | 6 | nothing
due | 7 | counter/red:a;counter/red:b;
due | 9 | counter/red:a;counter/red:b;sheet/red:a;sheet/red:b;
forget | sheet/red:b | nothing
forget | sheet/red:b | nothing
forget | counter/red:a | nothing
note | counter/red:b | 9 | nothing
due | 9 | counter/red:b;sheet/red:a;

# A grain whose note was dropped is noted again, at the same moment and at another one.
new | nothing
note | counter/red:a | 7 | nothing
forget | counter/red:a | nothing
due | 9 | nothing
note | counter/red:a | 7 | nothing
note | counter/red:b | 7 | nothing
forget | counter/red:a | nothing
note | counter/red:a | 9 | nothing
due | 8 | counter/red:b;
due | 9 | counter/red:a;counter/red:b;
";

/// A collector, and whether the next one has another seed.
#[derive(Drop)]
struct Notes {
    collector: Collector,
    seeded: bool,
}

fn new(alloc: Global, seeded: bool) -> Collector {
    if seeded {
        return Collector::seeded(alloc, HashSeed::new(7));
    }
    Collector::new(alloc)
}

fn put_grains(grains: &[GrainId], out: &mut String) -> Result<(), Fail> {
    for grain in grains {
        put(out, grain.text())?;
    }
    Ok(())
}

fn note(alloc: Global, collector: &mut Collector, fields: &mut Fields<'_>) -> Result<(), Fail> {
    let grain = grain(alloc, fields.text())?;
    Ok(collector.note(grain, fields.number()?)?)
}

fn forget(alloc: Global, collector: &mut Collector, id: &str) -> Result<(), Fail> {
    let grain = grain(alloc, id)?;
    collector.forget(&grain);
    Ok(())
}

/// Writes the grains that are due at the moment of a row.
fn put_due(
    alloc: Global,
    collector: &Collector,
    fields: &mut Fields<'_>,
    out: &mut String,
) -> Result<(), Fail> {
    put_grains(&collector.due(alloc, fields.number()?)?, out)
}

impl Subject for Notes {
    fn answer(
        &mut self,
        alloc: Global,
        call: &str,
        fields: &mut Fields<'_>,
        out: &mut String,
    ) -> Result<(), Fail> {
        match call {
            "note" => note(alloc, &mut self.collector, fields),
            "forget" => forget(alloc, &mut self.collector, fields.text()),
            "due" => put_due(alloc, &self.collector, fields, out),
            _ => {
                self.collector = new(alloc, self.seeded);
                Ok(())
            }
        }
    }
}

fn holds(alloc: Global, seeded: bool) -> Result<(), Fail> {
    let collector = new(alloc, seeded);
    hold(alloc, &mut Notes { collector, seeded }, NOTES)
}

#[test]
fn grains_are_due_by_their_last_notes(rt: HostRuntime) -> Result<(), Fail> {
    holds(rt.alloc(), false)?;
    holds(rt.alloc(), true)
}
