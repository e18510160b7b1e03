//! Changesets applied by several appliers. Each case is data with its answer, which `Tables::apply`
//! must give too. A gate shows that the shards are planned at once.

ghost use Rattle.std.specs.Prelude.{◌<◌, ◌≤◌};

use crate::given::insert;
use crate::recorded::{FIFTH, FOURTH, THREE};
use cs_apply::{ApplyError, Tables};
use cs_model::{Changeset, CopyIn, Schema, Seq, Shape};
use cs_parse::parse;
use par_apply::{Gate, Open, apply_split, split};
use std::alloc::{AllocError, Global};
use std::process::Abort;
use std::sync::Arc;
use std::sync::atomic::{AtomicBool, AtomicUsize, Ordering};
use std::test::Fail;
use std::thread::{Threads, sleep};
use std::time::{Clock, Duration};

// after this many turns, each of a millisecond or more, a shard waits no longer, and the test fails
const MOST_TURNS: u64 = 5_000;

// What is applied first, and a changeset in parts, all in hexadecimal. Then the position and the
// kind of its conflict, and the rows in the end: the key and the values of each.
#[derive(Drop)]
struct ApplierCase {
    first: &'static str,
    changeset: [&'static str; 3],
    conflict: Option<(usize, u8)>,
    rows: &'static str,
}

const HEADER: &str = "540201007400";

// the INSERT and the DELETE of (1, 'x')
const ONE: &str = "5402010074001200010000000000000001030178";

const GONE: &str = "5402010074000900010000000000000001030178";

// Cases of a table of two columns, the first of which is its key.
const CASES: [ApplierCase; 3] = [
    // the greatest key and the least one
    ApplierCase {
        first: "",
        changeset: [
            HEADER,
            "1200018000000000000000030161",
            "1200017fffffffffffffff030162",
        ],
        conflict: None,
        rows: "\
017fffffffffffffff 017fffffffffffffff030162
018000000000000000 018000000000000000030161
",
    },
    // keys 10 to 15, of which 12 and 15 are there
    ApplierCase {
        first: "540201007400120001000000000000000c030178120001000000000000000f030178",
        changeset: [
            "540201007400120001000000000000000a030178120001000000000000000b030178",
            "120001000000000000000c030178120001000000000000000d030178",
            "120001000000000000000e030178120001000000000000000f030178",
        ],
        conflict: Some((2, 3)),
        rows: "\
01000000000000000c 01000000000000000c030178
01000000000000000f 01000000000000000f030178
",
    },
    // DELETE and INSERT of one key
    ApplierCase {
        first: ONE,
        changeset: [GONE, "1200010000000000000001030179", ""],
        conflict: None,
        rows: "010000000000000001 010000000000000001030179\n",
    },
];

// Single changes that conflict with row (1, 'x'), and the kind: its INSERT; UPDATE and DELETE of
// (1, 'y'); and UPDATE and DELETE of row 2.
const SINGLE: [(&str, u8); 5] = [
    ("1200010000000000000001030178", 3),
    ("17000100000000000000010301790003017a", 1),
    ("0900010000000000000001030179", 1),
    ("17000100000000000000020301780003017a", 2),
    ("0900010000000000000002030178", 2),
];

// Cases of what SQLite recorded.
const RECORDED: [ApplierCase; 2] = [
    // the rows that SQLite had
    ApplierCase {
        first: "",
        changeset: [THREE, FOURTH, FIFTH],
        conflict: None,
        rows: "\
01000000000000000a 0100000000000001000100000000000000ff01000000000000000a
010000000000000012 01000000000000010005010000000000000012
01ffffffffffffffe2 04010001000000000000000301ffffffffffffffe2
01fffffffffffffffb 0100000000000000ff0410000102030405060708090a0b0c0d0e0f01fffffffffffffffb
030100 03044e554c4c01ffffffffffffffee030100
0301c3 01000000000000000a04030102030301c3
0303610062 03017903044e554c4c0303610062
",
    },
    // the INSERT of a key that is there, between the fourth and the fifth
    ApplierCase {
        first: THREE,
        changeset: [FOURTH, "54030000017400120005050301c3", FIFTH],
        conflict: Some((6, 3)),
        rows: "\
010000000000000012 0100000000000000000303616263010000000000000012
030100 010000000000000080018000000000000000030100
0301c3 0100000000000000000100000000000000120301c3
",
    },
];

#[test]
fn appliers_answer_as_one(rt: HostRuntime) -> Result<(), Fail> {
    for case in &CASES {
        goes(&rt, rt.alloc(), &[1, 0], case)?;
    }
    for (change, kind) in SINGLE {
        let case = ApplierCase {
            first: ONE,
            changeset: [HEADER, change, ""],
            conflict: Some((0, kind)),
            rows: "010000000000000001 010000000000000001030178\n",
        };
        goes(&rt, rt.alloc(), &[1, 0], &case)?;
    }
    for case in &RECORDED {
        goes(&rt, rt.alloc(), &[0, 0, 1], case)?;
    }
    Ok(())
}

// an empty table `t` with these key flags
fn tables(alloc: Global, flags: &[u8]) -> Result<Tables, Fail> {
    let name = Seq::from_slice(alloc, b"t")?;
    let flags = Seq::from_slice(alloc, flags)?;
    let mut shapes = Vec::new(alloc);
    shapes.push(Shape { name, flags })?;
    let schema = Schema::new(shapes)?;
    let kept = vec![in alloc; true; schema.tables().len()]?;
    Ok(Tables::new(alloc, Arc::new(alloc, schema)?, kept))
}

// the changeset of these parts
fn changeset(alloc: Global, parts: &[&str]) -> Result<Changeset, Fail> {
    let mut text = Vec::new(alloc);
    for part in parts {
        text.extend_from_slice(&hex::decode(alloc, *part)?)?;
    }
    Ok(parse(alloc, &text)?)
}

// each row on a line: its key and its values
fn listed(alloc: Global, tables: &Tables) -> Result<String, Fail> {
    let mut text = String::new(alloc);
    for (key, row) in tables.rows_in_order(alloc)? {
        let key: &[u8] = &key.bytes;
        text.push_str(&hex::encode(alloc, key)?)?;
        text.push_str(" ")?;
        text.push_str(&hex::encode(alloc, row.bytes())?)?;
        text.push_str("\n")?;
    }
    Ok(text)
}

// a case by `Tables::apply`, and by so many appliers
fn goes<R: Threads + Abort + Sync>(
    rt: &R,
    alloc: Global,
    flags: &[u8],
    case: &ApplierCase,
) -> Result<(), Fail> {
    let mut given = tables(alloc, flags)?;
    given.apply(alloc, &changeset(alloc, &[case.first])?)?;
    let changeset = changeset(alloc, &case.changeset)?;
    let mut tables = given.copy_in(alloc)?;
    let answer = tables.apply(alloc, &changeset);
    ends(rt, alloc, case, &given, &tables, answer)?;
    for n in [1, 2, 4, 16] {
        assert!(rt; 0 < n && n <= 16);
        let mut tables = given.copy_in(alloc)?;
        let answer = apply_split(rt, alloc, &mut tables, &changeset, n, &Open);
        ends(rt, alloc, case, &given, &tables, answer)?;
    }
    Ok(())
}

// The answer is the case's, and so are the rows. If memory ran out, they are as before.
fn ends<R: Abort>(
    rt: &R,
    alloc: Global,
    case: &ApplierCase,
    given: &Tables,
    tables: &Tables,
    answer: Result<(), ApplyError>,
) -> Result<(), Fail> {
    let rows = listed(alloc, tables)?;
    let conflict = match answer {
        Ok(()) => None,
        Err(ApplyError::Conflict(first)) => Some((first.position, first.kind.code())),
        Err(ApplyError::Memory) => {
            assert_eq!(rt; rows.as_str(), listed(alloc, given)?.as_str());
            return Err(AllocError.into());
        }
    };
    assert_eq!(rt; conflict, case.conflict);
    assert_eq!(rt; rows.as_str(), case.rows);
    Ok(())
}

// Holds each shard until all have entered, and counts how often each has.
#[derive(Drop)]
struct Meeting<'a, R> {
    rt: &'a R,
    entered: Vec<AtomicUsize>,
    is_late: AtomicBool,
}

impl<'a, R> Meeting<'a, R> {
    fn new(rt: &'a R, alloc: Global, shards: usize) -> Result<Meeting<'a, R>, AllocError> {
        let mut entered = Vec::new(alloc);
        for _ in 0..shards {
            entered.push(AtomicUsize::new(0))?;
        }
        Ok(Meeting {
            rt,
            entered,
            is_late: AtomicBool::new(false),
        })
    }

    fn have_all_entered(&self) -> bool {
        for times in &self.entered {
            if times.load(Ordering::SeqCst) == 0 {
                return false;
            }
        }
        true
    }
}

impl<R: Clock + Sync> Gate for Meeting<'_, R> {
    fn enter(&self, shard: usize) {
        if let Some(times) = self.entered.get(shard) {
            times.fetch_add(1, Ordering::SeqCst);
        }
        for _ in 0..MOST_TURNS {
            if self.have_all_entered() || self.is_late.load(Ordering::SeqCst) {
                return;
            }
            sleep(self.rt, Duration::from_millis(1));
        }
        self.is_late.store(true, Ordering::SeqCst);
    }
}

#[test]
fn appliers_run_at_once(rt: HostRuntime) -> Result<(), Fail> {
    meet(&rt, rt.alloc(), 1)?;
    meet(&rt, rt.alloc(), 2)?;
    meet(&rt, rt.alloc(), 16)
}

// the INSERTs of keys 1 to n
fn inserts(alloc: Global, n: usize) -> Result<Changeset, Fail> {
    let mut text = Vec::new(alloc);
    for key in 1..=n {
        text.extend_from_slice(&insert(key as u64))?;
    }
    Ok(parse(alloc, &text)?)
}

// keys 1 to n, each of another shard
fn meet<R: Threads + Clock + Abort + Sync>(rt: &R, alloc: Global, n: usize) -> Result<(), Fail>
    requires some { 0 < n }
    requires few { n ≤ 16 }
{
    let mut tables = tables(alloc, &[1, 0])?;
    let changeset = inserts(alloc, n)?;
    have_one_each(rt, &split(rt, alloc, &changeset, tables.schema(), n)?);
    let meeting = Meeting::new(rt, alloc, n)?;
    apply_split(rt, alloc, &mut tables, &changeset, n, &meeting)?;
    assert_eq!(rt; tables.rows_in_order(alloc)?.len(), n);
    have_met(rt, &meeting)
}

fn have_one_each<R: Abort>(rt: &R, shards: &[Vec<usize>]) {
    for positions in shards {
        assert_eq!(rt; positions.len(), 1);
    }
}

// Each shard has entered once, and none waited in vain.
fn have_met<R: Abort>(rt: &R, meeting: &Meeting<R>) -> Result<(), Fail> {
    for times in &meeting.entered {
        assert_eq!(rt; times.load(Ordering::SeqCst), 1);
    }
    // memory for a thread may run out: then one shard is planned after another
    if meeting.is_late.load(Ordering::SeqCst) {
        return Err(Fail::new("the shards aren't planned at once"));
    }
    Ok(())
}
