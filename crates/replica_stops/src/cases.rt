//! Databases that plain SQL writes, and what opening and loading them as replicas answers.

use crate::reading::{Answer, Found};
use crate::rows::{Commits, one_table};
use crate::stops::commit_both;
use replica_store::Replica;
use sqlite::{Alter, Connection, MemStore};
use std::alloc::Global;
use std::io;

const TABLES: &str = "CREATE TABLE rb_row(tab INTEGER NOT NULL, rowkey BLOB NOT NULL, \
     body BLOB NOT NULL, PRIMARY KEY (tab, rowkey)); \
     CREATE TABLE rb_mark(id INTEGER PRIMARY KEY, place INTEGER NOT NULL)";

/// Databases with the cursor 5 and one row: what the row is, and its table, its key and its body.
/// The row of 1 and 'a' has the key x'010000000000000001' and the body x'010000000000000001030161'.
const ROWS: [(&str, &str); 9] = [
    (
        "one row and a mark",
        "0, x'010000000000000001', x'010000000000000001030161'",
    ),
    ("a body that is no row", "0, x'010000000000000001', x'ff'"),
    (
        "a body with a byte too few",
        "0, x'010000000000000001', x'0100000000000000010301'",
    ),
    (
        "a row with a column too few",
        "0, x'010000000000000001', x'010000000000000001'",
    ),
    (
        "another row's key",
        "0, x'010000000000000002', x'010000000000000001030161'",
    ),
    (
        "another schema's key",
        "0, x'030161', x'010000000000000001030161'",
    ),
    (
        "a row of a table that the schema doesn't have",
        "1, x'010000000000000001', x'010000000000000001030161'",
    ),
    (
        "a row of table -1",
        "-1, x'010000000000000001', x'010000000000000001030161'",
    ),
    ("a body that is a text", "0, x'010000000000000001', 'a'"),
];

/// Other databases: what is wrong with them, and the SQL that writes them.
const OTHERS: [(&str, &str); 7] = [
    (
        "no mark",
        "INSERT INTO rb_row VALUES (0, x'010000000000000001', x'010000000000000001030161')",
    ),
    ("two marks", "INSERT INTO rb_mark VALUES (1, 5), (2, 5)"),
    ("a mark with the id 2", "INSERT INTO rb_mark VALUES (2, 5)"),
    ("the cursor -1", "INSERT INTO rb_mark VALUES (1, -1)"),
    (
        "a third table",
        "INSERT INTO rb_mark VALUES (1, 5); CREATE TABLE other (a)",
    ),
    ("a table too few", "DROP TABLE rb_mark"),
    (
        "a second index",
        "INSERT INTO rb_mark VALUES (1, 5); CREATE INDEX places ON rb_mark (place)",
    ),
];

/// Prints a line for each database.
pub fn tell_all(rt: &impl Print, alloc: Global) -> io::Result<()> {
    for (name, row) in &ROWS {
        let sql = format!(in alloc;
            "INSERT INTO rb_mark VALUES (1, 5); INSERT INTO rb_row VALUES ({row})"
        )?;
        tell(rt, alloc, name, &sql)?;
    }
    for (name, sql) in &OTHERS {
        tell(rt, alloc, name, sql)?;
    }
    Ok(())
}

// prints what a database answers that this SQL writes after the tables of a replica
fn tell(rt: &impl Print, alloc: Global, name: &str, sql: &str) -> io::Result<()> {
    let answer = Answer::of(alloc, written(alloc, sql)?)?;
    println!(rt; "{name}: {answer}")
}

// a database in memory with the tables of a replica, after this SQL
fn written(alloc: Global, sql: &str) -> io::Result<Connection<MemStore>> {
    let mut conn = Connection::open_in_memory(alloc)?;
    run(&mut conn, TABLES)?;
    run(&mut conn, sql)?;
    Ok(conn)
}

fn run<S: Alter>(conn: &mut Connection<S>, sql: &str) -> io::Result<()> {
    match conn.execute_batch(sql) {
        Ok(_) => Ok(()),
        Err(_) => Err(io::Error::other("the SQL is refused")),
    }
}

/// Prints what creating a replica in a database that has a table answers, and what one that is
/// created in memory has after two commits, and then after a `create` that is refused.
pub fn tell_created(rt: &impl Print, alloc: Global, commits: &Commits) -> io::Result<()> {
    let other = created_over(alloc, "CREATE TABLE other (a)")?;
    println!(rt; "another table: {other}")?;
    let second = created_over(alloc, TABLES)?;
    println!(rt; "a replica's tables: {second}")?;
    let found = found_in_memory(alloc, commits)?;
    println!(rt; "a replica in memory after two commits: {}", found.text())?;
    let kept = found_after_create(alloc, commits)?;
    println!(rt; "the same after a refused create: {}", kept.text())
}

// what creating a replica answers after this SQL
fn created_over(alloc: Global, sql: &str) -> io::Result<Answer> {
    let mut conn = Connection::open_in_memory(alloc)?;
    run(&mut conn, sql)?;
    Ok(match Replica::create(conn, one_table(alloc)?) {
        Ok(_) => Answer::Created,
        Err(refused) => Answer::Creating(refused.why),
    })
}

fn found_in_memory(alloc: Global, commits: &Commits) -> io::Result<Found> {
    let conn = Connection::open_in_memory(alloc)?;
    match commit_both(conn, one_table(alloc)?, commits) {
        Ok((conn, true)) => Found::by(alloc, conn, commits),
        _ => Ok(Found::Neither),
    }
}

fn found_after_create(alloc: Global, commits: &Commits) -> io::Result<Found> {
    let conn = Connection::open_in_memory(alloc)?;
    let Ok((conn, true)) = commit_both(conn, one_table(alloc)?, commits) else {
        return Ok(Found::Neither);
    };
    match Replica::create(conn, one_table(alloc)?) {
        Ok(_) => Ok(Found::Neither),
        Err(refused) => Found::by(alloc, refused.conn, commits),
    }
}
