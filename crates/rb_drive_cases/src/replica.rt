//! The replica in a database, as lines.

use cs_apply::Tables;
use cs_model::{Schema, SchemaError};
use rb_case_files::lines;
use rb_script::{header_in, octets};
use replica_store::{Replica, ReplicaError};
use sqlite::{Alter, Connection, Error};
use std::alloc::{AllocError, Global};
use std::fmt::Write;
use std::sync::Arc;

/// Opens the replica of a drive with this input, and loads it. Returns its lines: `cursor N`, then
/// `row TABLE KEY BODY` for each row, by table and key, with key and body in hexadecimal.
pub fn replica_lines<S: Alter + Drop>(
    alloc: Global,
    input: &[u8],
    file: Result<Connection<S>, Error>,
) -> Result<String, ReplicaError> {
    let schema = Arc::new(alloc, tables_of(alloc, input)?)?;
    let Ok(conn) = file else {
        return Err(ReplicaError::Store);
    };
    let (tables, cursor) = loaded(alloc, conn, schema)?;
    Ok(text_of(alloc, &tables, cursor)?)
}

fn loaded<S: Alter + Drop>(
    alloc: Global,
    conn: Connection<S>,
    schema: Arc<Schema>,
) -> Result<(Tables, u64), ReplicaError> {
    match Replica::open(conn, schema) {
        Ok(mut replica) => replica.load(alloc),
        Err(refused) => Err(refused.why),
    }
}

// the tables that an input begins with
fn tables_of(alloc: Global, input: &[u8]) -> Result<Schema, ReplicaError> {
    let table: &[u8] = b"table ";
    let mut schema = Schema::empty(alloc);
    for line in lines(alloc, input)? {
        if let Some(word) = line.strip_prefix(table) {
            add_table(alloc, &mut schema, word)?;
        }
    }
    Ok(schema)
}

fn add_table(alloc: Global, schema: &mut Schema, word: &[u8]) -> Result<(), ReplicaError> {
    let Some(bytes) = octets(alloc, word)? else {
        return Err(ReplicaError::Unusable);
    };
    let Some(shape) = header_in(alloc, &bytes)? else {
        return Err(ReplicaError::Unusable);
    };
    match schema.add(shape) {
        Ok(()) => Ok(()),
        Err(SchemaError::Memory) => Err(ReplicaError::Memory),
        Err(SchemaError::Fault(_)) => Err(ReplicaError::Unusable),
    }
}

fn text_of(alloc: Global, tables: &Tables, cursor: u64) -> Result<String, AllocError> {
    let mut text = format!(in alloc; "cursor {cursor}\n")?;
    for (key, row) in tables.rows_in_order(alloc)? {
        let bytes: &[u8] = &key.bytes;
        let hex = hex::encode(alloc, bytes)?;
        let body = hex::encode(alloc, row.bytes())?;
        text.push_str(&format!(in alloc; "row {} {hex} {body}\n", key.table)?)?;
    }
    Ok(text)
}
