//! Writes what a drive came to.

ghost use Rattle.std.specs.Prelude.{◌≡◌, ◌++◌, ◌∷◌, [], map, IfOk, OnErr, OnOk, string_bytes};
ghost use Rattle.std.specs.FinMap as map;
ghost use Rattle.std.specs.Io.KnownBytes.{Appends};
ghost use Rattle.std.specs.List.{flat_map};
ghost use Rattle.cs_apply.specs.Seen.{listed};
ghost use Rattle.rb_script.specs.Streams.{AppendsFront};
ghost use Rattle.rb_script.specs.Texts.{row_text};
ghost use Rattle.rb_drive.specs.Outcome.{reported, subscriber_of};
ghost use Rattle.rb_drive.specs.Report.{all_rows_text, row_count_text};
ghost use Rattle.rb_drive.specs.Report.{counts_text, cursor_text, end_error_text, ending_text};
ghost use Rattle.rb_drive.specs.Report.{faulty_text, report_text, subscriber_text};
ghost use Rattle.rb_drive.specs.Report.{subscribers_text};

use crate::accepting::EndedSubscriber;
use crate::drive::Outcome;
use crate::ending::SubscriberEnd;
use crate::publishing::FaultyLine;
use cs_apply::Tables;
use cs_model::{Row, RowKey, SectionFault};
use cs_parse::EndError;
use rb_broker::BrokerBrand;
use rb_script::{add_row, flush, name_of, write_whole};
use std::alloc::{AllocError, Global};
use std::io;
use std::io::Write;

/// Writes the counts, the faulty lines by rising number, and each subscriber with its rows. An
/// `Err` has written a prefix.
pub fn write_report<L: BrokerBrand, W: Write>(
    alloc: Global,
    writer: &mut W,
    outcome: &Outcome<L>,
) -> io::Result<()>
    ensures ok { OnOk result (Appends (W.contents writer.old) (W.contents writer.new)
        (report_text (reported outcome.now))) }
    ensures err { OnErr result (AppendsFront (W.contents writer.old) (W.contents writer.new)
        (report_text (reported outcome.now))) }
{
    let (placed, left, unsent) = (outcome.placed, outcome.left, outcome.unsent);
    let head = head(alloc, placed, left, unsent, &outcome.faulty)?;
    write_with_subscribers(alloc, writer, &head, &outcome.accepting)
}

// the text, then each subscriber and its rows
#[tactic(auto, using(crate::proofs::outcomes::ReportLaws::report_fronts))]
fn write_with_subscribers<L: BrokerBrand, W: Write>(
    alloc: Global,
    writer: &mut W,
    text: &[u8],
    all: &[EndedSubscriber<L>],
) -> io::Result<()>
    ensures ok { OnOk result (Appends (W.contents writer.old) (W.contents writer.new)
        (text.now ++ subscribers_text 0 (map subscriber_of all.now))) }
    ensures err { OnErr result (AppendsFront (W.contents writer.old) (W.contents writer.new)
        (text.now ++ subscribers_text 0 (map subscriber_of all.now))) }
{
    write_whole(writer, text)?;
    write_subscribers(alloc, writer, all)?;
    flush(writer)
}

// the counts and the faulty lines
fn head(
    alloc: Global,
    placed: u64,
    left: u64,
    unsent: u64,
    faulty: &[FaultyLine],
) -> Result<Vec<u8>, AllocError>
    ensures { IfOk result (λ text. text.items
        ≡ counts_text placed left unsent ++ flat_map faulty_text faulty.now) }
{
    let mut text = Vec::new(alloc);
    let counts = format!(in alloc; "placed {placed}\nleft {left}\nunsent {unsent}\n")?;
    text.extend_from_slice(counts.as_bytes())?;
    for one in faulty {
        add_faulty(alloc, &mut text, one)?;
    }
    Ok(text)
}

// appends a faulty line
fn add_faulty(alloc: Global, text: &mut Vec<u8>, one: &FaultyLine) -> Result<(), AllocError>
    ensures { OnOk result (text.new.items ≡ text.old.items ++ faulty_text one.now) }
{
    let (line, publisher) = (one.line, one.publisher);
    let front = format!(in alloc; "publisher {publisher} line {line} ")?;
    text.extend_from_slice(front.as_bytes())?;
    text.extend_from_slice(fault_said(alloc, one.why)?.as_bytes())?;
    text.push(b'\n')?;
    Ok(())
}

// what is wrong with a line
fn fault_said(alloc: Global, why: EndError) -> Result<String, AllocError>
    ensures { IfOk result (λ text. string_bytes text ≡ end_error_text why) }
{
    match why {
        EndError::Fault(fault) => {
            let (at, kind) = (fault.at, name_of(fault.kind));
            format!(in alloc; "fault {at} {kind}")
        }
        EndError::Refused(SectionFault::UnknownTable(i)) => {
            format!(in alloc; "refused UnknownTable {i}")
        }
        EndError::Refused(SectionFault::ShapeDiffers(i)) => {
            format!(in alloc; "refused ShapeDiffers {i}")
        }
    }
}

// each subscriber and its rows
fn write_subscribers<L: BrokerBrand, W: Write>(
    alloc: Global,
    writer: &mut W,
    all: &[EndedSubscriber<L>],
) -> io::Result<()>
    ensures ok { OnOk result (Appends (W.contents writer.old) (W.contents writer.new)
        (subscribers_text 0 (map subscriber_of all.now))) }
    ensures err { OnErr result (AppendsFront (W.contents writer.old) (W.contents writer.new)
        (subscribers_text 0 (map subscriber_of all.now))) }
{
    let mut number: usize = 0;
    for one in all {
        write_subscriber(alloc, writer, number, one)?;
        number += 1;
    }
    Ok(())
}

// a subscriber and its rows
fn write_subscriber<L: BrokerBrand, W: Write>(
    alloc: Global,
    writer: &mut W,
    number: usize,
    one: &EndedSubscriber<L>,
) -> io::Result<()>
    ensures ok { OnOk result (Appends (W.contents writer.old) (W.contents writer.new)
        (subscriber_text number (subscriber_of one.now))) }
    ensures err { OnErr result (AppendsFront (W.contents writer.old) (W.contents writer.new)
        (subscriber_text number (subscriber_of one.now))) }
{
    let subscription = &one.subscription;
    let first = cursor_line(alloc, number, subscription.cursor(), &one.ending)?;
    write_with_tables(alloc, writer, &first, subscription.tables())
}

// the text, then the rows of tables
#[tactic(auto, using(crate::proofs::outcomes::ReportLaws::report_fronts))]
fn write_with_tables<W: Write>(
    alloc: Global,
    writer: &mut W,
    text: &[u8],
    tables: &Tables,
) -> io::Result<()>
    ensures ok { OnOk result (Appends (W.contents writer.old) (W.contents writer.new)
        (text.now ++ all_rows_text (map.entries tables.now.rows))) }
    ensures err { OnErr result (AppendsFront (W.contents writer.old) (W.contents writer.new)
        (text.now ++ all_rows_text (map.entries tables.now.rows))) }
{
    write_whole(writer, text)?;
    write_rows(alloc, writer, tables)
}

// the line of a subscriber
fn cursor_line(
    alloc: Global,
    number: usize,
    cursor: u64,
    ending: &SubscriberEnd,
) -> Result<Vec<u8>, AllocError>
    ensures { IfOk result (λ text. text.items ≡ cursor_text number cursor ending.now) }
{
    let mut text = Vec::new(alloc);
    let front = format!(in alloc; "subscriber {number} cursor {cursor} ")?;
    text.extend_from_slice(front.as_bytes())?;
    text.extend_from_slice(ending_said(alloc, ending)?.as_bytes())?;
    text.push(b'\n')?;
    Ok(text)
}

// how a subscriber ended
fn ending_said(alloc: Global, ending: &SubscriberEnd) -> Result<String, AllocError>
    ensures { IfOk result (λ text. string_bytes text ≡ ending_text ending.now) }
{
    match ending {
        SubscriberEnd::Drained => format!(in alloc; "drained"),
        SubscriberEnd::Conflict(conflict, _) => {
            let (position, kind) = (conflict.position, conflict.kind.code());
            format!(in alloc; "conflict {position} {kind}")
        }
        SubscriberEnd::Stopped => format!(in alloc; "stopped"),
    }
}

// the rows of tables
fn write_rows<W: Write>(alloc: Global, writer: &mut W, tables: &Tables) -> io::Result<()>
    ensures ok { OnOk result (Appends (W.contents writer.old) (W.contents writer.new)
        (all_rows_text (map.entries tables.now.rows))) }
    ensures err { OnErr result (AppendsFront (W.contents writer.old) (W.contents writer.new)
        (all_rows_text (map.entries tables.now.rows))) }
{
    let rows = tables.rows_in_order(alloc)?;
    write_all_rows(alloc, writer, &rows)
}

fn write_all_rows<W: Write>(
    alloc: Global,
    writer: &mut W,
    rows: &[(&RowKey, &Row)],
) -> io::Result<()>
    ensures ok { OnOk result (Appends (W.contents writer.old) (W.contents writer.new)
        (all_rows_text (listed rows.now))) }
    ensures err { OnErr result (AppendsFront (W.contents writer.old) (W.contents writer.new)
        (all_rows_text (listed rows.now))) }
{
    let first = count_line(alloc, rows.len())?;
    write_with_rows(alloc, writer, &first, rows)
}

// the text, then each row
#[tactic(auto, using(crate::proofs::outcomes::ReportLaws::report_fronts))]
fn write_with_rows<W: Write>(
    alloc: Global,
    writer: &mut W,
    text: &[u8],
    rows: &[(&RowKey, &Row)],
) -> io::Result<()>
    ensures ok { OnOk result (Appends (W.contents writer.old) (W.contents writer.new)
        (text.now ++ flat_map row_text (listed rows.now))) }
    ensures err { OnErr result (AppendsFront (W.contents writer.old) (W.contents writer.new)
        (text.now ++ flat_map row_text (listed rows.now))) }
{
    write_whole(writer, text)?;
    write_each(alloc, writer, rows)
}

fn count_line(alloc: Global, count: usize) -> Result<Vec<u8>, AllocError>
    ensures { IfOk result (λ text. text.items ≡ row_count_text count) }
{
    let mut text = Vec::new(alloc);
    text.extend_from_slice(format!(in alloc; "rows {count}\n")?.as_bytes())?;
    Ok(text)
}

// each row. A row's line is the only memory that this needs.
fn write_each<W: Write>(alloc: Global, writer: &mut W, rows: &[(&RowKey, &Row)]) -> io::Result<()>
    ensures ok { OnOk result (Appends (W.contents writer.old) (W.contents writer.new)
        (flat_map row_text (listed rows.now))) }
    ensures err { OnErr result (AppendsFront (W.contents writer.old) (W.contents writer.new)
        (flat_map row_text (listed rows.now))) }
{
    let mut line = Vec::new(alloc);
    for row in rows {
        write_row(alloc, writer, &mut line, row.0, row.1)?;
    }
    Ok(())
}

#[tactic(auto, using(crate::proofs::outcomes::ReportLaws::report_fronts))]
fn write_row<W: Write>(
    alloc: Global,
    writer: &mut W,
    line: &mut Vec<u8>,
    key: &RowKey,
    row: &Row,
) -> io::Result<()>
    ensures ok { OnOk result (Appends (W.contents writer.old) (W.contents writer.new)
        (row_text (key.now, row.now))) }
    ensures err { OnErr result (AppendsFront (W.contents writer.old) (W.contents writer.new)
        (row_text (key.now, row.now))) }
{
    line.clear();
    add_row(alloc, line, key, row)?;
    write_whole(writer, line)
}
