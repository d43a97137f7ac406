// Rings and tables of rows.
ghost use Rattle.std.specs.Prelude.{◌≡◌, ◌≤◌, ◌<◌, length, IfOk};

use crate::case::{Case, Refusal, number};
use crate::lists::list_in;
use crate::shown::List;
use line_rings::{RowRing, RowTable};
use std::alloc::{AllocError, Global};
use std::fmt;

// Rows of a ring and of a table of the same width.
#[derive(Drop)]
struct Rows {
    ring: RowRing<i32>,
    table: RowTable,
    rings: usize,
    tables: usize,
    ghost some: { 1 ≤ rings },
    ghost ring_rows: { length ring ≡ rings },
    ghost table_rows: { length table ≡ tables },
}

// Rows of this width with blanks between them.
#[derive(Clone, Copy)]
struct Given<'a> {
    numbers: &'a [i32],
    width: usize,
}

impl fmt::Display for Given<'_> {
    fn fmt<W: fmt::Write>(&self, f: &mut fmt::Formatter<W>) -> fmt::Result {
        let mut is_next = false;
        for row in self.numbers.chunks_exact(self.width.max(1)) {
            if is_next {
                write!(f, " ")?;
            }
            write!(f, "{}", List(row))?;
            is_next = true;
        }
        Ok(())
    }
}

// Makes a row the newest of a ring, and returns the oldest, by two calls, or nothing of a copy.
fn turned(ring: &mut RowRing<i32>, name: &str, row: Vec<i32>) -> Option<Vec<i32>>
    requires { 1 ≤ length ring.old }
    ensures { length ring.new ≡ length ring.old }
{
    let mut row = row;
    if row.len() != ring.at(0).len() {
        return None;
    }
    if name == "turn" {
        return Some(ring.turn(row));
    }
    if name == "swap" {
        ring.turn_swap(&mut row);
        return Some(row);
    }
    ring.turn_copy(&row);
    None
}

// Sets a number of a row of a table: column, number.
fn set(table: &mut RowTable, row: usize, column: usize, number: i32)
    requires { row < length table.old }
    ensures { length table.new ≡ length table.old }
{
    if column < table.at(row).len() {
        table.set(row, column, number);
    }
}

// Does a step of the table with a row, a column and a number.
fn set_step(rows: &mut Rows, words: &[i32]) {
    let [row, column, number] = words else {
        return;
    };
    let row = row.unsigned_abs() as usize;
    if row < rows.tables {
        set(
            &mut rows.table,
            row,
            column.unsigned_abs() as usize,
            *number,
        );
    }
}

// Exchanges a row of the table for the oldest of the ring.
fn exchange(rows: &mut Rows, row: usize) {
    if row < rows.tables && rows.table.at(row).len() == rows.ring.at(0).len() {
        rows.table.turn_into(row, &mut rows.ring);
    }
}

// Returns a row of the ring or of the table.
fn row_at<'a>(rows: &'a Rows, name: &str, row: usize) -> &'a [i32] {
    if name == "at" && row < rows.rings {
        return rows.ring.at(row);
    }
    if name == "row" && row < rows.tables {
        return rows.table.at(row);
    }
    &[]
}

// Does a step that has a list as its data.
fn step_of_list(
    rows: &mut Rows,
    name: &str,
    list: Vec<i32>,
    given: &mut Vec<i32>,
) -> Result<(), AllocError> {
    if name == "set" {
        set_step(rows, &list);
        return Ok(());
    }
    if let Some(row) = turned(&mut rows.ring, name, list) {
        given.extend_from_slice(&row)?;
    }
    Ok(())
}

// Does a step that has at most the number of a row as its data.
fn step_of_row(
    rows: &mut Rows,
    name: &str,
    row: usize,
    given: &mut Vec<i32>,
) -> Result<(), AllocError> {
    if name == "into" {
        exchange(rows, row);
        return Ok(());
    }
    if name == "clear" {
        rows.table.clear();
        return Ok(());
    }
    given.extend_from_slice(row_at(rows, name, row))?;
    Ok(())
}

// Does a step, and adds the row that it gives.
fn step(case: &Case, rows: &mut Rows, place: usize, given: &mut Vec<i32>) -> Result<(), Refusal> {
    let name = case.datum(place);
    let data = case.datum(place.saturating_add(1));
    if name == "set" || name == "turn" || name == "swap" || name == "copy" {
        let list = list_in(case.alloc, data)?;
        return Ok(step_of_list(rows, name, list, given)?);
    }
    Ok(step_of_row(rows, name, number(data) as usize, given)?)
}

// Returns a table of rows of zeros.
fn table_of(alloc: Global, count: usize, width: usize) -> Result<RowTable, AllocError>
    ensures { IfOk result (λ table. length table ≡ count) }
{
    let mut table = RowTable::new(alloc);
    table.add(alloc, count, width)?;
    Ok(table)
}

// Makes a ring of `rows` rows that hold `fill`, and a table of `table` rows, of `width` places.
fn rows_in(case: &Case) -> Result<Rows, AllocError> {
    let rings = case.named("rows").min(16).max(1) as usize;
    let tables = case.named("table").min(16) as usize;
    let width = case.named("width").min(16) as usize;
    let table = table_of(case.alloc, tables, width)?;
    let ring = RowRing::new(case.alloc, rings, width, case.signed_after("fill"))?;
    Ok(Rows {
        ring,
        table,
        rings,
        tables,
    })
}

// A ring and a table: what each step gives.
pub(crate) fn answer(case: &Case) -> Result<String, Refusal> {
    let mut rows = rows_in(case)?;
    let mut given = Vec::new(case.alloc);
    for place in 0..case.len() / 2 {
        step(case, &mut rows, 2 * place, &mut given)?;
    }
    let shown = Given {
        numbers: &given,
        width: case.named("width") as usize,
    };
    Ok(format!(in case.alloc; "{shown}")?)
}
