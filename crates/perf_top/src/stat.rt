//! The table of what the events of a script have counted, once its order was done.

ghost use Rattle.std.specs.Prelude.{◌≡◌, ◌<◌, ◌≤◌, ◌^◌, [], All, IfOk, vec_capacity, vec_len};
ghost use Rattle.ring_spec.specs.Rings.{IsLawfulOrder};
ghost use Rattle.stat_rows.specs.Rows.{rows_of};

use perf_base::NoMemory;
use perf_book::Book;
use perf_io::{Failed, Sink, Written};
use stat_rows::fill_rows;
use stat_table::{StatRow, write_table};
use std::alloc::Global;

/// The most rows that a table may have: one for each slot.
const MOST_ROWS: usize = 256;

/// Room for the rows of a table.
#[derive(Drop)]
pub struct Rows {
    rows: Vec<StatRow>,
    ghost none: { rows.items ≡ [] },
    ghost empty: { vec_len rows ≡ 0 },
    ghost room: { 256 ≤ vec_capacity rows },
}

impl Rows {
    /// Room for one row for each slot.
    pub fn new(alloc: Global) -> Result<Rows, NoMemory>
        ensures { IfOk result (λ room. (room.rows.items ≡ []) × (256 ≤ vec_capacity room.rows)) }
    {
        Ok(Rows {
            rows: Vec::with_capacity(alloc, MOST_ROWS)?,
        })
    }
}

/// The table of some rows, as a text.
#[derive(Drop)]
pub struct Table {
    pub rows: Vec<StatRow>,
    ghost few: { All (λ row. row.sums.running < 2 ^ 44) rows.items },
}

impl Written for Table {
    ghost use Rattle.stat_table.specs.Table.{table_text};

    ghost text = { λ t. table_text t.rows.items };

    fn write_to<K: Sink>(&self, sink: &mut K) -> Result<(), Failed> {
        write_table(&self.rows, sink)
    }
}

/// The table of a book whose whole order was done.
pub fn tabulate(book: &Book, room: Rows) -> Table
    requires order { book.now.order ≡ book.now.script.order }
    ensures rows { result.rows.items ≡ rows_of book.now.script book.now.script.order }
    ensures lawful { IsLawfulOrder book.now.script book.now.script.order }
{
    let mut rows = room.rows;
    fill_rows(book.machine(), book.script(), &mut rows);
    Table { rows }
}
