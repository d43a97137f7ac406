// The sink that makes one row of a look from blocks.
ghost use Rattle.std.specs.Prelude.{◌≡◌, ◌≤◌, ◌^◌, vec_len};
ghost use Rattle.wave_defs.specs.Line.{floor_div};
ghost use Rattle.quick_look.specs.LookSinks.{IsOpen, TakesValue};

use base_122::{Band, Geometry};
use port_122::{Failed, Port};
use raster_rows::write_row;
use std::alloc::{AllocError, Global};
use strip_decoder::BlockSink;

/// One row of a look: a value for each block of a block row. Those of the first `column` blocks are set. It holds P/8 values.
#[derive(Drop)]
pub struct LookRow {
    pub depth: u8,
    pub signed: bool,
    /// The exponent of the weight of LL3, at most 3.
    pub shift: u8,
    pub columns: u32,
    pub column: u32,
    pub values: Vec<i64>,
}

impl BlockSink for LookRow {
    ghost use Rattle.quick_look.specs.LookSinks.{look_sink};

    ghost sink = { look_sink };

    fn begin(alloc: Global, geometry: &Geometry) -> Result<LookRow, AllocError> {
        let columns = geometry.padded_width() / 8;
        let values = vec![in alloc; 0; columns as usize]?;
        Ok(LookRow {
            depth: geometry.depth,
            signed: geometry.signed,
            shift: geometry.weights.shift(Band::Ll3),
            columns,
            column: 0,
            values,
        })
    }

    fn put<X: Port>(&mut self, port: &mut X, numbers: &[i32]) -> Result<(), Failed> {
        let value = unweighted(numbers[0], self.shift);
        take_value(port, self, value)
    }

    fn lose<X: Port>(&mut self, port: &mut X) -> Result<(), Failed> {
        take_value(port, self, 0)
    }

    fn end_at(&mut self, _geometry: &Geometry) {}
}

// Returns a weighted number without its weight.
fn unweighted(number: i32, shift: u8) -> i64
    requires { shift ≤ 3 }
    ensures { result ≡ floor_div number (2 ^ shift) }
{
    i64::from(number >> shift)
}

// Sets the value of the next block, and gives the row if its block row is whole.
fn take_value<X: Port>(port: &mut X, row: &mut LookRow, value: i64) -> Result<(), Failed>
    requires { IsOpen row.old }
    ensures { TakesValue result value (X.outside port.old) (X.outside port.new) row.old row.new }
{
    row.values[row.column as usize] = value;
    row.column += 1;
    if row.column < row.columns {
        return Ok(());
    }
    row.column = 0;
    write_row(port, row.depth, row.signed, row.columns, &row.values)
}
