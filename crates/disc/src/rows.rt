// A descriptor among others, read once into a value. (That a descriptor's bytes are there is asked at each read, of plain bytes: callers lend any, and
// a type that holds whole descriptors would be made anew of each part `&d[at..]`, and be no plainer.)
ghost use Rattle.std.specs.Prelude.{◌≡◌, ◌+◌, ◌*◌, ◌≤◌, length};
ghost use Rattle.table.specs.Layout.{row};
ghost use Rattle.table.specs.Row.{row_from, row_at};

use table::layout::ROW;
use table::row::{Row, row_of};

// The descriptor that stands at byte `at`.
pub(crate) fn row_from(d: &[u8], at: usize) -> Row
    requires { at + row ≤ length d.now }
    ensures { result ≡ row_from d.now at }
{
    row_of(&d[at..at + ROW])
}

// Descriptor j.
pub(crate) fn row_at(d: &[u8], j: usize) -> Row
    requires { row * j + row ≤ length d.now }
    ensures { result ≡ row_at d.now j }
{
    row_from(d, ROW * j)
}
