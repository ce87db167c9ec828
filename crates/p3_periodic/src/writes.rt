//! Rows of values, written to places of a table.

ghost use Rattle.std.specs.Prelude.{◌≡◌, ◌<◌, ◌≤◌, ◌+◌, ◌*◌, ◌%◌, ℕ, All, length};
ghost use Rattle.p3_periodic.specs.Writes.{Belong, Meet, MeetInRows};

/// The values from `from` on, to the places counted from `start`.
fn write_row<T: Copy>(table: &mut [T], start: usize, places: &[usize], values: &[T], from: usize)
    requires within { All (λ place. start + place < length table.old) places.now }
    requires values { from + length places.now ≤ length values.now }
    ensures { (target : ℕ → T) → Belong target start places.now from values.now
        → Meet target start places.now table.old table.new }
{
    for c in 0..places.len() {
        table[start + places[c]] = values[from + c];
    }
}

/// The rows of `values`, over and over, to the places of each of `height` rows of a table, `width`
/// entries to a row.
pub(crate) fn write_rows<T: Copy>(
    table: &mut [T],
    width: usize,
    height: usize,
    places: &[usize],
    values: &[T],
    period: usize,
)
    requires table { length table.old ≡ height * width }
    requires within { All (λ place. place < width) places.now }
    requires some_rows { 0 < period }
    requires values { length values.now ≡ period * length places.now }
    ensures { (target : ℕ → T)
        → ((i : ℕ) → i < height → Belong target (i * width) places.now
        (i % period * length places.now) values.now)
        → MeetInRows target width height places.now table.old table.new }
{
    for i in 0..height {
        write_row(table, i * width, places, values, i % period * places.len());
    }
}
