ghost use Rattle.std.specs.Prelude.{◌≡◌, ◌<◌, ◌≤◌, length};
ghost use Rattle.ldp_table.specs.Bands.{band_of, counts_of};

use crate::row::Row;

/// The upper ends of the bands, in parts per million.
pub const EDGES: [u32; 5] = [5, 10, 20, 50, 100];

/// One part per million, in units of 10^-15.
const PPM: u128 = 1_000_000_000;

/// The number of the first band beyond whose end the distortion does not go, and 5 where there is
/// none: how many ends it goes beyond.
fn band_of(row: &Row) -> usize
    ensures value { result ≡ band_of row.now.distortion }
    ensures within { result < 6 }
{
    let size = row.distortion.unsigned_abs();
    EDGES
        .iter()
        .take_while(|edge| size > u128::from(**edge) * PPM)
        .count()
}

/// How many rows lie in each band, and beyond them.
pub fn counts_of(rows: &[Row]) -> [u32; 6]
    requires { length rows.now ≤ 200_000 }
    ensures { result ≡ counts_of rows.now }
{
    let mut counts = [0; 6];
    for row in rows {
        counts[band_of(row)] += 1;
    }
    counts
}
