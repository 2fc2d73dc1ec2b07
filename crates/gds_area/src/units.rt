ghost use Rattle.std.specs.Prelude.{◌≡◌, ◌≤◌, ◌<◌, ◌*◌, ℤ, pos, ◌≤ℤ◌, neg_ℤ, IfSome};
ghost use Rattle.gds_area.specs.Moves.{IsWithin};
ghost use Rattle.gds_area.specs.Units.{limited_to_grid, scaled_by, step_of_grid};
ghost use Rattle.gds_area.specs.Units.{two_steps, whole_units_of, floor_units_of};

/// The database unit of a file in picometres, and lambda in nanometres. A grid unit is half a lambda.
#[derive(Clone, Copy, Debug, PartialEq, Eq)]
pub struct Grid {
    pub picometres: u64,
    pub lambda_nm: u32,
}

/// The most picometres that the database unit of a file is taken for.
pub const MOST_PICOMETRES: u64 = 1_000_000_000_000_000_000;

/// Two different coordinates in order, in grid units.
#[derive(Clone, Copy, Debug, PartialEq, Eq)]
pub struct Ends {
    pub low: i32,
    pub high: i32,
}

// A number of grid units that a drawing may have.
fn limited(units: i128) -> Option<i32>
    ensures value { result ≡ limited_to_grid units }
    ensures limits { IfSome result (λ z. (neg_ℤ (pos 1000000000) ≤ℤ z) × (z ≤ℤ pos 1000000000)) }
{
    if units < -1_000_000_000 || 1_000_000_000 < units {
        return None;
    }
    Some(units as i32)
}

// A coordinate of the file in picometres.
fn scaled(grid: &Grid, value: i32) -> i128
    ensures { result ≡ scaled_by grid.now value }
{
    i128::from(value) * i128::from(grid.picometres)
}

// A grid unit in picometres.
fn step(grid: &Grid) -> i128
    ensures { result ≡ step_of_grid grid.now }
{
    500 * i128::from(grid.lambda_nm)
}

// Two grid units in picometres.
fn two_steps(grid: &Grid) -> i128
    ensures { result ≡ two_steps grid.now }
{
    1000 * i128::from(grid.lambda_nm)
}

/// A coordinate in halves of a file unit as a number of grid units, if that is a whole number within the
/// limits of a drawing.
pub fn whole_units(grid: &Grid, value: i128) -> Option<i32>
    requires grid { 1 ≤ grid.now.lambda_nm }
    requires unit { grid.now.picometres ≤ MOST_PICOMETRES }
    requires value { IsWithin 66 value }
    ensures value { result ≡ whole_units_of grid.now value }
    ensures limits { IfSome result (λ z. (neg_ℤ (pos 1000000000) ≤ℤ z) × (z ≤ℤ pos 1000000000)) }
{
    let wide = value * i128::from(grid.picometres);
    let step = two_steps(grid);
    if wide.rem_euclid(step) != 0 {
        return None;
    }
    limited(wide.div_euclid(step))
}

/// The coordinate in grid units, rounded downward, if that is within the limits of a drawing.
pub fn floor_units(grid: &Grid, value: i32) -> Option<i32>
    requires { 1 ≤ grid.now.lambda_nm }
    ensures { result ≡ floor_units_of grid.now value }
{
    limited(scaled(grid, value).div_euclid(step(grid)))
}
