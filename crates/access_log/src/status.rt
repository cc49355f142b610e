//! The statuses that requests are counted by.
ghost use Rattle.std.specs.Prelude.{◌≤◌};

/// How many statuses the server has. Behind them all others are counted together.
pub const STATUSES: usize = 18;

/// Where a status is counted.
pub fn status_cell(status: u16) -> usize
    ensures { result ≤ STATUSES }
{
    match status {
        200 => 0,
        201 => 1,
        204 => 2,
        304 => 3,
        400 => 4,
        404 => 5,
        405 => 6,
        408 => 7,
        411 => 8,
        412 => 9,
        413 => 10,
        415 => 11,
        421 => 12,
        422 => 13,
        431 => 14,
        501 => 15,
        503 => 16,
        507 => 17,
        _ => STATUSES,
    }
}

/// The status that is counted there, as it is told.
pub fn status_at(cell: usize) -> &'static str {
    match cell {
        0 => "200",
        1 => "201",
        2 => "204",
        3 => "304",
        4 => "400",
        5 => "404",
        6 => "405",
        7 => "408",
        8 => "411",
        9 => "412",
        10 => "413",
        11 => "415",
        12 => "421",
        13 => "422",
        14 => "431",
        15 => "501",
        16 => "503",
        17 => "507",
        _ => "other",
    }
}
