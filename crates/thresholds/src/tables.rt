// Tables 8-12 and 8-10, but for the luma tc, which has its own (luma_table.rt). Each is proved to be the standard's. A
// row past a table's ends is refused by the proof; the callers clip their index first.
ghost use Rattle.std.specs.Prelude.{◌≡◌, ◌+◌, ◌≤◌, ◌<◌, get_or};
ghost use Rattle.thresholds.specs.Luma.{scaled};
ghost use Rattle.thresholds.specs.Tables.{BETA, TC, QPC};

// Table 8-12, β' at Q 0 to 51.
static BETA_ROWS: [u8; 52] = [
    0, 0, 0, 0, 0, 0, 0, 0, 0, 0, 0, 0, 0, 0, 0, 0, 6, 7, 8, 9, 10, 11, 12, 13, 14, 15, 16, 17, 18,
    20, 22, 24, 26, 28, 30, 32, 34, 36, 38, 40, 42, 44, 46, 48, 50, 52, 54, 56, 58, 60, 62, 64,
];

// Table 8-12, tC' at Q 0 to 53.
static TC_ROWS: [u8; 54] = [
    0, 0, 0, 0, 0, 0, 0, 0, 0, 0, 0, 0, 0, 0, 0, 0, 0, 0, 1, 1, 1, 1, 1, 1, 1, 1, 1, 2, 2, 2, 2, 3,
    3, 3, 3, 4, 4, 4, 5, 5, 6, 6, 7, 8, 9, 10, 11, 13, 14, 16, 18, 20, 22, 24,
];

// Table 8-10, QpC at qPi 30 to 43.
static QPC_ROWS: [u8; 14] = [29, 30, 31, 32, 33, 33, 34, 34, 35, 35, 36, 36, 37, 37];

#[tactic(auto, unfolding(crate::specs::Tables::BETA))]
pub(crate) fn beta_row(q: usize) -> u16
    requires { q < 52 }
    ensures value { result ≡ get_or BETA q 0 }
    ensures upper_bound { result ≤ 64 }
{
    BETA_ROWS[q] as u16
}

#[tactic(auto, unfolding(crate::specs::Tables::TC))]
pub(crate) fn tc_row(q: usize) -> u16
    requires { q < 54 }
    ensures value { result ≡ get_or TC q 0 }
    ensures upper_bound { result ≤ 64 }
{
    TC_ROWS[q] as u16
}

#[tactic(auto, unfolding(crate::specs::Tables::QPC))]
pub(crate) fn qpc_row(q: usize) -> u32
    requires { q < 14 }
    ensures value { result ≡ get_or QPC q 0 }
    ensures upper_bound { result ≤ 29 + q }
{
    QPC_ROWS[q] as u32
}

// A table's value times 2^(depth - 8).
#[tactic(auto, using(crate::proofs::Facts::scaled_small), unfolding(crate::specs::Luma::scaled))]
pub(crate) fn scale(depth: u32, v: u16) -> u16
    requires { (8 ≤ depth) × (depth ≤ 16) × (v ≤ 64) }
    ensures { result ≡ scaled depth v }
{
    v << (depth - 8)
}
