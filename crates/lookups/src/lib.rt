// The search for a Q row in the lent state. A row is found by its session's number and its key. Each contract speaks of the state that the
// bytes hold.
#![tactic(auto)]

ghost use Rattle.std.specs.Prelude.{◌≡◌, ◌<◌};
ghost use Rattle.lent.specs.Tables.{first};
ghost use Rattle.machine.specs.Sizes.{row_count};
ghost use Rattle.machine.specs.Tables.{place};
ghost use Rattle.machine.specs.State.{State, free_row, on, row_place};
ghost use Rattle.layout.specs.Holds.{Holds};
ghost use Rattle.layout.specs.Search.{found, Below};
ghost use Rattle.lookups.specs.Test.{row_test};

use layout::Buffer;

// Whether row i is on key k and of session n, or of any where n is 0.
fn is_on(s: &Buffer, i: usize, n: u64, k: usize) -> bool
    requires { i < row_count }
    ensures { result ≡ row_test s.now n k i }
{
    let at = layout::ROWS_FROM + i * layout::ROW_WIDTH;
    let m = u64::from(lent::load_u32(s, at));
    if m == 0 {
        return false;
    }
    let key = lent::index(s[at + layout::ROW_KEY]);
    if n == 0 {
        return key == k;
    }
    if m != n {
        return false;
    }
    key == k
}

fn search(s: &Buffer, n: u64, k: usize) -> Option<usize>
    ensures { (result ≡ first (row_test s.now n k) Some None 0 row_count) × Below row_count result }
{
    (0..layout::ROW_COUNT).find(|&i| is_on(s, i, n, k))
}

// The row of session n on key k.
pub fn find(s: &Buffer, n: u64, k: usize) -> Option<usize>
    ensures { ((σ : State) → Holds s.now σ → result ≡ found row_count (row_place σ n k)) × Below row_count result }
{
    if n == 0 {
        return None;
    }
    search(s, n, k)
}

// The first row on key k.
pub fn first_on(s: &Buffer, k: usize) -> Option<usize>
    ensures { ((σ : State) → Holds s.now σ → result ≡ found row_count (place (on k) σ.rows)) × Below row_count result }
{
    search(s, 0, k)
}

// The lowest free row; where there is none, the table is full.
pub fn free_place(s: &Buffer) -> Option<usize>
    ensures { ((σ : State) → Holds s.now σ → result ≡ found row_count (place free_row σ.rows)) × Below row_count result }
{
    layout::find_number(
        s,
        layout::ROWS_FROM,
        layout::ROW_WIDTH,
        layout::ROW_COUNT,
        0,
    )
}
