// The kind of a variable: a search of the `b` lines, which ascend. (No `From` makes a usize of a variable's u32: so the casts.)
ghost use Rattle.std.specs.Prelude.{◌≡◌, ◌≤◌, ◌<◌};
ghost use Rattle.line.specs.Kinds.{kind_no};
ghost use Rattle.hir.specs.Bind.{kind_of, BindsAt};

use line::{VarId, VarKind, bound_at, kind_of};
use std::cmp::Ordering;

// How the next line to read is chosen: as if every variable had its line; in proportion, and so many times more; by halves.
#[derive(Clone, Copy)]
enum Way {
    AsIfAll,
    InProportion { more: u8 },
    ByHalves,
}

// After the sixth line only halves are left, so that no sheet takes more than six steps beyond those of halving.
const PROPORTIONS: u8 = 5;

impl Way {
    fn next(self) -> Way {
        match self {
            Way::AsIfAll => Way::InProportion {
                more: PROPORTIONS - 1,
            },
            Way::InProportion { more } => match more.checked_sub(1) {
                Some(more) => Way::InProportion { more },
                None => Way::ByHalves,
            },
            Way::ByHalves => Way::ByHalves,
        }
    }
}

// A `b` line of one digit: `b,V,K` and LF.
const SHORTEST: usize = 6;

// How many bytes of `b` lines there are before `var`'s if every variable below it has one, and none has more than five digits: the
// shortest, and a byte more for each digit behind the first.
fn bytes_below(var: VarId) -> usize {
    let var = var.0 as usize;
    var * SHORTEST
        + var.saturating_sub(10)
        + var.saturating_sub(100)
        + var.saturating_sub(1000)
        + var.saturating_sub(10000)
}

// `var`'s share of `room`, all of it where no line above it was met.
fn by_proportion(room: usize, least: usize, most: Option<usize>, var: usize) -> usize {
    let Some(most) = most else { return room };
    room.checked_mul(var.saturating_sub(least))
        .and_then(|part| part.checked_div(most.saturating_sub(least)))
        .unwrap_or(room / 2)
}

// Where to look between `lo` and `hi` for `var`, which is above `least` and below `most` if that was met. Any place between the two
// would do.
fn probe(lo: usize, hi: usize, least: usize, most: Option<usize>, var: VarId, way: Way) -> usize
    requires { lo < hi }
    ensures { (lo ≤ result) × (result < hi) }
{
    let room = hi - lo;
    let step = match way {
        Way::AsIfAll => bytes_below(var),
        Way::InProportion { .. } => by_proportion(room, least, most, var.0 as usize),
        Way::ByHalves => room / 2,
    };
    if step < room { lo + step } else { hi - 1 }
}

// What stands behind the digits of a binding's variable: a comma, the letter, LF.
const COMMA: usize = 1;

const AFTER_DIGITS: usize = 3;

// The kind of a variable by the `b` lines from `from` to `to`; a value's for none.
// (`binary_search_by` takes elements of one size, and lines have many.)
pub fn bind_kind(sheet: &[u8], from: usize, to: usize, var: VarId) -> VarKind
    requires { BindsAt sheet.now from to }
    ensures { (b : BindsAt sheet.now from to) → kind_no result ≡ kind_of var.0 b.heads }
{
    let mut lo = from;
    let mut hi = to;
    let mut least: usize = 0;
    let mut most: Option<usize> = None;
    let mut way = Way::AsIfAll;
    while lo < hi {
        let mid = probe(lo, hi, least, most, var, way);
        let start = text::piece_start(sheet, lo, mid, text::LINE_END);
        let g = bound_at(sheet, start);
        let v = g.var;
        way = way.next();
        match v.0.cmp(&var.0) {
            Ordering::Equal => {
                let letter = g.end + COMMA;
                return kind_of(sheet[letter]);
            }
            Ordering::Less => {
                lo = g.end + AFTER_DIGITS;
                least = v.0 as usize;
            }
            Ordering::Greater => {
                hi = start;
                most = Some(v.0 as usize);
            }
        }
    }
    VarKind::Value
}
