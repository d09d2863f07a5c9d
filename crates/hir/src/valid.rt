// The whole sheet read: the first line with 3, 4 or 5.
ghost use Rattle.std.specs.Prelude.{◌≡◌, ◌↔◌, ℕ, ◌+◌, ◌≤◌, ◌<◌, length, drop, [], ◌∷◌, IsTrue};
ghost use Rattle.semantics.specs.Codes.{line_feed, expression_rank};
ghost use Rattle.semantics.specs.Bytes.{split};
ghost use Rattle.semantics.specs.Sheet.{bindings, check, rank};
ghost use Rattle.line.specs.declared.places.Place.TheVariants.{Expression};
ghost use Rattle.line.specs.Words.{place_of, under_of};
ghost use Rattle.hir.specs.Run.{run};
ghost use Rattle.hir.specs.Check.{class_of, below_of, spot_of, RefusedAt, HungAs, KidsAs, KidsAsk, wants_of, AdmitAs, MeetAs, GoodAs, ChecksAs, TopAsk, BindsAs, EndAs, ClausesAs, RestAs, OutlineAs};

use line::{BadLine, Head, HirId, Place, Under, is_leaf, place_of, read_line, row_of};
use semantics::{Refusal, Refused};

// Where the next line starts, and its number.
#[derive(Clone, Copy)]
pub struct Next {
    pub at: usize,
    pub line: HirId,
}

impl Next {
    // The next one behind this line, which was read.
    #[inline(always)]
    pub fn past(self, head: Head) -> Next
        requires { self.line.0 < 4294967295 }
        ensures { (result.at ≡ head.next) × (result.line.0 ≡ self.line.0 + 1) }
    {
        Next {
            at: head.next,
            line: next_line(self.line),
        }
    }
}

// What stands right below a line: so many lines of a place, and up to `all` of another.
#[derive(Clone, Copy)]
pub struct Kids {
    pub first: usize,
    pub all: usize,
    pub place1: Place,
    pub place2: Place,
}

// A line is refused.
fn refused(why: Refusal, line: HirId) -> Refused
    ensures { RefusedAt why line result }
{
    Refused {
        why,
        place: u64::from(line.0),
    }
}

// The next line's number. (Each line takes one, so that there is one more is asked of whoever steps on, and no invariant.)
pub fn next_line(l: HirId) -> HirId
    requires { l.0 < 4294967295 }
    ensures { result.0 ≡ l.0 + 1 }
{
    HirId(l.0 + 1)
}

// So many lines of one place, and of none other.
fn alike(all: usize, place: Place) -> Kids
    ensures { (result.first ≡ all) × (result.all ≡ all) × (result.place1 ≡ place) × (result.place2 ≡ Expression) }
{
    Kids {
        first: all,
        all,
        place1: place,
        place2: Place::Expression,
    }
}

// So many lines of one place, and of another.
fn both(first: usize, place1: Place, second: usize, place2: Place) -> Kids
    requires { (first ≤ 65535) × (second ≤ 65535) }
    ensures { (result.first ≡ first) × (result.all ≡ first + second) × (result.place1 ≡ place1) × (result.place2 ≡ place2) }
{
    Kids {
        first,
        all: first + second,
        place1,
        place2,
    }
}

// What hangs under a line, by its count and how many bits of its flag number there are.
fn hung(under: Under, count: usize, bits: usize) -> Kids
    requires { (count ≤ 9999) × (bits ≤ 2) }
    ensures { HungAs (under_of under) count bits result }
{
    match under {
        Under::Nothing => alike(0, Place::Expression),
        Under::Two => alike(2, Place::Expression),
        Under::Bounds => alike(1 + bits, Place::Expression),
        Under::Arms => alike(2 * count + bits, Place::Expression),
        Under::One(place) => alike(1, place),
        Under::Times(_, place) => alike(count, place),
        Under::TimesThen(_, place, _) => both(count, place, bits, Place::Expression),
        Under::Around(place, _) => {
            if place == Place::Expression {
                alike(2 + bits, place)
            } else {
                both(1, place, 1 + bits, Place::Expression)
            }
        }
        Under::OneThen(_) => alike(1 + bits, Place::Expression),
        Under::OneTimes(_, place) => both(1, Place::Expression, count, place),
    }
}

// What stands right below this line: a flag number has two bits, a count is at most 9,999, so both
// fit. (No `From` makes a usize of a u64 or u32.)
#[inline(always)]
pub fn kids_of(h: Head) -> Kids
    requires { (h.count ≤ 9999) × (h.flag ≤ 3) }
    ensures { KidsAs h result }
{
    let bits = h.flag.count_ones();
    hung(row_of(h.word).under, h.count as usize, bits as usize)
}

// The place of the j-th line below.
fn kid_place(k: Kids, j: usize) -> Place
    ensures { result ≡ spot_of k j }
{
    if j < k.first { k.place1 } else { k.place2 }
}

// Whether the word of a line belongs at a place.
#[inline(always)]
fn is_at(line: Result<Head, BadLine>, place: Place) -> bool
    ensures { IsTrue result ↔ (class_of line ≡ rank (place_of place)) }
{
    match line {
        Ok(head) => place_of(head.word) == place,
        Err(bad) => match bad.word {
            Some(word) => place_of(word) == place,
            None => false,
        },
    }
}

// A line at a place, with so many levels of depth left.
#[inline(always)]
fn admit(line: Result<Head, BadLine>, place: Place, depth: usize) -> Result<Head, Refusal>
    ensures { AdmitAs line (place_of place) depth result }
{
    if !is_at(line, place) {
        return Err(Refusal::BadlyWritten);
    }
    match line {
        Err(bad) => Err(bad.why),
        Ok(head) => {
            if place == Place::Expression && depth == 0 {
                Err(Refusal::TooDeep)
            } else {
                Ok(head)
            }
        }
    }
}

// The same for a line of this number.
#[inline(always)]
fn meet(line: Result<Head, BadLine>, at: HirId, place: Place, depth: usize) -> Result<Head, Refused>
    ensures { MeetAs line at (place_of place) depth result }
{
    admit(line, place, depth).map_err(|why| refused(why, at))
}

// The depth left below a line of a place.
fn below(place: Place, depth: usize) -> usize
    requires { rank (place_of place) ≡ expression_rank → 0 < depth }
    ensures { result ≡ below_of (rank (place_of place)) depth }
{
    if place == Place::Expression {
        depth - 1
    } else {
        depth
    }
}

// The lines that hang below one, and all below those, from `next` on.
fn check_kids(sheet: &[u8], kids: Kids, next: Next, depth: usize) -> Result<Next, Refused>
    requires { KidsAsk sheet.now kids next.at next.line.0 }
    ensures { ChecksAs sheet.now next.at result (run (wants_of kids depth) next.line.0 (split line_feed (drop next.at sheet.now))) }
{
    let mut next = next;
    for j in 0..kids.all {
        let place = kid_place(kids, j);
        let line = read_line(sheet, next.at);
        let kid = meet(line, next.line, place, depth)?;
        let under = next.past(kid);
        if is_leaf(kid.word) {
            next = under;
        } else {
            next = check_kids(sheet, kids_of(kid), under, below(place, depth))?;
        }
    }
    Ok(next)
}

// A line whose fields are fine.
fn good(line: Result<Head, BadLine>, at: HirId) -> Result<Head, Refused>
    ensures { GoodAs line at result }
{
    line.map_err(|bad| refused(bad.why, at))
}

// The `b` lines from `next` on, their variables ascending: where they end.
fn check_binds(sheet: &[u8], next: Next) -> Result<Next, Refused>
    requires { TopAsk sheet.now next.at next.line.0 }
    ensures { BindsAs sheet.now next.at next.line.0 result }
{
    let mut next = next;
    let mut least: u64 = 0;
    loop {
        let line = read_line(sheet, next.at);
        if !is_at(line, Place::Binding) {
            return Ok(next);
        }
        let head = good(line, next.line)?;
        let var = u64::from(head.var.0);
        if var < least {
            return Err(refused(Refusal::BadlyWritten, next.line));
        }
        least = var + 1;
        next = next.past(head);
    }
}

// The `end` line, and nothing behind it.
fn check_end(line: Result<Head, BadLine>, at: HirId, len: usize) -> Result<(), Refused>
    requires { at.0 < 4294967295 }
    ensures { EndAs line at len result }
{
    let head = good(line, at)?;
    if head.next != len {
        return Err(refused(Refusal::BadlyWritten, next_line(at)));
    }
    Ok(())
}

// The clauses from `next` on, and the `end` line.
fn check_clauses(sheet: &[u8], next: Next, depth: usize) -> Result<(), Refused>
    requires { TopAsk sheet.now next.at next.line.0 }
    ensures { ClausesAs depth sheet.now next.at next.line.0 result }
{
    let mut next = next;
    loop {
        let line = read_line(sheet, next.at);
        if is_at(line, Place::End) {
            return check_end(line, next.line, sheet.len());
        }
        let clause = meet(line, next.line, Place::Clause, depth)?;
        next = check_kids(sheet, kids_of(clause), next.past(clause), depth)?;
    }
}

// A sheet that is whole: its `b` lines from `from` to `to`, and its clauses from there on, the first of them on line `line`.
#[derive(Clone, Copy)]
pub struct Outline {
    pub line: HirId,
    pub from: usize,
    pub to: usize,
}

// The sheet behind its first line.
fn check_rest(sheet: &[u8], from: usize, depth: usize) -> Result<Outline, Refused>
    requires { TopAsk sheet.now from 2 }
    ensures { RestAs depth sheet.now from result (check (bindings 0 depth ∷ []) 2 (split line_feed (drop from sheet.now))) }
{
    let binds = Next {
        at: from,
        line: HirId(2),
    };
    let next = check_binds(sheet, binds)?;
    check_clauses(sheet, next, depth)?;
    Ok(Outline {
        line: next.line,
        from,
        to: next.at,
    })
}

// The whole sheet, whose expressions may stand at most `depth` levels deep.
pub fn check_sheet(sheet: &[u8], depth: usize) -> Result<Outline, Refused>
    requires { length sheet.now < 4294967294 }
    ensures { OutlineAs depth sheet.now result }
{
    let first = meet(read_line(sheet, 0), HirId(1), Place::First, depth)?;
    check_rest(sheet, first.next, depth)
}
