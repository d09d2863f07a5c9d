// The walks that call each other. (Each child is lent another part of the work area, and a level less: no struct holds all that they take.
// `infer_line` is handed a line and a cursor that two of its three callers read apart: a `Met` would be made there for the call alone.)
ghost use Rattle.std.specs.Prelude.{◌≡◌, ◌+◌, ◌<◌, ◌≤◌, length};
ghost use Rattle.semantics.specs.Sheet.{row, entering};
ghost use Rattle.line.specs.Words.{word_of};
ghost use Rattle.line.specs.Known.{FineAt};
ghost use Rattle.semantics.specs.declared.refusals.Refusal.TheVariants.{TypeTooLarge};
ghost use Rattle.infer.specs.Walks.{EntersAs, ExprAsk, ExprWalked, LeafAsk, LeafWalked, AnyAsk, AnyWalked, PatternAsk, PatternWalked};

use crate::step::{Sheet, finish, name_of, start, step};
use exprs::{Accumulator, role_of, rule_of};
use hir::Next;
use line::{Head, HirId, Place, Word, is_leaf, known_line, place_of};
use report::Report;
use semantics::{Refusal, Refused};

// What a walk comes to: the length of the type at the front of the work area, and the cursor behind the lines walked.
#[derive(Clone, Copy)]
pub struct Walk {
    pub len: usize,
    pub cur: Next,
}

// A type was too large: the line of the innermost expression that was being typed.
#[derive(Clone, Copy)]
pub struct TooLarge(pub HirId);

impl From<TooLarge> for Refused {
    ghost from_gives = { λ t r. r ≡ record { why = TypeTooLarge; place = t.0.0 } };

    fn from(large: TooLarge) -> Refused {
        let line = large.0;
        Refused {
            why: Refusal::TypeTooLarge,
            place: u64::from(line.0),
        }
    }
}

// A line and the cursor at it.
#[derive(Drop)]
struct Met {
    head: Head,
    cur: Next,
}

// An entry's expression stands on the line behind it; any other line stands for itself.
fn entered(sheet: &[u8], k: Head, c: Next) -> Met
    requires { (c.line.0 < 4294967295) × ((row (word_of k.word)).rule ≡ entering → FineAt sheet.now k.next) }
    ensures { EntersAs sheet.now k c result.head result.cur }
{
    let word = k.word;
    match word {
        Word::Key => {
            let cur = c.past(k);
            let p = cur.at;
            Met {
                head: known_line(sheet, p),
                cur,
            }
        }
        _ => Met { head: k, cur: c },
    }
}

// What is kept, when the next child's type stands behind it.
fn before_child(st: Accumulator) -> Accumulator
    ensures { (result.len ≡ st.len) × (result.second ≡ 0) × (result.over ≡ st.over) }
{
    Accumulator { second: 0, ..st }
}

// The type of an expression whose line is `h`, with `depth` levels left.
#[cycle(walks)]
pub fn infer_line(
    sheet: Sheet<'_>,
    h: Head,
    cur: Next,
    depth: usize,
    work: &mut [u8],
    report: &mut Report<'_, '_>,
) -> Result<Walk, TooLarge>
    requires { ExprAsk sheet.text.now sheet.binds h cur depth work.old report.old }
    ensures keeps { report.new.writer.ghost_name ≡ report.old.writer.ghost_name }
    ensures keeps_out { report.new.writer.now.out.ghost_name ≡ report.old.writer.now.out.ghost_name }
    ensures walked { ExprWalked sheet.entry.text.now sheet.entry.binds h cur depth work.old work.new report.old report.new result }
{
    if is_leaf(h.word) {
        return Ok(infer_leaf(sheet, h, cur, work));
    }
    infer_expr(sheet, h, cur, depth, work, report)
}

// The type of an expression below whose line nothing can stand: a variable's, or that of its word.
// (`finish` has these two ways also, as it takes each rule; here nothing is kept, and no report and no level is lent.)
fn infer_leaf(sheet: Sheet<'_>, h: Head, cur: Next, work: &mut [u8]) -> Walk
    requires { LeafAsk sheet.text.now sheet.binds h cur work.old }
    ensures { LeafWalked sheet.entry.text.now sheet.entry.binds h cur work.old work.new result }
{
    let behind = cur.past(h);
    let word = h.word;
    let len = match word {
        Word::Var => {
            let v = h.var;
            exprs::var_type(sheet.text, sheet.binds.from, sheet.binds.to, v, work)
        }
        _ => exprs::constant(word, work),
    };
    Walk { len, cur: behind }
}

// The type of an expression below whose line others may stand.
#[cycle(walks)]
fn infer_expr(
    sheet: Sheet<'_>,
    h: Head,
    cur: Next,
    depth: usize,
    work: &mut [u8],
    report: &mut Report<'_, '_>,
) -> Result<Walk, TooLarge>
    requires { ExprAsk sheet.text.now sheet.binds h cur depth work.old report.old }
    ensures keeps { report.new.writer.ghost_name ≡ report.old.writer.ghost_name }
    ensures keeps_out { report.new.writer.now.out.ghost_name ≡ report.old.writer.now.out.ghost_name }
    ensures walked { ExprWalked sheet.entry.text.now sheet.entry.binds h cur depth work.old work.new report.old report.new result }
{
    let here = cur.line;
    let text = sheet.text;
    let kids = hir::kids_of(h);
    let n = kids.all;
    let rule = rule_of(h.word);
    let mut c = cur.past(h);
    let mut st = start(rule, work);
    for j in 0..n {
        let p = c.at;
        let k = known_line(sheet.text, p);
        let from = st.len;
        let child = check_tree(sheet, k, c, depth - 1, &mut work[from..], report)?;
        let role = role_of(h, j);
        let name = name_of(text, k);
        let kept = step(rule, role, before_child(st), work, child.len, name, report);
        st = kept.ok_or(TooLarge(here))?;
        c = child.cur;
    }
    let len = finish(sheet, h, st, work, report).ok_or(TooLarge(here))?;
    Ok(Walk { len, cur: c })
}

// A tree inside a clause, whose first line is `k`: of an expression, or of the one that an entry holds, its type.
// Any other tree is left to `check_pattern`.
#[cycle(walks)]
fn check_tree(
    sheet: Sheet<'_>,
    k: Head,
    cur: Next,
    depth: usize,
    work: &mut [u8],
    report: &mut Report<'_, '_>,
) -> Result<Walk, TooLarge>
    requires { AnyAsk sheet.text.now sheet.binds k cur depth work.old report.old }
    ensures keeps { report.new.writer.ghost_name ≡ report.old.writer.ghost_name }
    ensures keeps_out { report.new.writer.now.out.ghost_name ≡ report.old.writer.now.out.ghost_name }
    ensures walked { AnyWalked sheet.entry.text.now sheet.entry.binds k cur depth work.old work.new report.old report.new result }
{
    let m = entered(sheet.text, k, cur);
    let e = m.head;
    match place_of(e.word) {
        Place::Expression => infer_line(sheet, e, m.cur, depth, work, report),
        _ => check_pattern(sheet, cur, depth, work, report),
    }
}

// A tree that is neither an expression nor an entry (a pattern, or an item of a map projection): its expressions are typed and dropped.
#[cycle(walks)]
fn check_pattern(
    sheet: Sheet<'_>,
    cur: Next,
    depth: usize,
    work: &mut [u8],
    report: &mut Report<'_, '_>,
) -> Result<Walk, TooLarge>
    requires { PatternAsk sheet.text.now sheet.binds cur depth work.old report.old }
    ensures keeps { report.new.writer.ghost_name ≡ report.old.writer.ghost_name }
    ensures keeps_out { report.new.writer.now.out.ghost_name ≡ report.old.writer.now.out.ghost_name }
    ensures walked { PatternWalked sheet.entry.text.now sheet.entry.binds cur depth work.old work.new report.old report.new result }
{
    let mut c = cur;
    // Counts trees that are still to come, which grow by a line's children: no index.
    let mut todo: usize = 1;
    while todo > 0 {
        let p = c.at;
        let g = known_line(sheet.text, p);
        match place_of(g.word) {
            Place::Expression => {
                let typed = infer_line(sheet, g, c, depth, work, report)?;
                c = typed.cur;
                todo -= 1;
            }
            _ => {
                let kids = hir::kids_of(g);
                c = c.past(g);
                todo = todo - 1 + kids.all;
            }
        }
    }
    Ok(Walk {
        len: exprs::put_letter(work, ty::UNKNOWN),
        cur: c,
    })
}
