// The calls as C has them, for Rattle: crates/cyrs_c exports them. C's lengths and places are numbers of 64 bits; those of the calls are
// cast, since there is no `From` of a `usize` for `u64`.
#![tactic(auto)]

ghost use Rattle.std.specs.Prelude.{◌≡◌, ◌+◌, ◌≤◌, length};
ghost use Rattle.std.proofs.Math.Seq.{slice};
ghost use Rattle.semantics.specs.Calls.{sheet_call, unify_call};
ghost use Rattle.old_lines.specs.Old.{regular_call};
ghost use Rattle.unifying.specs.Call.{settled_by};
ghost use Rattle.typing.specs.Checking.{checked_by, check_call};
ghost use Rattle.stores.specs.Catalogue.{store_call, entering, releasing, looking_up, place_of};
ghost use Rattle.catalogue.specs.Stands.{kept_as, looked_as};
ghost use Rattle.semantics.specs.Refusals.{number_of};

use semantics::{Refusal, Refused};
use unifying::NotUnified;

// What a call returns where it refuses nothing.
const ACCEPTED: u32 = 0;

// A refusal as C has it: the number, and its place behind the reference.
fn refusal(refused: Refused, place: &mut u64) -> u32
    ensures { (result ≡ number_of refused.why) × (place.new ≡ refused.place) }
{
    *place = refused.place;
    refused.why.into()
}

// Unifies two type lines: the number, and its two numbers behind the references.
pub fn cyrs_unify(
    a: &[u8],
    b: &[u8],
    work: &mut [u8],
    out: &mut [u8],
    first: &mut u64,
    second: &mut u64,
) -> u32
    ensures { settled_by result first.new second.new work.new out.new
        ≡ unify_call a.now b.now work.old out.old }
{
    match unifying::unify_types(a, b, work, out) {
        Ok(len) => {
            *first = len as u64;
            *second = 0;
            ACCEPTED
        }
        Err(NotUnified::Mismatch { expected, actual }) => {
            *first = expected as u64;
            *second = actual as u64;
            Refusal::Mismatch.into()
        }
        Err(NotUnified::Refused(refused)) => {
            *second = 0;
            refusal(refused, first)
        }
    }
}

// Types a sheet: the number, and its place or the report's length behind the reference.
pub fn cyrs_infer_types(sheet: &[u8], work: &mut [u8], out: &mut [u8], first: &mut u64) -> u32
    ensures { settled_by result first.new 0 work.new out.new
        ≡ sheet_call sheet.now work.old out.old }
{
    match typing::infer_types(sheet, work, out) {
        Ok(len) => {
            *first = len as u64;
            ACCEPTED
        }
        Err(refused) => refusal(refused, first),
    }
}

// Whether a sheet can be read, with nothing typed: the number, and its line behind the reference.
pub fn cyrs_check_sheet(sheet: &[u8], place: &mut u64) -> u32
    ensures { checked_by result place.new ≡ check_call sheet.now }
{
    match typing::check_sheet(sheet) {
        Ok(()) => {
            *place = 0;
            ACCEPTED
        }
        Err(refused) => refusal(refused, place),
    }
}

// Makes an old type line regular: the number, and the regular line's length behind the reference.
pub fn cyrs_regular_line(line: &[u8], work: &mut [u8], out: &mut [u8], first: &mut u64) -> u32
    ensures { settled_by result first.new 0 work.new out.new
        ≡ regular_call line.now work.old out.old }
{
    match old::regular_line(line, work, out) {
        Ok(len) => {
            *first = len as u64;
            ACCEPTED
        }
        Err(refused) => refusal(refused, first),
    }
}

// Enters a type into a store: the number, and the type's number and its uses behind the references.
pub fn cyrs_enter_type(store: &mut [u8], line: &[u8], first: &mut u64, second: &mut u64) -> u32
    ensures { kept_as result first.new second.new store.new
        ≡ store_call store.old (entering line.now) }
{
    match catalogue::enter(store, line) {
        Ok(entered) => {
            *first = u64::from(entered.number);
            *second = u64::from(entered.uses);
            ACCEPTED
        }
        Err(refused) => {
            *second = 0;
            refusal(refused, first)
        }
    }
}

// Releases a use of a type: the number, and the uses left behind the reference.
pub fn cyrs_release_type(store: &mut [u8], number: u64, first: &mut u64) -> u32
    ensures { kept_as result first.new 0 store.new ≡ store_call store.old (releasing number) }
{
    match catalogue::release(store, number) {
        Ok(uses) => {
            *first = u64::from(uses);
            ACCEPTED
        }
        Err(refused) => refusal(refused, first),
    }
}

// Looks a type up: the number, and the place and the length of its line in the store and its uses behind the references.
pub fn cyrs_look_up_type(
    store: &[u8],
    number: u64,
    at: &mut u64,
    len: &mut u64,
    uses: &mut u64,
) -> u32
    ensures { (looked_as result uses.new (slice at.new (at.new + len.new) store.now) store.now
        ≡ store_call store.now (looking_up number))
        × (at.new ≡ place_of store.now number)
        × (at.new + len.new ≤ length store.now) }
{
    match catalogue::find_line(store, number) {
        Ok(line) => {
            *at = line.at as u64;
            *len = (line.end - line.at) as u64;
            *uses = u64::from(line.uses);
            ACCEPTED
        }
        Err(refused) => {
            *at = 0;
            *len = 0;
            refusal(refused, uses)
        }
    }
}
