// The list of the live types of a store.
ghost use Rattle.std.specs.Prelude.{◌≡◌, ◌+◌, ◌≤◌, ◌<◌, ◌^◌, length};
ghost use Rattle.stores.specs.Catalogue.{store_head, store_size};
ghost use Rattle.catalogue.specs.Stands.{Opened};
ghost use Rattle.report.specs.Report.{Appends};
ghost use Rattle.typestore.specs.Answers.{line_text, Lines, Lists};

use crate::answer::{Said, say_refused};
use catalogue::{Checked, Entries, STORE_HEAD};
use text::COMMA;
use writer::Writer;

// A live type: at most 48 bytes and its line.
pub fn live_line(writer: &mut Writer<'_>, number: u64, uses: u64, line: &[u8])
    requires { writer.old.fill + length line.now + 48 < 2 ^ 64 }
    ensures keeps { writer.new.out.ghost_name ≡ writer.old.out.ghost_name }
    ensures line { Appends (line_text number uses line.now) writer.old.out.now writer.new.out.now writer.old.fill writer.new.fill }
    ensures short { writer.new.fill ≤ writer.old.fill + length line.now + 48 }
{
    writer.write(b"live,");
    writer.decimal(number);
    writer.put(COMMA);
    writer.decimal(uses);
    writer.put(COMMA);
    writer.write(line);
    writer.end_line();
}

// The lines of all live types, at the front of the output: how many bytes they are.
fn lines(live: Entries, out: &mut [u8]) -> usize
    requires { (live.at ≡ store_head) × (live.end ≤ store_size) }
    ensures { Lines live.entry.store.now live.entry.end out.old out.new result }
{
    let mut writer = Writer::new(out, 0);
    for entry in live {
        live_line(
            &mut writer,
            u64::from(entry.number),
            u64::from(entry.uses),
            entry.text,
        );
    }
    writer.fill
}

fn list_all(store: &[u8], checked: Checked, out: &mut [u8]) -> Said
    requires { Opened store.now checked.last checked.end }
    ensures { Lists store.now out.old out.new result }
{
    let live = Entries::new(store, STORE_HEAD, checked.end);
    let fill = lines(live, out);
    // (A cast, since there is no `From` of a `usize` for `u64`.)
    let types = live.count() as u64;
    let mut writer = Writer::new(out, fill);
    report::numbers_line(&mut writer, b"end,", types, u64::from(checked.last));
    Said {
        refusal: None,
        length: writer.fill,
    }
}

// The live types, their count and the last number given.
pub fn list(store: &[u8], out: &mut [u8]) -> Said
    ensures { Lists store.now out.old out.new result }
{
    match catalogue::check(store) {
        Ok(checked) => list_all(store, checked, out),
        Err(no_store) => say_refused(out, no_store.into()),
    }
}
