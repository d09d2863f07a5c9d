// The report's writer: the lent output with how far it is filled (RULES 6.2). What fits is written, the rest only counted.
#![tactic(auto)]

ghost use Rattle.std.specs.Prelude.{◌≡◌, [], ◌∷◌, ◌+◌, ◌≤◌, ◌<◌, ◌^◌, length};
ghost use Rattle.std.proofs.lemmas.List.Edits.{sets};
ghost use Rattle.semantics.specs.Codes.{line_feed};
ghost use Rattle.semantics.specs.Bytes.{shown};
ghost use Rattle.writer.specs.Written.{Wrote, line_text};

use text::LINE_END;

// Each function that takes a writer says that its output keeps its name: across a call the check follows a lent output by that alone.
#[derive(Drop)]
pub struct Writer<'a> {
    pub out: &'a mut [u8],
    pub fill: usize,
}

impl<'a> Writer<'a> {
    // A writer on this output, filled so far.
    pub fn new(out: &'a mut [u8], fill: usize) -> Writer<'a>
        ensures { (result.out ≡ out.entry) × (result.fill ≡ fill) }
    {
        Writer { out, fill }
    }

    // Appends `t`.
    pub fn write(&mut self, t: &[u8])
        requires { self.old.fill + length t.now < 2 ^ 64 }
        ensures keeps { self.new.out.ghost_name ≡ self.old.out.ghost_name }
        ensures wrote { Wrote t.now self.old self.new }
    {
        let fill = self.fill;
        self.fill = text::append(&mut *self.out, fill, t);
    }

    // Appends one byte.
    pub fn put(&mut self, b: u8)
        requires { self.old.fill + 1 < 2 ^ 64 }
        ensures keeps { self.new.out.ghost_name ≡ self.old.out.ghost_name }
        ensures wrote { Wrote (b ∷ []) self.old self.new }
    {
        let fill = self.fill;
        self.fill = text::put(&mut *self.out, fill, b);
    }

    // Appends the decimal digits of n.
    pub fn decimal(&mut self, n: u64)
        requires { self.old.fill + 20 < 2 ^ 64 }
        ensures keeps { self.new.out.ghost_name ≡ self.old.out.ghost_name }
        ensures wrote { Wrote (shown n) self.old self.new }
        ensures short { self.new.fill ≤ self.old.fill + 20 }
    {
        let fill = self.fill;
        self.fill = text::append_decimal(&mut *self.out, fill, n);
    }

    // Ends the line.
    pub fn end_line(&mut self)
        requires { self.old.fill + 1 < 2 ^ 64 }
        ensures keeps { self.new.out.ghost_name ≡ self.old.out.ghost_name }
        ensures wrote { Wrote (line_feed ∷ []) self.old self.new }
    {
        self.put(LINE_END);
    }

    // Appends a line, its head and its body.
    pub fn line(&mut self, head: &[u8], body: &[u8])
        requires { self.old.fill + length head.now + length body.now + 1 < 2 ^ 64 }
        ensures keeps { self.new.out.ghost_name ≡ self.old.out.ghost_name }
        ensures wrote { Wrote (line_text head.now body.now) self.old self.new }
    {
        self.write(head);
        self.write(body);
        self.end_line();
    }
}
