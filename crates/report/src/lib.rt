// The lines of the report: appended to the output, what fits written, all counted (RULES 6).
#![tactic(auto)]

ghost use Rattle.std.specs.Prelude.{◌≡◌, [], ◌∷◌, ◌+◌, ◌<◌, ◌^◌, length};
ghost use Rattle.semantics.specs.Bytes.{text};
ghost use Rattle.semantics.specs.Ty.{Ty, line};
ghost use Rattle.semantics.specs.Walk.{fault_2012, fault_5012};
ghost use Rattle.semantics.specs.Builtins.{signature};
ghost use Rattle.ty.specs.Read.{kind_of};
ghost use Rattle.builtins.specs.Rows.{builtin_of};
ghost use Rattle.report.specs.Report.{Appends, Adds, fault_head, code_fault, code_of, HasRoom, OpenKind, NumbersLine, type_text, end_text};

use builtins::Builtin;
use text::COMMA;
use ty::{ANY, UNKNOWN};
use writer::Writer;

// A fault that tells one type, by the name that the Rust gives its code.
#[derive(Clone, Copy, PartialEq, Eq)]
pub enum TypeFault {
    // An operand of arithmetic that is no number.
    E2009,
    // An operand of a string operator that is no String.
    E2010,
    // An operand of a boolean operator, or a condition, that is no Bool.
    E2011,
    // A right side of IN that is no list.
    E2013,
}

impl TypeFault {
    // What its line starts with: the code's bytes are fixed, no digit is worked out.
    #[tactic(auto, unfolding(semantics::specs::Bytes::text, semantics::specs::Bytes::shown, semantics::specs::Bytes::shown_in))]
    fn head(self) -> &'static [u8]
        ensures { result.now ≡ fault_head (code_of self) }
    {
        match self {
            TypeFault::E2009 => b"F,2009,",
            TypeFault::E2010 => b"F,2010,",
            TypeFault::E2011 => b"F,2011,",
            TypeFault::E2013 => b"F,2013,",
        }
    }
}

// What is written of a sheet's types: the output with how far it is filled, whether it fits or not, and how many faults are told. Each line
// uses up room of the two counts, so that some is left (`HasRoom`, `Countable` of two) is asked of whoever adds one, and no invariant.
// The writer stands behind a reference, and a report is written out where it is made, with no `new`: of an output that is lent to a struct
// inside an owned struct, or through a function that makes one, nothing but its length proves at the end. Each function that takes a report says that its writer and its output keep their names: across a
// call the check follows a lent output by that alone.
#[derive(Drop)]
pub struct Report<'w, 'a> {
    pub writer: &'w mut Writer<'a>,
    pub faults: u64,
}

impl<'w, 'a> Report<'w, 'a> {
    // A fault that tells one type, by its letter.
    pub fn fault(&mut self, code: TypeFault, kind: u8)
        requires { HasRoom self.old }
        ensures keeps { self.new.writer.ghost_name ≡ self.old.writer.ghost_name }
        ensures keeps_out { self.new.writer.now.out.ghost_name ≡ self.old.writer.now.out.ghost_name }
        ensures adds { (u : Ty) → kind_of u ≡ kind → Adds (code_fault code u ∷ []) self.old self.new }
    {
        self.writer.write(code.head());
        self.writer.write(ty::type_name(kind));
        self.writer.end_line();
        self.faults += 1;
    }

    // A left side of IN that has no type in common with the list's elements: the operand's and the element's type.
    pub fn fault_in(&mut self, kind: u8, element: u8)
        requires { HasRoom self.old }
        ensures keeps { self.new.writer.ghost_name ≡ self.old.writer.ghost_name }
        ensures keeps_out { self.new.writer.now.out.ghost_name ≡ self.old.writer.now.out.ghost_name }
        ensures adds { (u v : Ty) → kind_of u ≡ kind → kind_of v ≡ element → Adds (fault_2012 u v ∷ []) self.old self.new }
    {
        self.writer.write(b"F,2012,");
        self.writer.write(ty::type_name(kind));
        self.writer.put(COMMA);
        self.writer.write(ty::type_name(element));
        self.writer.end_line();
        self.faults += 1;
    }

    // An argument that a built-in does not take: its name, the argument's type, what was expected.
    pub fn fault_call(&mut self, builtin: Builtin, kind: u8)
        requires { HasRoom self.old }
        ensures keeps { self.new.writer.ghost_name ≡ self.old.writer.ghost_name }
        ensures keeps_out { self.new.writer.now.out.ghost_name ≡ self.old.writer.now.out.ghost_name }
        ensures adds { (u : Ty) → kind_of u ≡ kind → (s : _) → (signature (builtin_of builtin)).params ≡ s ∷ [] → Adds (fault_5012 (builtin_of builtin) u s ∷ []) self.old self.new }
    {
        self.writer.write(b"F,5012,");
        self.writer.write(builtin.name());
        self.writer.put(COMMA);
        self.writer.write(ty::type_name(kind));
        self.writer.put(COMMA);
        self.writer.write(builtin.param().describe());
        self.writer.end_line();
        self.faults += 1;
    }

    // The line of a top expression's type.
    #[tactic(auto, unfolding(semantics::specs::Calls::top_line), using(crate::proofs::ReportLaws::wrote_line))]
    pub fn type_line(&mut self, text: &[u8])
        requires { self.old.writer.now.fill + length text.now + 3 < 2 ^ 64 }
        ensures keeps { self.new.writer.ghost_name ≡ self.old.writer.ghost_name }
        ensures keeps_out { self.new.writer.now.out.ghost_name ≡ self.old.writer.now.out.ghost_name }
        ensures line { (u : Ty) → text.now ≡ line u → Appends (type_text u) self.old.writer.now.out.now self.new.writer.now.out.now self.old.writer.now.fill self.new.writer.now.fill }
        ensures same { self.new.faults ≡ self.old.faults }
    {
        self.writer.line(b"T,", text);
    }

    // The last line.
    #[tactic(auto, unfolding(semantics::specs::Bytes::text))]
    pub fn end_line(&mut self, types: u64)
        requires { self.old.writer.now.fill + 64 < 2 ^ 64 }
        ensures keeps { self.new.writer.ghost_name ≡ self.old.writer.ghost_name }
        ensures keeps_out { self.new.writer.now.out.ghost_name ≡ self.old.writer.now.out.ghost_name }
        ensures line { Appends (end_text types self.old.faults) self.old.writer.now.out.now self.new.writer.now.out.now self.old.writer.now.fill self.new.writer.now.fill }
    {
        let faults = self.faults;
        numbers_line(&mut *self.writer, b"end,", types, faults);
    }
}

// Whether a type lets every requirement through: Any and Unknown.
pub fn is_open(kind: u8) -> bool
    ensures { OpenKind kind result }
{
    kind == ANY || kind == UNKNOWN
}

// A line of a head and two numbers.
pub fn numbers_line(writer: &mut Writer<'_>, head: &[u8], first: u64, second: u64)
    requires { writer.old.fill + length head.now + 42 < 2 ^ 64 }
    ensures keeps { writer.new.out.ghost_name ≡ writer.old.out.ghost_name }
    ensures line { NumbersLine head.now first second writer.old.out.now writer.new.out.now writer.old.fill writer.new.fill }
{
    writer.write(head);
    writer.decimal(first);
    writer.put(COMMA);
    writer.decimal(second);
    writer.end_line();
}

// What a program prints of a refusal (RULES 7.9): at most 50 bytes.
#[tactic(auto, unfolding(semantics::specs::Bytes::text))]
pub fn refused_line(writer: &mut Writer<'_>, number: u64, place: u64)
    requires { writer.old.fill + 64 < 2 ^ 64 }
    ensures keeps { writer.new.out.ghost_name ≡ writer.old.out.ghost_name }
    ensures line { NumbersLine (text "refused,") number place writer.old.out.now writer.new.out.now writer.old.fill writer.new.fill }
{
    numbers_line(writer, b"refused,", number, place);
}
