// Type names (type_name in infer.rs).
ghost use Rattle.std.specs.Prelude.{◌≤◌, length};
ghost use Rattle.ty.specs.Kind.{NamesKind};

use crate::letters::{
    ANY, BOOL, DATE, DATETIME, FLOAT, INT, LIST, MAP, NODE, NULL, NUM, PATH, RELATIONSHIP, STRING,
    UNION,
};

// The name of the types of kind k; of any byte it is short.
pub fn type_name(k: u8) -> &'static [u8]
    ensures names { NamesKind k result.now }
    ensures short { length result.now ≤ 12 }
{
    match k {
        ANY => b"Any",
        NULL => b"Null",
        BOOL => b"Bool",
        INT => b"Int",
        FLOAT => b"Float",
        NUM => b"Num",
        STRING => b"String",
        DATE => b"Date",
        DATETIME => b"Datetime",
        LIST => b"List",
        MAP => b"Map",
        NODE => b"Node",
        RELATIONSHIP => b"Relationship",
        PATH => b"Path",
        UNION => b"Union",
        _ => b"Unknown",
    }
}
