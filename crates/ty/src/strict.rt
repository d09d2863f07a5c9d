// The strict form: labels, members and names ascend, each once, and a union has two members or more, none of them a union.
ghost use Rattle.std.specs.Prelude.{◌≡◌, true};
ghost use Rattle.text.specs.Text.{is_found};
ghost use Rattle.semantics.specs.Ty.{type_line};
ghost use Rattle.ty.specs.Read.{LabelsIn, IsStrict};
ghost use Rattle.ty.specs.Form.{strict_may, strict_enough};

use crate::form::{Before, Form};
use crate::letters::UNION;
use crate::reader::{in_order, read_node, read_type};

pub struct Strict;

impl Form for Strict {
    ghost Fine = { IsStrict };

    ghost Labels = { LabelsIn true };

    ghost may = { strict_may };

    ghost enough = { strict_enough };

    fn read_node(s: &[u8], at: usize) -> Option<usize> {
        read_node::<true>(s, at)
    }

    fn name_may_follow(s: &[u8], before: Before, e: usize) -> bool {
        let end = text::field_end(s, before.last);
        in_order(&s[before.last..end], &s[before.to..e], before.count)
    }

    fn member_may_follow(s: &[u8], before: Before, e: usize) -> bool {
        s[before.to] != UNION
            && in_order(&s[before.last..before.to], &s[before.to..e], before.count)
    }

    fn is_enough(n: usize) -> bool {
        n >= 2
    }
}

// Whether the whole text is a type line that is not too large.
pub fn is_type_line(s: &[u8]) -> bool
    ensures { result ≡ is_found (type_line s.now) }
{
    if s.len() > semantics::TYPE_LIMIT {
        return false;
    }
    read_type::<Strict>(s, 0, semantics::NESTING_LIMIT) == Some(s.len())
}
