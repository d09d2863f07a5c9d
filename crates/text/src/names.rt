// Names in hexadecimal, as fields have them.
ghost use Rattle.std.specs.Prelude.{◌≡◌};
ghost use Rattle.semantics.specs.Bytes.{unhex};
ghost use Rattle.text.specs.Text.{named_of};

use crate::all_hex;
use semantics::Refusal;

// Two digits for each byte of a name.
pub const NAME_DIGITS: usize = 2 * semantics::NAME_LIMIT;

// Whether the field is a name, or what it is refused for: pairs of lowercase hexadecimal digits, of at most 255 bytes.
pub fn check_name(field: &[u8]) -> Result<(), Refusal>
    ensures { result ≡ named_of (unhex field.now) }
{
    if !all_hex(field) || !field.len().is_multiple_of(2) {
        return Err(Refusal::BadlyWritten);
    }
    if field.len() > NAME_DIGITS {
        return Err(Refusal::OutOfRange);
    }
    Ok(())
}
