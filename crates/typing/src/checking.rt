// The validation of a sheet by itself.
ghost use Rattle.std.specs.Prelude.{◌≡◌};
ghost use Rattle.typing.specs.Checking.{checked_as, check_call};

use semantics::{Refusal, Refused};

// Why it is refused, with the line where there is one.
pub fn check_sheet(sheet: &[u8]) -> Result<(), Refused>
    ensures { checked_as result ≡ check_call sheet.now }
{
    if sheet.len() > semantics::SHEET_LIMIT {
        return Err(Refusal::SheetTooLong.into());
    }
    hir::check_sheet(sheet, semantics::DEPTH_LIMIT)?;
    Ok(())
}
