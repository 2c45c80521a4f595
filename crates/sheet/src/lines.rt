//! The lines of a sheet.
ghost use Rattle.sheet.specs.Sheets.{SheetTaken};

use answers::{Refusal, SheetFault};
use figures::lines::Lines;

/// The lines of a sheet, in turn. A line ends at byte 10, which the last may lack. A sheet of over 65,535 bytes is refused.
pub fn lines_of(sheet: &[u8]) -> Result<Lines<'_>, SheetFault>
    ensures { SheetTaken sheet.now result }
{
    if sheet.len() > 65535 {
        return Err(SheetFault {
            line: 0,
            fault: Refusal::LongSheet,
        });
    }
    Ok(Lines::of(sheet))
}
