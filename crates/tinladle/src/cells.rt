// A stored cell list that C lends, converted.
ghost use Rattle.tinladle.specs.Lists.{Converted};

use conversion::convert_cells;

// Returned is 0, or 6 where the two lists are not of one length. The place is stored as by every function here; it is
// always 0.
#[unsafe(no_mangle)]
pub extern "C" fn tinladle_convert_cells(cells: &[u8], out_cells: &mut [u8], place: &mut u64) -> u32
    ensures { Converted cells.now out_cells.old result place.new out_cells.new }
{
    *place = 0;
    if convert_cells(cells, out_cells) {
        0
    } else {
        6
    }
}
