// A part of a list of rows, copied row by row.
ghost use Rattle.std.specs.Prelude.{◌≡◌, ◌*◌, length};
ghost use Rattle.tile_parts.specs.Parts.{part_of, Room, first_rows};

use crate::Part;

// Of samples, and of the bytes of cell records.
pub(crate) fn crop<T: Copy>(from: &[T], stride: usize, part: Part, to: &mut [T])
    requires room { Room (part_of part) stride from.now }
    requires to_len { length to.old ≡ part.width * part.height }
    ensures { to.new ≡ first_rows from.now stride (part_of part) part.height }
{
    let count = part.width;
    for y in 0..part.height {
        let own = y * count;
        let start = (part.y + y) * stride + part.x;
        to[own..own + count].copy_from_slice(&from[start..start + count]);
    }
}
