ghost use Rattle.std.specs.Prelude.{◌≡◌, ℕ, ◌+◌, ◌*◌, ◌≤◌, ◌<◌, length};
ghost use Rattle.lists.specs.Table.{joined};
ghost use Rattle.bayer.specs.Lent.{Lent};
ghost use Rattle.bayer.specs.Mosaic.{continued};
ghost use Rattle.half_rows.specs.HalfRow.{places};
ghost use Rattle.blend_rows.specs.BlendIn.{half_row};

use bayer::lent::Piece;
use bayer::mirror::mirror;
use half_rows::halves::halves;

// Rows v - 2 to v + b + 1 of the continued mosaic, their even columns in e and their odd ones in o, from columns -2 and -1 on.
pub fn fetch_halves(piece: &Piece<'_>, v: usize, b: usize, e: &mut [u16], o: &mut [u16])
    requires lent { (i : ℕ) → i < b → Lent piece.now.frame piece.now.start (length piece.now.readings.now) (v + i) }
    requires rows { (0 < b) × (b ≤ 8) }
    requires lengths { (length e.old ≡ (b + 4) * places piece.now.frame.width) × (length o.old ≡ (b + 4) * places piece.now.frame.width) }
    ensures even { e.new ≡ joined (half_row (continued piece.now.frame piece.now.start piece.now.readings.now) v 0 piece.now.frame.width) (b + 4) }
    ensures odd { o.new ≡ joined (half_row (continued piece.now.frame piece.now.start piece.now.readings.now) v 1 piece.now.frame.width) (b + 4) }
{
    let high = piece.frame.height;
    let h = (piece.frame.width + 1) / 2 + 2;
    for r in 0..b + 4 {
        let row = piece.row(mirror(high, v + r, 2));
        let at = r * h;
        let end = at + h;
        halves(row, &mut e[at..end], &mut o[at..end]);
    }
}
