ghost use Rattle.std.specs.Prelude.{◌≡◌, ◌*◌, ◌≤◌, ◌<◌, length};
ghost use Rattle.lists.specs.Bound.{AllAtMost};

// The half rows around a row's red and blue pixels, which stand at the columns side, side + 2, ..: five of the columns of their parity, of which the row's own is the third, and the row's other one.
#[derive(Clone, Copy)]
pub struct Around<'a> {
    pub own: &'a [u16],
    pub beside: &'a [u16],
    pub places: usize,
    pub side: usize,
    pub ghost bit: { side < 2 },
    pub ghost narrow: { places ≤ 2050 },
    pub ghost five: { length own.now ≡ 5 * places },
    pub ghost one: { length beside.now ≡ places },
    pub ghost own_small: { AllAtMost 4095 own.now },
    pub ghost beside_small: { AllAtMost 4095 beside.now },
}
