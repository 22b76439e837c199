// A row's or a column's readings around pixels, and the variations and estimates from them: each number of all the pixels in a pass of its own, so that several pixels are worked out at once.
ghost use Rattle.std.specs.Prelude.{◌≡◌, length};
ghost use Rattle.lists.specs.Table.{table};
ghost use Rattle.blend_rows.specs.Stencil.{LinesOf, axis_at};

use blend::axis::{estimate, variation};

// Entry k of each is pixel k's.
#[derive(Clone, Copy)]
pub struct Stencil<'a> {
    pub centre: &'a [u16],
    pub before: &'a [u16],
    pub after: &'a [u16],
    pub second_before: &'a [u16],
    pub second_after: &'a [u16],
}

impl Stencil<'_> {
    // One function for this and `estimates`, of two types, would take a closure, and say `F.post` where each says its rule: no plainer.
    fn variations(self, out: &mut [u16])
        requires { LinesOf (length out.old) self }
        ensures { out.new ≡ table (λ k. (axis_at self.entry k).variation) (length out.old) }
    {
        for (k, sample) in out.iter_mut().enumerate() {
            *sample = variation(
                self.centre[k],
                self.before[k],
                self.after[k],
                self.second_before[k],
                self.second_after[k],
            );
        }
    }

    fn estimates(self, out: &mut [i16])
        requires { LinesOf (length out.old) self }
        ensures { out.new ≡ table (λ k. (axis_at self.entry k).estimate) (length out.old) }
    {
        for (k, sample) in out.iter_mut().enumerate() {
            *sample = estimate(
                self.centre[k],
                self.before[k],
                self.after[k],
                self.second_before[k],
                self.second_after[k],
            );
        }
    }

    pub fn measure(self, variations: &mut [u16], estimates: &mut [i16])
        requires lines { LinesOf (length variations.old) self }
        requires same_length { length estimates.old ≡ length variations.old }
        ensures variations { variations.new ≡ table (λ k. (axis_at self.entry k).variation) (length variations.old) }
        ensures estimates { estimates.new ≡ table (λ k. (axis_at self.entry k).estimate) (length estimates.old) }
    {
        self.variations(variations);
        self.estimates(estimates);
    }
}
