use crate::codec::PartCodec;
use crate::forms::{Form, OnesView};
use crate::views::PartView;
use elias_fano::EfView;
use ranked_bitmap::MapView;

impl<'a, const Q: u64> PartCodec<'a> for EfView<'a, Q> {
    ghost use Rattle.elias_fano.proofs.OneList.{one-list};
    ghost use Rattle.elias_fano.specs.EfView.{Holds};

    ghost u = { λ v. v.part.u };

    ghost m = { λ v. v.part.m };

    ghost holds = { λ v ys. Holds Q v ys };

    fn check(&self) -> bool {
        EfView::check(self)
    }

    fn get(&self, k: u64) -> u64 {
        EfView::get(self, k)
    }

    fn after(&self, k: u64, number: u64) -> u64 {
        EfView::after(self, k, number)
    }

    fn values_below(&self, k: u64, number: u64, x: u64, to: &mut [u64]) -> usize {
        EfView::values_below(self, k, number, x, to)
    }

    fn next_geq(&self, x: u64, from: u64) -> (u64, u64) {
        EfView::next_geq(self, x, from)
    }

    fn first_from(&self, k: u64, number: u64, x: u64) -> (u64, u64) {
        EfView::first_from(self, k, number, x)
    }

    ghost relative = { λ v ys h. h.values };

    ghost one_list = { one-list Q };
}

impl<'a, const B: u64> PartCodec<'a> for MapView<'a, B> {
    ghost use Rattle.ranked_bitmap.proofs.OneList.{one-list};
    ghost use Rattle.ranked_bitmap.specs.MapView.{Holds};

    ghost u = { λ v. v.part.u };

    ghost m = { λ v. v.part.m };

    ghost holds = { λ v ys. Holds B v ys };

    fn check(&self) -> bool {
        MapView::check(self)
    }

    fn get(&self, k: u64) -> u64 {
        MapView::get(self, k)
    }

    fn after(&self, k: u64, number: u64) -> u64 {
        MapView::after(self, k, number)
    }

    fn values_below(&self, k: u64, number: u64, x: u64, to: &mut [u64]) -> usize {
        MapView::values_below(self, k, number, x, to)
    }

    fn next_geq(&self, x: u64, from: u64) -> (u64, u64) {
        MapView::next_geq(self, x, from)
    }

    fn first_from(&self, k: u64, number: u64, x: u64) -> (u64, u64) {
        MapView::first_from(self, k, number, x)
    }

    ghost relative = { λ v ys h. h.values };

    ghost one_list = { one-list B };
}

impl<'a> PartCodec<'a> for OnesView {
    ghost use Rattle.std.proofs.Common.{◌≡◌, sym, subst, ◌∙◌};
    ghost use Rattle.part_cost.specs.Span.{AreRelative};
    ghost use Rattle.part_cost.proofs.Parts.{relative-range};
    ghost use Rattle.part_codec.specs.Forms.{all_ones};

    ghost u = { λ v. v.u };

    ghost m = { λ v. v.u };

    ghost holds = { λ v ys. ys ≡ all_ones v.u };

    fn check(&self) -> bool {
        true
    }

    fn get(&self, k: u64) -> u64 {
        k
    }

    fn after(&self, _k: u64, number: u64) -> u64 {
        number + 1
    }

    fn values_below(&self, k: u64, number: u64, x: u64, to: &mut [u64]) -> usize {
        let below = (self.u - k).min(x.saturating_sub(number));
        let count = to.len().min(below as usize);
        for j in 0..count {
            to[j] = number + j as u64;
        }
        count
    }

    fn next_geq(&self, x: u64, from: u64) -> (u64, u64) {
        let at = x.max(from);
        (at, at)
    }

    fn first_from(&self, k: u64, _number: u64, x: u64) -> (u64, u64) {
        self.next_geq(x, k)
    }

    ghost relative = { λ v ys h. subst (AreRelative v.u v.u) (sym h) (relative-range v.u v.some) };

    ghost one_list = { λ v xs ys h k. h ∙ sym k };
}

impl<'a> PartCodec<'a> for PartView<'a> {
    ghost use Rattle.std.proofs.Common.{◌≡◌, sym, subst, ◌∙◌};
    ghost use Rattle.part_cost.specs.Payload.{ef_spacing, bitmap_spacing};
    ghost use Rattle.part_cost.specs.Span.{AreRelative};
    ghost use Rattle.part_cost.proofs.Parts.{relative-range};
    ghost use Rattle.elias_fano.proofs.OneList as elias_fano;
    ghost use Rattle.ranked_bitmap.proofs.OneList as bitmap;
    ghost use Rattle.part_codec.specs.declared.forms.Form.TheVariants.{Ones, Bitmap, Ef};
    ghost use Rattle.part_codec.specs.Forms.{HoldsIn, universe_in, count_in};
    ghost use Rattle.part_codec.specs.PartView.{Holds, universe_of, count_of};

    ghost u = { universe_of };

    ghost m = { count_of };

    ghost holds = { Holds };

    fn check(&self) -> bool {
        match &self.form {
            Form::Ones(v) => v.check(),
            Form::Bitmap(v) => v.check(),
            Form::Ef(v) => v.check(),
        }
    }

    fn get(&self, k: u64) -> u64 {
        match &self.form {
            Form::Ones(v) => v.get(k),
            Form::Bitmap(v) => v.get(k),
            Form::Ef(v) => v.get(k),
        }
    }

    fn after(&self, k: u64, number: u64) -> u64 {
        match &self.form {
            Form::Ones(v) => v.after(k, number),
            Form::Bitmap(v) => v.after(k, number),
            Form::Ef(v) => v.after(k, number),
        }
    }

    fn values_below(&self, k: u64, number: u64, x: u64, to: &mut [u64]) -> usize {
        match &self.form {
            Form::Ones(v) => v.values_below(k, number, x, to),
            Form::Bitmap(v) => v.values_below(k, number, x, to),
            Form::Ef(v) => v.values_below(k, number, x, to),
        }
    }

    fn next_geq(&self, x: u64, from: u64) -> (u64, u64) {
        match &self.form {
            Form::Ones(v) => v.next_geq(x, from),
            Form::Bitmap(v) => v.next_geq(x, from),
            Form::Ef(v) => v.next_geq(x, from),
        }
    }

    fn first_from(&self, k: u64, number: u64, x: u64) -> (u64, u64) {
        match &self.form {
            Form::Ones(v) => v.first_from(k, number, x),
            Form::Bitmap(v) => v.first_from(k, number, x),
            Form::Ef(v) => v.first_from(k, number, x),
        }
    }

    ghost relative = { λ v ys. elim v.form as (λ w. HoldsIn w ys
        → AreRelative (universe_in w) (count_in w) ys) [
          | Ones o ↦ λ h. subst (AreRelative o.u o.u) (sym h) (relative-range o.u o.some)
          | Bitmap b ↦ λ h. h.values
          | Ef e ↦ λ h. h.values
        ] };

    ghost one_list = { λ v xs ys. elim v.form as (λ w. HoldsIn w xs → HoldsIn w ys → xs ≡ ys) [
      | Ones o ↦ λ h k. h ∙ sym k
      | Bitmap b ↦ bitmap.one-list bitmap_spacing b xs ys
      | Ef e ↦ elias_fano.one-list ef_spacing e xs ys
    ] };
}
