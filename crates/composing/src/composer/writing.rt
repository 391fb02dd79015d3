ghost use Rattle.std.specs.Prelude.{◌≡◌, ◌+◌, ◌*◌, map, length};
ghost use Rattle.std.specs.List.{range_with_len};
ghost use Rattle.table_format.specs.Layout.{states_of, size_of};
ghost use Rattle.composing.specs.Composed.{flag_byte, entry_from, rows_of, composed, composed_length};
ghost use Rattle.composing.specs.Places.{IsPlace};

use crate::composer::Composer;
use crate::place::Place;

impl<'a> Composer<'a> {
    fn write_flags(&self, flags: &mut [u8])
        requires { length flags.old ≡ self.now.failed + 1 }
        ensures { flags.new ≡ map (flag_byte self.now.pattern.bytes.now self.now.scope.bytes.now) (range_with_len 0 (self.now.failed + 1)) }
    {
        for (number, flag) in flags.iter_mut().enumerate() {
            *flag = u8::from(self.flag(self.place(number)));
        }
    }

    fn write_row(&self, place: Place, row: &mut [u8])
        requires placed { IsPlace self.now place }
        requires row_len { length row.old ≡ size_of self.now.pattern.bytes.now }
        ensures { row.new ≡ map (entry_from self.now.pattern.bytes.now self.now.scope.bytes.now place) (range_with_len 0 (size_of self.now.pattern.bytes.now)) }
    {
        for (letter, entry) in row.iter_mut().enumerate() {
            *entry = self.entry(place, letter);
        }
    }

    // Rows by their place: over `chunks_exact_mut` the proof did not close, no byte is known after that loop.
    fn write_rows(&self, rows: &mut [u8])
        requires { length rows.old ≡ (self.now.failed + 1) * size_of self.now.pattern.bytes.now }
        ensures { rows.new ≡ rows_of self.now.pattern.bytes.now self.now.scope.bytes.now (self.now.failed + 1) }
    {
        let size = self.pattern.size();
        for number in 0..self.failed + 1 {
            let start = number * size;
            self.write_row(self.place(number), &mut rows[start..start + size]);
        }
    }

    // Writes the composed table over the whole of `out`, by the offsets that the format names. The total is at most
    // 250, so `as` loses nothing.
    pub(crate) fn write(&self, out: &mut [u8])
        requires { length out.old ≡ composed_length self.now.pattern.bytes.now self.now.scope.bytes.now }
        ensures { out.new ≡ composed self.now.pattern.bytes.now self.now.scope.bytes.now }
    {
        let total = self.failed + 1;
        let end = out.len();
        out[0] = total as u8;
        self.write_flags(&mut out[1..1 + total]);
        out[1 + total] = self.pattern.width();
        self.write_rows(&mut out[2 + total..end]);
    }
}
