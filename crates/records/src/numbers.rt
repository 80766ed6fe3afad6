// The numbers of a record written to its packed fields.
ghost use Rattle.std.specs.Prelude.{◌≡◌};
ghost use Rattle.records.specs.Pack.{pack};
ghost use Rattle.records.specs.Edits.{replace_at};
ghost use Rattle.records.specs.Widths.{Writable};

// Writes the values into the fields of these widths, one after the other from the first bit on: the record of the values stands first.
// Widths and values are two lists, as in the statements: the widths are a constant of the record.
pub fn put_all(s: &mut [u8], widths: &[usize], values: &[u64])
    requires { Writable s.old widths.now values.now }
    ensures { s.new ≡ replace_at 0 (pack widths.now values.now) s.old }
{
    let mut at: usize = 0;
    for (w, v) in widths.iter().zip(values) {
        fields::put(s, at, *w, *v);
        at += *w;
    }
}
