//! The words of a row that aren't 0.
ghost use Rattle.std.specs.Prelude.{length};
ghost use Rattle.rbbi_bits.specs.BitRows.{IsSpan};

/// The words of a row from `from` up to, but not including, `to`. The row's other words are 0.
#[derive(Clone, Copy)]
pub struct Span {
    pub from: usize,
    pub to: usize,
}

/// The span from the first to the last word that isn't 0.
pub fn span_of(row: &[u64]) -> Span
    ensures { IsSpan row.now result.from result.to }
{
    let mut from = row.len();
    let mut to = 0;
    for i in 0..row.len() {
        if row[i] != 0 {
            from = from.min(i);
            to = i + 1;
        }
    }
    Span { from, to }
}
