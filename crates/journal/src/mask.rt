// What collect writes: the masks of the table, one byte a cell.
ghost use Rattle.std.specs.Prelude.{◌≡◌, ◌*◌, ◌/◌, ◌%◌, ◌≤◌, length, get_or};
ghost use Rattle.std.specs.List.{list_all};
ghost use Rattle.buffers.specs.Ranges.{tab};
ghost use Rattle.journal.specs.Lines.{bit_of};

// Each of the chunks has its flag.
pub(crate) fn all_seen(seen: &[bool]) -> bool
    ensures { result ≡ list_all (λ flag. flag) seen.now }
{
    seen.iter().all(|flag| *flag)
}

// Writes the low bits of a word, one byte each.
fn write_bits(out: &mut [u8], word: u64)
    ensures { out.new ≡ tab (length out.old) (bit_of word) }
{
    let mut left = word;
    for bit in out.iter_mut() {
        *bit = (left % 2) as u8;
        left = left / 2;
    }
}

// Writes the bits of the cells, which the masks hold. Over the words by their number: once `chunks_mut` has lent its parts, a proof knows no byte of them.
pub(crate) fn write_cells(out: &mut [u8], masks: &[u64])
    requires { length out.old ≤ 64 * length masks.now }
    ensures { out.new ≡ tab (length out.old) (λ i. bit_of (get_or masks.now (i / 64) 0) (i % 64)) }
{
    let cells = out.len();
    for c in 0..cells.div_ceil(64) {
        let end = cells.min(64 * c + 64);
        write_bits(&mut out[64 * c..end], masks[c]);
    }
}
