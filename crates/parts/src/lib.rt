// Parts of slices, and elements of them. Every function takes any numbers: a part has as many elements as there are, and an element that is not there is 0.
#![tactic(auto)]

ghost use Rattle.std.specs.Prelude.{◌≡◌, length, take, drop};
ghost use Rattle.std.proofs.lemmas.List.Edits.{sets};
ghost use Rattle.laws.specs.Table.{table};
ghost use Rattle.parts.specs.Rows.{number_in};

// The n elements from an index on.
pub fn part<T>(row: &[T], from: usize, n: usize) -> &[T]
    ensures { result.now ≡ take n (drop from row.now) }
{
    let a = from.min(row.len());
    let k = n.min(row.len() - a);
    let b = a + k;
    &row[a..b]
}

pub fn number(row: &[u64], i: usize) -> u64
    ensures { result ≡ number_in row.now i }
{
    if i < row.len() {
        return row[i];
    }
    0
}

// A row of numbers becomes the bytes of another, as many as it has.
pub fn from8(out: &mut [u64], row: &[u8])
    ensures { out.new ≡ sets out.old 0 (table (length out.old) (number_in row.now)) }
{
    for i in 0..out.len() {
        out[i] = number8(row, i);
    }
}

fn number8(row: &[u8], i: usize) -> u64
    ensures { result ≡ number_in row.now i }
{
    if i < row.len() {
        return u64::from(row[i]);
    }
    0
}
