//! Where the columns of a table's key stand.

ghost use Rattle.std.specs.Prelude.{◌≡◌, ◌==◌, nat_lt};
ghost use Rattle.std.specs.List.{position, position_or_len};
ghost use Rattle.cs_model.specs.KeyRun.{TellsKey};

/// Key columns that stand next to each other.
#[derive(Clone, Copy, Debug)]
pub struct KeyColumns {
    /// How many columns come before the first of them.
    pub first: usize,
    /// How many they are.
    pub count: usize,
}

/// Where the key columns of a table stand, or `None` if a column outside the key stands between
/// two of them. `flags` are the table's key flags, one byte a column.
pub fn key_columns(flags: &[u8]) -> Option<KeyColumns>
    ensures { TellsKey flags.now result }
{
    let first = outside(flags);
    let (_, rest) = flags.split_at(first);
    let count = inside(rest);
    let (_, rest) = rest.split_at(count);
    if outside(rest) < rest.len() {
        return None;
    }
    Some(KeyColumns { first, count })
}

// how many columns outside the key come first
fn outside(flags: &[u8]) -> usize
    ensures { result ≡ position_or_len (λ flag. nat_lt 0 flag) flags.now }
{
    first_of_key(flags).unwrap_or(flags.len())
}

// how many columns of the key come first
fn inside(flags: &[u8]) -> usize
    ensures { result ≡ position_or_len (λ flag. flag == 0) flags.now }
{
    first_outside_key(flags).unwrap_or(flags.len())
}

fn first_of_key(flags: &[u8]) -> Option<usize>
    ensures { result ≡ position (λ flag. nat_lt 0 flag) flags.now }
{
    flags.iter().position(|flag| *flag > 0)
}

fn first_outside_key(flags: &[u8]) -> Option<usize>
    ensures { result ≡ position (λ flag. flag == 0) flags.now }
{
    flags.iter().position(|flag| *flag == 0)
}
