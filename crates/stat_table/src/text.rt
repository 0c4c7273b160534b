//! The text of a row while it is made. It takes no memory.

ghost use Rattle.std.specs.Prelude.{◌≡◌, ◌+◌, ◌≤◌, ◌++◌, codes, decimal, length, replicate};
ghost use Rattle.stat_table.specs.Table.{right};

use itoa::Buffer;
use perf_base::ShortList;

/// Room for the columns behind a name, of up to 63 bytes each.
pub type Text = ShortList<u8, 352>;

/// Adds a text.
pub fn push_all(text: &mut Text, piece: &[u8])
    requires { length text.old + length piece.now ≤ 352 }
    ensures { text.new ≡ text.old ++ piece.now }
{
    for byte in piece {
        text.push(*byte);
    }
}

/// Adds spaces.
pub fn push_spaces(text: &mut Text, n: usize)
    requires { length text.old + n ≤ 352 }
    ensures { text.new ≡ text.old ++ replicate n 32 }
{
    for _i in 0..n {
        text.push(b' ');
    }
}

/// Adds a number.
pub fn push_number(text: &mut Text, n: u64)
    requires { length text.old + 20 ≤ 352 }
    ensures added { text.new ≡ text.old ++ decimal n }
    ensures short { length text.new ≤ length text.old + 20 }
{
    let mut buffer = Buffer::new();
    push_all(text, buffer.format(n).as_bytes());
}

/// Adds an entry at the right end of a column.
pub fn push_right(text: &mut Text, width: usize, entry: &[u8])
    requires room { length text.old + 63 ≤ 352 }
    requires narrow { width ≤ 63 }
    requires short { length entry.now ≤ 63 }
    ensures added { text.new ≡ text.old ++ right width entry.now }
    ensures short { length text.new ≤ length text.old + 63 }
{
    push_spaces(text, width.saturating_sub(entry.len()));
    push_all(text, entry);
}

/// Adds a space, and an entry at the right end of the column behind it.
pub fn push_column(text: &mut Text, width: usize, entry: &[u8])
    requires room { length text.old + 64 ≤ 352 }
    requires narrow { width ≤ 63 }
    requires short { length entry.now ≤ 63 }
    ensures added { text.new ≡ text.old ++ codes " " ++ right width entry.now }
    ensures short { length text.new ≤ length text.old + 64 }
{
    text.push(b' ');
    push_right(text, width, entry);
}

/// Adds a space, and a number at the right end of the column of 14 places behind it.
pub fn push_count(text: &mut Text, n: u64)
    requires { length text.old + 64 ≤ 352 }
    ensures added { text.new ≡ text.old ++ codes " " ++ right 14 (decimal n) }
    ensures short { length text.new ≤ length text.old + 64 }
{
    let mut buffer = Buffer::new();
    push_column(text, 14, buffer.format(n).as_bytes());
}
