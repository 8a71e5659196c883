// Numbers in a script: digits, with no zero in front of others, and then a byte that ends them.
ghost use Rattle.std.specs.Prelude.{◌≡◌, ◌^◌, ◌≤◌};
ghost use Rattle.scripts.specs.Fields.{NumberBefore, byte_of};

// The byte that ends a number.
#[derive(Clone, Copy)]
pub enum End {
    Space = b' ' as isize,
    LineFeed = b'\n' as isize,
}

impl End {
    fn byte(self) -> u8
        ensures answer { result ≡ byte_of self }
    {
        self as u8
    }
}

// The number at the front of a text, at most `most` and ended by `end`, and the text after that.
pub fn number_before(text: &[u8], end: End, most: u64) -> Option<(u64, &[u8])>
    requires { most ≤ 10 ^ 18 }
    ensures answer { NumberBefore text.now (byte_of end) most result }
{
    let last = end.byte();
    let mut value = 0;
    for (i, b) in text.iter().enumerate() {
        if *b == last {
            if i == 0 {
                return None;
            }
            return Some((value, &text[i + 1..]));
        }
        if *b < b'0' || *b > b'9' {
            return None;
        }
        if i == 1 && text[0] == b'0' {
            return None;
        }
        value = value * 10 + (*b - b'0') as u64;
        if value > most {
            return None;
        }
    }
    None
}
