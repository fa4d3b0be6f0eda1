// Bytes in hexadecimal: a pair of digits each.
ghost use Rattle.std.specs.Prelude.{◌≡◌, drop};
ghost use Rattle.lines.specs.Hex.{hex_value, pair, Decodes};

use crate::behind;

// What was decoded: how many bytes, and where their digits end in the text.
#[derive(Clone, Copy, Debug, PartialEq, Eq)]
pub struct Decoded {
    pub len: usize,
    pub end: usize,
}

// Decodes pairs of hexadecimal digits at the place into the front of `out`: as many as there are, and as there is room for.
// It goes by index: of what is written through `iter_mut` a proof knows nothing but the length.
pub fn decode(text: &[u8], from: usize, out: &mut [u8]) -> Decoded
    ensures { Decodes text.now from out.old out.new result.len result.end }
{
    let mut end = from;
    for len in 0..out.len() {
        let Some(byte) = pair_at(text, end) else {
            return Decoded { len, end };
        };
        out[len] = byte;
        end += 2;
    }
    Decoded {
        len: out.len(),
        end,
    }
}

// The byte that two hexadecimal digits at the place spell, if they stand there.
fn pair_at(text: &[u8], at: usize) -> Option<u8>
    ensures { result ≡ pair (drop at text.now) }
{
    let [high, low, ..] = behind(text, at) else {
        return None;
    };
    Some(hex_value(*high)? * 16 + hex_value(*low)?)
}

// The value of a hexadecimal digit, if the byte is one.
fn hex_value(b: u8) -> Option<u8>
    ensures { result ≡ hex_value b }
{
    match b {
        b'0'..=b'9' => Some(b - b'0'),
        b'a'..=b'f' => Some(b - b'a' + 10),
        _ => None,
    }
}
