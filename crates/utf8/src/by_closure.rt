// Runs of characters by a closure of the caller's, which may capture what it compares with. A type with `Chars` holds no value, so what
// captures one cannot be handed to `run_end_of`.
ghost use Rattle.std.specs.Prelude.{◌≡◌, leb};
ghost use Rattle.patterns.specs.Utf8.{Class};
ghost use Rattle.utf8.specs.Runs.{Decided, run_end};

use crate::decode_at;

// The end of the run at `at` of characters that `fits` allows, or `at` where there is none: the clause's run has no byte there. A
// character has one to four bytes, so no iterator steps by it.
pub fn run_end<F: Fn(u32) -> bool>(src: &[u8], at: usize, fits: F) -> usize
    requires { F.IsAlwaysCallable fits }
    ensures { (f : Class) → Decided f (F.post fits) → result ≡ run_end f src.now at }
{
    let mut end = at;
    while let Some(&b) = src.get(end) {
        // An ASCII character needs no decoding.
        if b < 0x80 {
            if !fits(u32::from(b)) {
                return end;
            }
            end += 1;
            continue;
        }
        match decode_at(src, end) {
            Some(c) if fits(c.value) => end += c.len,
            _ => return end,
        }
    }
    end
}

#[cfg(test)]
mod tests {
    use super::*;

    // A caller's closure that captures a value: what is promised of it is the run of the characters up to `most`.
    fn up_to(src: &[u8], at: usize, most: u32) -> usize
        ensures { result ≡ run_end (λ v. leb v most) src.now at }
    {
        run_end(src, at, |v| v <= most)
    }

    // A character of each length, then a byte that begins none: 'a', U+E9, U+20AC, U+10348, FF.
    #[test]
    fn ends_where_the_closure_does(rt: HostRuntime) {
        let text = [
            0x61, 0xC3, 0xA9, 0xE2, 0x82, 0xAC, 0xF0, 0x90, 0x8D, 0x88, 0xFF,
        ];
        for (at, most, end) in [
            (0, 0x60, 0),
            (0, 0x61, 1),
            (0, 0xE9, 3),
            (0, 0x20AC, 6),
            (0, 0x10348, 10),
            (1, 0x20AC, 6),
            (2, 0x20AC, 2),
            (10, 0x10FFFF, 10),
            (11, 0x10FFFF, 11),
            (12, 0x10FFFF, 12),
        ] {
            assert_eq!(rt; up_to(&text, at, most), end, "at {at} up to {most}");
        }
        assert_eq!(rt; run_end(&[], 0, |_| true), 0);
    }
}
