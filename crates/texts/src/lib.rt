// Strings and regexps: where the one at a place ends. Where there is none that is the place itself: the clauses' longest match has no
// byte there.
#![tactic(auto)]

ghost use Rattle.std.specs.Prelude.{◌+◌, ◌<◌, ◌≤◌, ◌≡◌, length, get_or, drop};
ghost use Rattle.patterns.specs.Pattern.{longest};
ghost use Rattle.tokens.specs.Tokens.{string, multi_line_string, regexp};
ghost use Rattle.texts.specs.Items.{items, pair_at};
ghost use Rattle.texts.specs.Quoted.{plain, quoted};
ghost use Rattle.texts.specs.Regexps.{modifiers};

// Whether `b` is an item by itself: no backslash, not the byte that closes the text, and LF only in a text that may have lines.
// The flag is that of the definitions `plain` and `quoted` of specs/, which the theorems on strings and regexps are about.
fn plain(b: u8, close: u8, lines: bool) -> bool
    ensures { result ≡ plain close lines b }
{
    if b == close || b == b'\\' {
        return false;
    }
    lines || b != b'\n'
}

// Whether a backslash stands at `at`, and behind it a byte that is not LF.
fn pair(src: &[u8], at: usize) -> bool
    requires { at < length src.now }
    ensures { result ≡ pair_at src.now at }
{
    src[at] == b'\\' && src.get(at + 1).is_some_and(|b| *b != b'\n')
}

// The end of the row of items at `at`: plain bytes, and pairs. An item has one byte or two, so no iterator goes from item to item.
fn items(src: &[u8], at: usize, close: u8, lines: bool) -> usize
    ensures { result ≡ at + longest (items (plain close lines)) (drop at src.now) }
{
    let mut i = at;
    while let Some(b) = src.get(i) {
        if plain(*b, close, lines) {
            i += 1;
        } else if pair(src, i) {
            i += 2;
        } else {
            return i;
        }
    }
    i
}

// The end of the text at `at` between `quotes`, or `at` where there is none: there the longest match of the clause has no byte.
fn quoted(src: &[u8], at: usize, quotes: &[u8], lines: bool) -> usize
    requires { get_or quotes.now 0 0 ≡ 34 }
    ensures { result ≡ at + longest (quoted quotes.now lines) (drop at src.now) }
{
    if !places::has(src, at, quotes) {
        return at;
    }
    let end = items(src, at + quotes.len(), b'"', lines);
    if !places::has(src, end, quotes) {
        return at;
    }
    end + quotes.len()
}

// The end of the string at `at`, or `at` where there is none.
pub fn string(src: &[u8], at: usize) -> usize
    ensures { result ≡ at + longest string (drop at src.now) }
{
    quoted(src, at, b"\"", false)
}

// The end of the multi-line string at `at`, or `at` where there is none.
pub fn multi_line_string(src: &[u8], at: usize) -> usize
    ensures { result ≡ at + longest multi_line_string (drop at src.now) }
{
    quoted(src, at, b"\"\"\"", true)
}

// The end of the modifiers at `at`: at most two letters.
fn modifiers(src: &[u8], at: usize) -> usize
    requires { at ≤ length src.now }
    ensures { result ≡ at + longest modifiers (drop at src.now) }
{
    at + src[at..]
        .iter()
        .take_while(|b| classes::is_letter(**b))
        .take(2)
        .count()
}

// The end of the regexp at `at`, or `at` where there is none.
pub fn regexp(src: &[u8], at: usize) -> usize
    ensures { result ≡ at + longest regexp (drop at src.now) }
{
    if !places::has_byte(src, at, b'/') {
        return at;
    }
    let first = at + 1;
    if places::has_byte(src, first, b'*') || places::has_byte(src, first, b'/') {
        return at;
    }
    let end = items(src, first, b'/', false);
    if !places::has_byte(src, end, b'/') {
        return at;
    }
    modifiers(src, end + 1)
}
