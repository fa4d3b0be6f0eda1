// What is taken at a place of a source, in a mode: the mode's longest match, or what the modes after it take.
#![tactic(auto)]

ghost use Rattle.std.specs.Prelude.{◌≡◌, [], drop, MatchOption};
ghost use Rattle.tokens.specs.declared.Mode.TheVariants.{Normal, HexPattern, HexJump};
ghost use Rattle.tokens.specs.Tokens.{tables_1};
ghost use Rattle.tokens.specs.Scan.{tried, chosen, choose};
ghost use Rattle.rules.specs.Choosing.{unknown_of};

mod hex_modes;
mod hits;
mod normal_mode;
mod spacing;

use tokens::{Choice, Hit, Mode, Offset};

// What is taken at a place, in a mode.
pub fn taken(mode: Mode, src: &[u8], at: Offset) -> Choice
    ensures { result ≡ choose tables_1 (tried mode) (drop at.0 src.now) }
{
    let at = at.0 as usize;
    match mode {
        Mode::Normal => normal(src, at),
        Mode::HexPattern => pattern(src, at),
        Mode::HexJump => jump(src, at),
    }
}

// Jump mode's hit, or what pattern mode takes.
fn jump(src: &[u8], at: usize) -> Choice
    ensures { result ≡ choose tables_1 (tried HexJump) (drop at src.now) }
{
    hit_or(hex_modes::jump(src, at), Mode::HexJump, || pattern(src, at))
}

// Pattern mode's hit, or what normal mode takes.
fn pattern(src: &[u8], at: usize) -> Choice
    ensures { result ≡ choose tables_1 (tried HexPattern) (drop at src.now) }
{
    hit_or(
        hex_modes::pattern(src, at),
        Mode::HexPattern,
        || normal(src, at),
    )
}

// Normal mode's hit, or what is taken where no rule matches.
fn normal(src: &[u8], at: usize) -> Choice
    ensures { result ≡ choose tables_1 (tried Normal) (drop at src.now) }
{
    hit_or(
        normal_mode::normal(src, at),
        Mode::Normal,
        || unmatched(src, at),
    )
}

// The hit in its mode; where there is none, what is taken next.
fn hit_or<F: FnOnce() -> Choice>(hit: Option<Hit>, mode: Mode, next: F) -> Choice
    requires { F.IsAlwaysCallable next }
    ensures { MatchOption hit (F.post next result) (λ h. result ≡ chosen h.kind h.len mode) }
{
    match hit {
        Some(Hit { kind, len }) => Choice { kind, len, mode },
        None => next(),
    }
}

// Where no rule matches: INVALID_UTF8, one ill-formed byte; else UNKNOWN.
fn unmatched(src: &[u8], at: usize) -> Choice
    ensures { result ≡ choose tables_1 [] (drop at src.now) }
{
    match utf8::decode_at(src, at) {
        Some(_) => unknown(src, at),
        None => Choice {
            kind: tokens::INVALID_UTF8,
            len: 1,
            mode: Mode::Normal,
        },
    }
}

// UNKNOWN: the well-formed text up to White_Space, one byte at least.
fn unknown(src: &[u8], at: usize) -> Choice
    ensures { result ≡ unknown_of (drop at src.now) }
{
    let end = spaces::plain_text(src, at);
    Choice {
        kind: tokens::UNKNOWN,
        len: (end - at).max(1),
        mode: Mode::Normal,
    }
}
