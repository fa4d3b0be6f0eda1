// Hits: that of one rule, and the longer of two.
ghost use Rattle.std.specs.Prelude.{◌≡◌, ◌-◌};
ghost use Rattle.tokens.specs.Scan.{hit};
ghost use Rattle.places.specs.Signs.{matched};
ghost use Rattle.rules.specs.Better.{longer_hit};

use tokens::Hit;

// The hit of one rule, by where it ends; none where that is where it starts.
pub(crate) fn one(kind: u32, at: usize, end: usize) -> Option<Hit>
    ensures { result ≡ matched (hit kind (end - at)) }
{
    (at < end).then(|| Hit {
        kind,
        len: end - at,
    })
}

// The first of two hits, unless the other is longer.
pub(crate) fn longer(first: Option<Hit>, other: Option<Hit>) -> Option<Hit>
    ensures { result ≡ longer_hit first other }
{
    match (first, other) {
        (Some(a), Some(b)) if a.len < b.len => other,
        (None, _) => other,
        _ => first,
    }
}
