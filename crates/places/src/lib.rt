// What stands at a place of a source: a byte, a text.
// Here and in the leaves a source and a place go side by side: a struct of both would be taken apart at every slice, and in every clause.
#![tactic(auto)]

ghost use Rattle.std.specs.Prelude.{◌≡◌, drop};
ghost use Rattle.patterns.specs.Walk.{prefix};
ghost use Rattle.places.specs.Places.{Has};
ghost use Rattle.places.specs.Signs.{Byte};

// The byte at a place, or 0 past the end, as the definitions' `get_or` has it: no rule starts with a 0.
pub fn byte_at(src: &[u8], at: usize) -> u8
    ensures { Byte src.now at result }
{
    src.get(at).copied().unwrap_or(0)
}

// Whether the byte `b` stands at `at`.
pub fn has_byte(src: &[u8], at: usize, b: u8) -> bool
    ensures { Has src.now at b result }
{
    src.get(at) == Some(&b)
}

// Whether `text` stands at `at`.
pub fn has(src: &[u8], at: usize, text: &[u8]) -> bool
    ensures { result ≡ prefix text.now (drop at src.now) }
{
    src.get(at..).unwrap_or(&[]).starts_with(text)
}
