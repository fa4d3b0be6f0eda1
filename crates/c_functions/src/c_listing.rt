// The C function that writes a source's listing: bytes and numbers, so that C and Rust can call it.
ghost use Rattle.std.specs.Prelude.{◌≡◌};
ghost use Rattle.refusals.specs.Calls.{reply};
ghost use Rattle.c_functions.specs.Answers.{lent};
ghost use Rattle.c_functions.specs.ListingOf.{listing_of};

// Document 01's listing of a source, as text at the front of `out`; how many bytes it has is written to `len`. Answers 0; or 1 where the
// source is over the limit, then 15 where `out` is too short, and changes nothing that is lent.
pub fn rattle_listing(src: &[u8], out: &mut [u8], len: &mut usize) -> u32
    ensures { reply result (lent out.new len.new) ≡ listing_of src.now out.old len.old }
{
    match listing_text::list(src, out) {
        Ok(n) => {
            *len = n;
            0
        }
        Err(refusal) => u32::from(refusal),
    }
}
