// The record of an event stream as 16 numbers: slots, places, front, count and opened (two numbers each, the low one first), bookmarks, the
// spans last and gone, and whether anything was popped. So it can stand in memory that is not Rattle's between two calls.
#![tactic(auto)]

ghost use Rattle.std.specs.Prelude.{◌≡◌, true, false, IfOk, IfErr};
ghost use Rattle.refusals.specs.declared.Refusal.TheVariants.{NotAsOpened};
ghost use Rattle.stream_numbers.specs.Numbers.{truth_number, stream_of, numbers_of, put_count};
ghost use Rattle.stream_numbers.specs.Numbers.{put_last, put_opened, put_bookmarks, put_popped, forged};

use event_record::Span;
use events::Stream;
use refusals::Refusal;
use rooms::Slot;
use tokens::Offset;

// How many numbers a record is. Their places are written out: they are the layout that a caller's memory has, C's too.
pub const NUMBERS: usize = 16;

// The numbers of a record.
pub type Numbers = [u32; NUMBERS];

// The record that the numbers are. A last number that is no truth value is read as 0.
pub fn stream_of(numbers: Numbers) -> Stream
    ensures { result ≡ stream_of numbers }
{
    let last = Span {
        start: Offset(numbers[11]),
        end: Offset(numbers[12]),
    };
    let gone = Span {
        start: Offset(numbers[13]),
        end: Offset(numbers[14]),
    };
    Stream {
        slots: halves::joined(numbers[0], numbers[1]),
        places: halves::joined(numbers[2], numbers[3]),
        front: Slot(halves::joined(numbers[4], numbers[5])),
        count: halves::joined(numbers[6], numbers[7]),
        opened: halves::joined(numbers[8], numbers[9]),
        bookmarks: numbers[10],
        last,
        gone,
        popped: numbers[15] == 1,
    }
}

// The numbers of a record.
pub fn numbers_of(stream: Stream) -> Numbers
    ensures { result ≡ numbers_of stream }
{
    let front = stream.front;
    let last = stream.last;
    let gone = stream.gone;
    [
        halves::low(stream.slots),
        halves::high(stream.slots),
        halves::low(stream.places),
        halves::high(stream.places),
        halves::low(front.0),
        halves::high(front.0),
        halves::low(stream.count),
        halves::high(stream.count),
        halves::low(stream.opened),
        halves::high(stream.opened),
        stream.bookmarks,
        last.start.0,
        last.end.0,
        gone.start.0,
        gone.end.0,
        truth(stream.popped),
    ]
}

// The record that the numbers are, where they are those of one: 24 refuses the others.
pub fn record_of(numbers: Numbers) -> Result<Stream, Refusal>
    ensures record { IfOk result (λ t. (forged numbers ≡ false) × (t ≡ stream_of numbers)) }
    ensures refused { IfErr result (λ n. (forged numbers ≡ true) × (n ≡ NotAsOpened)) }
{
    if is_forged(numbers) {
        return Err(Refusal::NotAsOpened);
    }
    Ok(stream_of(numbers))
}

// Stores the count and the last token.
pub fn store_last(numbers: &mut Numbers, stream: Stream)
    ensures { numbers.new ≡ put_last numbers.old stream }
{
    let last = stream.last;
    store_count(numbers, stream);
    numbers[11] = last.start.0;
    numbers[12] = last.end.0;
}

// Stores the count, and how many nodes are open.
pub fn store_opened(numbers: &mut Numbers, stream: Stream)
    ensures { numbers.new ≡ put_opened numbers.old stream }
{
    store_count(numbers, stream);
    numbers[8] = halves::low(stream.opened);
    numbers[9] = halves::high(stream.opened);
}

// Stores how many bookmarks live.
pub fn store_bookmarks(numbers: &mut Numbers, stream: Stream)
    ensures { numbers.new ≡ put_bookmarks numbers.old stream }
{
    numbers[10] = stream.bookmarks;
}

// Stores what a pop changes: the count, the front, and what was popped.
pub fn store_popped(numbers: &mut Numbers, stream: Stream)
    ensures { numbers.new ≡ put_popped numbers.old stream }
{
    let front = stream.front;
    let gone = stream.gone;
    store_count(numbers, stream);
    numbers[4] = halves::low(front.0);
    numbers[5] = halves::high(front.0);
    numbers[13] = gone.start.0;
    numbers[14] = gone.end.0;
    numbers[15] = truth(stream.popped);
}

// Stores the count.
fn store_count(numbers: &mut Numbers, stream: Stream)
    ensures { numbers.new ≡ put_count numbers.old stream }
{
    numbers[6] = halves::low(stream.count);
    numbers[7] = halves::high(stream.count);
}

// Whether the last number is no truth value, so that no record has these numbers.
pub fn is_forged(numbers: Numbers) -> bool
    ensures { result ≡ forged numbers }
{
    1 < numbers[15]
}

// A truth value as a number.
fn truth(b: bool) -> u32
    ensures { result ≡ truth_number b }
{
    u32::from(b)
}
