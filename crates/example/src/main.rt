// What an editor does with the library: it looks ahead, goes back without losing a token, and hands on what it found as events.
#![tactic(auto)]

use event_record::{Event, Span};
use events::Stream;
use refusals::Refusal;
use std::io;
use tokens::{Offset, Token};
use window::Window;

// Reads on from a bookmark, and goes back to it: the first token, the one behind it, and the first again. Each call gives its answer and
// the window after it, which is left in `window`; `?` hands on why a call is refused. The room has eight slots, three numbers for a token.
fn read_twice(src: &[u8]) -> Result<[Option<Token>; 3], Refusal> {
    let mut room = [0; 24];
    let opened = Window::open(src, &room);
    let mut window = opened.after;
    opened.answer?;
    let mark = window.bookmark(src, &room).left_in(&mut window)?;
    let keyword = window.next_token(src, &mut room).left_in(&mut window)?;
    let name = window.peek_token(src, &mut room, 1).left_in(&mut window)?;
    window
        .restore_bookmark(src, &room, mark)
        .left_in(&mut window)?;
    window
        .remove_bookmark(src, &room, mark)
        .left_in(&mut window)?;
    let again = window.next_token(src, &mut room).left_in(&mut window)?;
    Ok([keyword, name, again])
}

// A node of kind 1 around one token: its three events. The room has four slots, four numbers for an event, and there is one open place.
fn hand_on(kind: u16, span: Span) -> Result<[Option<Event>; 3], Refusal> {
    let mut room = [0; 16];
    let mut opens = [0; 1];
    let mut stream = Stream::open(&room, &opens);
    stream.begin(&mut room, &mut opens, 1).left_in(&mut stream)?;
    stream
        .push_token(&mut room, &opens, kind, span)
        .left_in(&mut stream)?;
    stream.end(&mut room, &opens).left_in(&mut stream)?;
    let begin = stream.pop(&room, &opens).left_in(&mut stream)?;
    let token = stream.pop(&room, &opens).left_in(&mut stream)?;
    let end = stream.pop(&room, &opens).left_in(&mut stream)?;
    Ok([begin, token, end])
}

// Writes a token behind a word.
fn say_token(rt: &impl Print, word: &str, token: Option<Token>) -> io::Result<()> {
    match token {
        Some(token) => println!(rt; "{word} {} {} {}", token.kind, token.start.0, token.end.0),
        None => println!(rt; "{word} none"),
    }
}

// Writes an event.
fn say_event(rt: &impl Print, event: Option<Event>) -> io::Result<()> {
    match event {
        Some(Event { tag, kind, span }) => println!(rt;
            "event {tag} {kind} {} {}",
            span.start.0, span.end.0
        ),
        None => println!(rt; "no event"),
    }
}

// Writes what was read and what was handed on; or why a call was refused, by its number.
fn main(rt: HostRuntime) -> io::Result<()> {
    match read_twice(b"rule till { condition: true }") {
        Ok(tokens) => {
            let [keyword, name, again] = tokens;
            say_token(&rt, "next", keyword)?;
            say_token(&rt, "peek 1", name)?;
            say_token(&rt, "next", again)?;
        }
        Err(refusal) => println!(rt; "refused {refusal}")?,
    }
    let span = Span {
        start: Offset(0),
        end: Offset(4),
    };
    match hand_on(33, span) {
        Ok(events) => {
            let [begin, token, end] = events;
            say_event(&rt, begin)?;
            say_event(&rt, token)?;
            say_event(&rt, end)
        }
        Err(refusal) => println!(rt; "refused {refusal}"),
    }
}
