// What an editor or a build tool does with a rule file: it walks all tokens, and writes each that is neither blank nor comment.
// The loop's proof, to copy for a loop of one's own: proofs/walk.
#![tactic(auto)]

ghost use Rattle.std.specs.Prelude.{◌≤◌, length, IfOk};

use std::io;
use tokens::{COMMENT, NEWLINE, Token, WHITESPACE};
use window::Window;

// Writes a token's kind, where it starts and ends, and its text; nothing of one that is a blank, a newline or a comment.
fn show(rt: &impl Print, src: &[u8], token: Token) -> io::Result<()> {
    let Token { kind, start, end } = token;
    if matches!(kind, WHITESPACE | NEWLINE | COMMENT) {
        return Ok(());
    }
    print!(rt; "{kind} {} {} ", start.0, end.0)?;
    rt.write_all(src.get(start.0 as usize..end.0 as usize).unwrap_or(b""))?;
    println!(rt)
}

// Reads token after token until there is none, and answers how many there were: no more than the source has bytes.
// Each call gives its answer and the window after it, which is left in `window`.
fn walk(rt: &impl Print, src: &[u8], room: &mut [u32], opened: Window) -> io::Result<usize>
    ensures { IfOk result (λ count. count ≤ length src.now) }
{
    let mut window = opened;
    let mut count = 0;

    // no `while let`: a refusal is said, not passed over
    loop {
        match window.next_token(src, room).left_in(&mut window) {
            Ok(Some(token)) => show(rt, src, token)?,
            Ok(None) => return Ok(count),
            Err(refusal) => {
                println!(rt; "refused {refusal}")?;
                return Ok(count);
            }
        }
        count += 1;
    }
}

// Walks a small rule, with a comment. The room of the window has one slot, three numbers: enough where nothing is looked ahead at.
fn main(rt: HostRuntime) -> io::Result<()> {
    let src = b"rule big : demo { // by size\n  condition: filesize > 1KB\n}\n";
    let mut room = [0; 3];
    let opened = Window::open(src, &room);
    if let Err(refusal) = opened.answer {
        return println!(rt; "refused {refusal}");
    }
    let count = walk(&rt, src, &mut room, opened.after)?;
    println!(rt; "{count} tokens")
}
