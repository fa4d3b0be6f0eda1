// What the lines work on: a window, the source and the room that are lent to it.
use lines::Asked;
use std::io;
use window::Window;

// Where the bytes stand that no line has.
const FAR: usize = 20000;

// The source is none where a line asks for bytes that are not there; the room is the first `numbers` of those to lend.
#[derive(Clone, Copy)]
pub(crate) struct Bench<'t> {
    text: &'t [u8],
    pub(crate) src: Option<&'t [u8]>,
    pub(crate) room: [u32; 18],
    pub(crate) numbers: usize,
    pub(crate) window: Window,
}

impl<'t> Bench<'t> {
    // A bench over a text that bytes are taken from, at first with no source and no room.
    pub(crate) fn new(text: &'t [u8]) -> Bench<'t> {
        let given = Window::open(b"", &[]);
        Bench {
            text,
            src: Some(b""),
            room: [7; 18],
            numbers: 0,
            window: given.after,
        }
    }

    // Other numbers are lent, each 7.
    fn give(&mut self, numbers: usize) {
        self.room.fill(7);
        self.numbers = numbers;
    }

    // The source is of the bytes that no line has.
    fn take_far(&mut self, asked: Asked) {
        let from = FAR + lines::narrow(asked.first) as usize;
        let to = from + lines::narrow(asked.second) as usize;
        self.src = self.text.get(from..to);
    }

    // Does what a line asks for by its first letter: lends another source or another room, makes a call, or sets a field.
    pub(crate) fn step(&mut self, rt: &impl Print, line: &'t [u8]) -> io::Result<()> {
        let asked = lines::ask(line);
        match asked.letter {
            b's' => self.src = Some(line.get(7..).unwrap_or(b"")),
            b'f' => self.take_far(asked),
            b'g' => self.give(asked.first),
            letter if letter >= b'a' => return self.call(rt, asked),
            _ => self.window = crate::forge::set(self.window, asked),
        }
        Ok(())
    }
}
