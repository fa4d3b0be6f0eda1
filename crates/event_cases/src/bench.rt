// What the lines work on: a stream, and the two rooms that are lent to it.
use crate::calls::Call;
use crate::say;
use events::Stream;
use lines::Asked;
use std::alloc::Global;
use std::io;

// How many numbers and places there are to lend.
const MOST_NUMBERS: usize = 4099;

const MOST_PLACES: usize = 256;

#[derive(Drop)]
pub(crate) struct Bench {
    pub(crate) stream: Stream,
    pub(crate) room: Vec<u32>,
    pub(crate) opens: Vec<usize>,
}

impl Bench {
    // A bench with no room.
    pub(crate) fn new(alloc: Global) -> Bench {
        Bench {
            stream: Stream::open(&[], &[]),
            room: Vec::new(alloc),
            opens: Vec::new(alloc),
        }
    }

    // As many numbers and places are lent as are asked for, or as there are; each is 7.
    fn lend(&mut self, rt: &(impl Print + AllocGlobal), asked: Asked) -> io::Result<()> {
        self.room = vec![in rt.alloc(); 7; asked.first.min(MOST_NUMBERS)]?;
        self.opens = vec![in rt.alloc(); 7; asked.second.min(MOST_PLACES)]?;
        print!(rt; "lent {} {}", self.room.len(), self.opens.len())
    }

    // A new stream over what is lent.
    fn open(&mut self, rt: &impl Print) -> io::Result<()> {
        self.stream = Stream::open(&self.room, &self.opens);
        print!(rt; "open")
    }

    // Pops until there is none: at most once for each slot of four numbers, and once more.
    fn drain(&mut self, rt: &impl Print) -> io::Result<()> {
        for turn in 0..=self.room.len() / 4 {
            let given = self.stream.pop(&self.room, &self.opens);
            self.stream = given.after;
            match given.answer {
                Ok(Some(event)) => say::next_event(rt, turn, event)?,
                Ok(None) => return Ok(()),
                Err(refusal) => return print!(rt; "refused {refusal}"),
            }
        }
        Ok(())
    }

    // Does what a line asks for, and says the answer.
    pub(crate) fn step(&mut self, rt: &(impl Print + AllocGlobal), line: &[u8]) -> io::Result<()> {
        let asked = lines::ask(line);
        match asked.letter {
            0 | b'-' => rt.write_all(line),
            b'l' => self.lend(rt, asked),
            b'o' => self.open(rt),
            b'd' => self.drain(rt),
            b'v' => say::view(rt, self.stream, &self.room, &self.opens),
            b'A'..=b'Z' => {
                self.set(asked);
                print!(rt; "set")
            }
            letter => self.make(
                rt,
                Call::named(letter, lines::next_byte(line, 0, b' ')),
                asked,
            ),
        }
    }
}
