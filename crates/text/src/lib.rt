// The program's text: a request is read from seven lines, and an answer is written as lines, both in lent bytes.
#![tactic(auto)]

ghost use Rattle.std.specs.Prelude.{◌≡◌, []};
ghost use Rattle.text.specs.Requests.{HasRead};
ghost use Rattle.text.specs.Answers.{reply, HasWritten};
ghost use Rattle.text.specs.Replies.{said};

use reading::{number, numbers, optional, take_line};
use writing::Page;

mod number_list; // number_list.rt: a list of numbers
mod reading; // reading.rt: lines, numbers and lists of numbers in a text
mod writing; // writing.rt: numbers and lines put on a page

pub use number_list::NumberList;

#[derive(Clone, Copy)]
pub struct Request {
    pub field: u8,
    pub k: u8,
    pub m: u8,
    pub l: u8,
    pub t: u8,
    pub points: NumberList,
    pub word: NumberList,
}

// The request that the text means, if it can be read. Each value is read before the next line is looked for, so that a text is read no further
// than what is wrong with it.
pub fn read(text: &[u8]) -> Option<Request>
    ensures { HasRead text.now result }
{
    let (field, rest) = take_line(text, b"field=")?;
    let field = number(field)?;
    let (k, rest) = take_line(rest, b"k=")?;
    let k = number(k)?;
    let (m, rest) = take_line(rest, b"m=")?;
    let m = optional(m, 1)?;
    let (l, rest) = take_line(rest, b"l=")?;
    let l = optional(l, m)?;
    let (t, rest) = take_line(rest, b"t=")?;
    let t = number(t)?;
    let (points, rest) = take_line(rest, b"points=")?;
    let points = numbers(points)?;
    let (word, rest) = take_line(rest, b"word=")?;
    let word = numbers(word)?;
    if !rest.is_empty() {
        return None;
    }
    Some(Request {
        field,
        k,
        m,
        l,
        t,
        points,
        word,
    })
}

// What is printed: the number of the table, and beside the number 0 the list. Any number may be asked for, so it is no enum.
#[derive(Clone, Copy)]
pub struct Reply<'a> {
    pub number: u8,
    pub updates: u16,
    pub weight: u8,
    pub count: u8,
    pub k: u8,
    pub messages: &'a [u8],
}

impl Reply<'_> {
    // The number alone.
    pub fn refusal(number: u8) -> Reply<'static>
        ensures { said result ≡ reply number 0 0 0 0 [] }
    {
        Reply {
            number,
            updates: 0,
            weight: 0,
            count: 0,
            k: 0,
            messages: b"",
        }
    }

    // The answer's text at the front of out, and its length. Where out may be too short, or the messages are too few, nothing is written.
    pub fn write(&self, out: &mut [u8]) -> usize
        ensures { HasWritten (said self.now) out.old out.new result }
    {
        let lines = usize::from(self.count);
        let symbols = usize::from(self.k);
        if self.messages.len() < lines * symbols {
            return 0;
        }
        if out.len() < 52 + lines * (9 + 6 * symbols) {
            return 0;
        }
        let mut page = Page { out, len: 0 };
        page.put_line(b"answer=", u16::from(self.number));
        if self.number == 0 {
            page.put_line(b"updates=", self.updates);
            page.put_line(b"weight=", u16::from(self.weight));
            page.put_line(b"count=", u16::from(self.count));
            page.put_messages(lines, symbols, self.messages);
        }
        page.len
    }
}
