// Numbers and lines put on a page: bytes that are lent, and written from their front. A number takes at most five digits.
ghost use Rattle.std.specs.Prelude.{[], ◌∷◌, ◌+◌, ◌*◌, ◌≤◌, length};
ghost use Rattle.text.specs.Lines.{bytes, line};
ghost use Rattle.text.specs.Answers.{decimal, commas, message_lines};
ghost use Rattle.text.specs.Writing.{Put};

use itoa::Buffer;

// The first `len` bytes are written.
#[derive(Drop)]
pub struct Page<'a> {
    pub out: &'a mut [u8],
    pub len: usize,
}

impl Page<'_> {
    fn put_byte(&mut self, b: u8)
        requires { self.old.len + 1 ≤ length self.old.out.now }
        ensures { Put self.old (b ∷ []) 1 self.new }
    {
        self.out[self.len] = b;
        self.len += 1;
    }

    fn put_bytes(&mut self, text: &[u8])
        requires { self.old.len + length text.now ≤ length self.old.out.now }
        ensures { Put self.old text.now (length text.now) self.new }
    {
        let end = self.len + text.len();
        self.out[self.len..end].copy_from_slice(text);
        self.len = end;
    }

    // A number in decimal, by itoa: of a `write!` into bytes std does not say which bytes it leaves.
    #[tactic(auto, using(crate::proofs::Decimals::decimal_std))]
    fn put_number(&mut self, n: u16)
        requires { self.old.len + 5 ≤ length self.old.out.now }
        ensures { Put self.old (decimal n) 5 self.new }
    {
        let mut buffer = Buffer::new();
        self.put_bytes(buffer.format(n).as_bytes());
    }

    pub fn put_line(&mut self, key: &[u8], n: u16)
        requires { self.old.len + (length key.now + 6) ≤ length self.old.out.now }
        ensures { Put self.old (line key.now (decimal n)) (length key.now + 6) self.new }
    {
        self.put_bytes(key);
        self.put_number(n);
        self.put_byte(b'\n');
    }

    fn put_numbers(&mut self, ns: &[u8])
        requires { self.old.len + 6 * length ns.now ≤ length self.old.out.now }
        ensures { Put self.old (commas ns.now) (6 * length ns.now) self.new }
    {
        for (i, n) in ns.iter().enumerate() {
            if 0 < i {
                self.put_byte(b',');
            }
            self.put_number(u16::from(*n));
        }
    }

    fn put_message(&mut self, message: &[u8])
        requires { self.old.len + (9 + 6 * length message.now) ≤ length self.old.out.now }
        ensures { Put self.old (line (bytes "message=") (commas message.now)) (9 + 6 * length message.now) self.new }
    {
        self.put_bytes(b"message=");
        self.put_numbers(message);
        self.put_byte(b'\n');
    }

    // A line for each of the `count` messages, k symbols each.
    pub fn put_messages(&mut self, count: usize, k: usize, messages: &[u8])
        requires room { self.old.len + count * (9 + 6 * k) ≤ length self.old.out.now }
        requires there { count * k ≤ length messages.now }
        ensures { Put self.old (message_lines count k messages.now) (count * (9 + 6 * k)) self.new }
    {
        for i in 0..count {
            let from = i * k;
            self.put_message(&messages[from..from + k]);
        }
    }
}
