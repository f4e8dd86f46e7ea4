// Text into a lent buffer, from its front on.
ghost use Rattle.std.specs.Prelude.{◌≡◌};
ghost use Rattle.run.specs.Text.{decimal, named_line};

// The buffer, and how many of its bytes are written; what stands past them stays.
// No `fmt::Write`: its contract leaves open when a write fails, and here each is promised whole.
#[derive(Drop)]
pub(crate) struct Text<'a> {
    pub(crate) out: &'a mut [u8],
    pub(crate) length: usize,
}

impl<'a> Text<'a> {
    ghost use Rattle.run.specs.Buffer.{RoomFor, Appends};

    // Nothing is written yet.
    pub(crate) fn new(out: &'a mut [u8]) -> Text<'a>
        ensures same_reference { result.out.ghost_name ≡ out.entry.ghost_name }
        ensures bytes { result.out.now ≡ out.old }
        ensures length { result.length ≡ 0 }
    {
        Text { out, length: 0 }
    }

    // A text as it is.
    pub(crate) fn text(&mut self, text: &str)
        requires { RoomFor self.old text.now }
        ensures { Appends self.old text.now self.new }
    {
        let end = self.length + text.len();
        self.out[self.length..end].copy_from_slice(text.as_bytes());
        self.length = end;
    }

    // A number in decimal.
    fn decimal(&mut self, n: u32)
        requires { RoomFor self.old (decimal n) }
        ensures { Appends self.old (decimal n) self.new }
    {
        let mut digits = itoa::Buffer::new();
        self.text(digits.format(n));
    }

    // A line of numbers, each behind its name.
    pub(crate) fn line(&mut self, numbers: &[(&str, u32)])
        requires { RoomFor self.old (named_line numbers.now) }
        ensures { Appends self.old (named_line numbers.now) self.new }
    {
        for (name, n) in numbers {
            self.text(name);
            self.decimal(*n);
        }
        self.text("\n");
    }
}
