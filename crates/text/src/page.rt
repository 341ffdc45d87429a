ghost use Rattle.std.specs.Prelude.{◌≤◌, length};

use itoa::Buffer;

// The lent output, written from its front on. It is no `fmt::Write`: as far as std's contracts say a `write!` may fail, also
// where the room suffices, and an answer has no refusal for that. The buffer is lent, so it is no vector with its own length.
#[derive(Drop)]
pub struct Page<'a> {
    out: &'a mut [u8],
    written: usize,
    ghost inside: { written ≤ length out.now },
}

impl<'a> Page<'a> {
    ghost use Rattle.std.specs.Prelude.{◌≡◌, ◌++◌, length, decimal};
    ghost use Rattle.text.specs.Pages.{Appends, HasRoom};

    pub(crate) fn new(out: &'a mut [u8]) -> Page<'a>
        ensures same { result.out.ghost_name ≡ out.entry.ghost_name }
        ensures bytes { result.out.now ≡ out.old }
        ensures empty { result.written ≡ 0 }
    {
        Page { out, written: 0 }
    }

    // How many bytes were written.
    pub(crate) fn written(&self) -> usize
        ensures { result ≡ self.now.written }
    {
        self.written
    }

    // Writes the bytes behind the others.
    pub(crate) fn push(&mut self, bytes: &[u8])
        requires { HasRoom self.old (length bytes.now) }
        ensures { Appends self.old bytes.now self.new }
    {
        let end = self.written + bytes.len();
        self.out[self.written..end].copy_from_slice(bytes);
        self.written = end;
    }

    // Writes a number in decimal digits.
    fn push_number(&mut self, number: u32)
        requires { HasRoom self.old (length (decimal number)) }
        ensures { Appends self.old (decimal number) self.new }
    {
        self.push(Buffer::new().format(number).as_bytes());
    }

    // Writes a label and the number behind it.
    pub(crate) fn push_labelled(&mut self, label: &[u8], number: u32)
        requires { HasRoom self.old (length (label.now ++ decimal number)) }
        ensures { Appends self.old (label.now ++ decimal number) self.new }
    {
        self.push(label);
        self.push_number(number);
    }
}
