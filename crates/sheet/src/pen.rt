// Writing on a page.
ghost use Rattle.std.specs.Prelude.{◌≡◌, ◌+◌, ◌≤◌, [], ◌∷◌, ◌++◌, length};
ghost use Rattle.sheet.specs.Figure.{line_of, shown};
ghost use Rattle.sheet.specs.Page.{text_of};

use crate::figure::Figure;
use crate::page::Page;
use itoa::Buffer;

// What stands for a figure that is missing.
const MISSING: &[u8] = b"-";

impl Page {
    // A page with no text.
    pub(crate) fn blank() -> Page
        ensures { (text_of result ≡ []) × (result.len ≡ 0) }
    {
        Page {
            bytes: [b' '; 256],
            len: 0,
        }
    }

    // Its text.
    pub fn text(&self) -> &[u8]
        ensures { result.now ≡ text_of self.now }
    {
        &self.bytes[0..self.len]
    }

    // Room is asked for here and in what writes by it: how much is written is a fact of the bytes, not of the page. Bytes, not `fmt::Write`: that may
    // fail, and a sheet can't.
    fn push_all(&mut self, bytes: &[u8])
        requires { self.old.len + length bytes.now ≤ 256 }
        ensures text { text_of self.new ≡ text_of self.old ++ bytes.now }
        ensures len { self.new.len ≡ self.old.len + length bytes.now }
    {
        let end = self.len + bytes.len();
        self.bytes[self.len..end].copy_from_slice(bytes);
        self.len = end;
    }

    // The figure in decimal.
    fn push_figure(&mut self, figure: Figure)
        requires { self.old.len + length (shown figure.value) ≤ 256 }
        ensures text { text_of self.new ≡ text_of self.old ++ shown figure.value }
        ensures len { self.new.len ≡ self.old.len + length (shown figure.value) }
    {
        match figure.value {
            Some(value) => self.push_all(Buffer::new().format(value).as_bytes()),
            None => self.push_all(MISSING),
        }
    }

    // A line: the word, a space, the figure, and a byte 10.
    #[tactic(auto, using(crate::proofs::Texts::shown_short))]
    pub(crate) fn push_line(&mut self, word: &[u8], figure: Figure)
        requires { self.old.len + length word.now + 23 ≤ 256 }
        ensures text { text_of self.new ≡ text_of self.old ++ (line_of word.now figure.value ++ (10 ∷ [])) }
        ensures len { self.new.len ≤ self.old.len + length word.now + 23 }
    {
        self.push_all(word);
        self.push_all(b" ");
        self.push_figure(figure);
        self.push_all(b"\n");
    }
}
