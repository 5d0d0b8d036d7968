// Lines of text: a word and a number.
ghost use Rattle.std.specs.Prelude.{◌≡◌, ◌≤◌};
ghost use Rattle.text.specs.Line.{numbered, with_text, kind_line, refused_line};

// A line of `len` bytes, its line feed included; the bytes after it are 0. It is made byte by byte and kept so, since
// `read_message Printed.kind_printed` and `refused_printed` say each byte, which a format's contract doesn't.
#[derive(Clone, Copy)]
pub struct Line {
    pub bytes: [u8; 12],
    pub len: usize,
}

// `kind ` and the number of a kind.
pub fn kind_line(n: u8) -> Line
    ensures { result ≡ kind_line n }
{
    let word = Line {
        bytes: [b'k', b'i', b'n', b'd', b' ', 0, 0, 0, 0, 0, 0, 0],
        len: 5,
    };
    with_number(word, n)
}

// `refused ` and the number of a refusal.
pub fn refused_line(n: u8) -> Line
    ensures { result ≡ refused_line n }
{
    let word = Line {
        bytes: [b'r', b'e', b'f', b'u', b's', b'e', b'd', b' ', 0, 0, 0, 0],
        len: 8,
    };
    with_number(word, n)
}

// The line with a number and a line feed after its text.
fn with_number(line: Line, n: u8) -> Line
    requires { line.len ≤ 8 }
    ensures { result ≡ with_text line (numbered n) }
{
    let a = b'0' + n / 100;
    let b = b'0' + n / 10 % 10;
    let c = b'0' + n % 10;
    let at = line.len;
    let mut bytes = line.bytes;
    if n < 10 {
        bytes[at] = c;
        bytes[at + 1] = b'\n';
        return Line { bytes, len: at + 2 };
    }
    if n < 100 {
        bytes[at] = b;
        bytes[at + 1] = c;
        bytes[at + 2] = b'\n';
        return Line { bytes, len: at + 3 };
    }
    bytes[at] = a;
    bytes[at + 1] = b;
    bytes[at + 2] = c;
    bytes[at + 3] = b'\n';
    Line { bytes, len: at + 4 }
}
