//! The bytes of a program, by what they may stand for (`specs/ByteClasses.antt`).

ghost use Rattle.std.specs.Prelude.{◌≡◌, ◌≤◌, length};
ghost use Rattle.std.specs.List.{prefix_len};
ghost use Rattle.dso_tokens.specs.Bytes as spec;
ghost use Rattle.dso_tokens.specs.ByteClasses as classes;

/// Tab, line feed, carriage return, space.
pub fn is_white(b: u8) -> bool
    ensures { result ≡ spec.is_white b }
{
    b == b'\t' || b == b'\n' || b == b'\r' || b == b' '
}

/// The visible bytes and the space.
pub fn is_printable(b: u8) -> bool
    ensures { result ≡ spec.is_printable b }
{
    b' ' <= b && b <= b'~'
}

/// The bytes that a program may have.
pub fn is_allowed(b: u8) -> bool
    ensures { result ≡ spec.is_allowed b }
{
    is_white(b) || is_printable(b)
}

/// Those that a line may have.
pub fn is_of_line(b: u8) -> bool
    ensures { result ≡ spec.is_of_line b }
{
    is_allowed(b) && b != b'\n'
}

/// What a name begins with.
pub fn is_letter(b: u8) -> bool
    ensures { result ≡ spec.is_letter b }
{
    b.is_ascii_alphabetic() || b == b'_'
}

/// What a number is made of.
pub fn is_digit(b: u8) -> bool
    ensures { result ≡ spec.is_digit b }
{
    b.is_ascii_digit()
}

/// What a name goes on with.
pub fn is_word(b: u8) -> bool
    ensures { result ≡ spec.is_word b }
{
    is_letter(b) || is_digit(b)
}

/// A class of bytes that runs are made of.
#[derive(Clone, Copy)]
pub enum Class {
    Line,
    Digit,
    Word,
}

/// Whether the byte is of the class.
fn is_in(class: Class, b: u8) -> bool
    ensures { result ≡ classes.is_in class b }
{
    match class {
        Class::Line => is_of_line(b),
        Class::Digit => is_digit(b),
        Class::Word => is_word(b),
    }
}

/// How many bytes of the class stand at the front.
pub fn run_len(class: Class, text: &[u8]) -> usize
    ensures value { result ≡ prefix_len (classes.is_in class) text.now }
    ensures within { result ≤ length text.now }
{
    let mut text = text;
    let mut count = 0;
    while let [b, rest @ ..] = text {
        if !is_in(class, *b) {
            break;
        }
        count += 1;
        text = rest;
    }
    count
}
